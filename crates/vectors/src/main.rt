// Reads a run of records from standard input and writes a line for each: what the functions that it asks for answer. A record is its
// kind, a letter, and then its fields (crate vector_records); a line begins with the kind. The module of each topic, here and in
// vector_messages, and vector_writers list their kinds with their fields. A record that the input's end cuts short ends the run.
#![tactic(auto)]

mod children;
mod contents;
mod crc;
mod cursors;

use fields::number::Number;
use std::io;
use vector_messages::{headers, messages, streams, values, writers};
use vector_records::{LONG_ROOM, Records, after_field, field};

fn print_answer(rt: &impl Print, record: &[u8]) -> io::Result<()> {
    let kind = u8::read(record, 0);
    let first = fields::slice::rest(record, 1);
    let second = after_field(first);
    let third = after_field(second);
    vector_records::print_kind(rt, kind)?;
    // The letters are the input's format: an enum of kinds would name each of them once more.
    match kind {
        b'K' => crc::print_crc(rt, field(first)),
        b'T' => contents::print_transform(rt, field(first)),
        b'P' => contents::print_position(rt, field(first)),
        b'I' => contents::print_image(rt, field(first)),
        b'C' => contents::print_numbers(rt, field(first), field(second)),
        b'Z' => contents::print_patched(rt, field(first), field(second), field(third)),
        b'L' => children::print_lookups(rt, field(first), second),
        b'M' => children::print_patched(rt, field(first), field(second), third),
        b'E' => children::print_either(rt, field(first), field(second), field(third)),
        b'F' => cursors::print_walk(rt, field(first)),
        b'N' => cursors::print_next(rt, field(first), field(second)),
        b'H' => headers::print_header(rt, field(first)),
        b's' => headers::print_stamp(rt, field(first)),
        b'D' => values::print_value(rt, field(first), field(second)),
        b'R' => messages::print_message(rt, field(first)),
        b'Q' => messages::print_patched(rt, field(first), field(second)),
        b'S' => streams::print_steps(rt, field(first)),
        b'h' => writers::print_header(rt, field(first), second),
        b'w' => writers::print_message(rt, field(first), second),
        b'W' => writers::print_zeros(rt, field(first), second),
        b't' => vector_writers::print_transform(rt, field(first), second),
        b'p' => vector_writers::print_position(rt, field(first), second),
        b'i' => vector_writers::print_image(rt, field(first), second),
        b'b' => vector_writers::print_bind(rt, field(first), second),
        b'n' => vector_writers::print_named(rt, field(first), second),
        b'm' => vector_writers::print_many(rt, field(first), second),
        _ => Ok(()),
    }?;
    vector_records::end_line(rt)
}

fn main(rt: HostRuntime) -> io::Result<()> {
    let mut buffer: [u8; LONG_ROOM] = vector_records::filled(0);
    let n = vector_records::read_full(&mut rt.stdin(), &mut buffer)?;
    for record in Records::new(&buffer[..n]) {
        print_answer(&rt, record)?;
    }
    Ok(())
}
