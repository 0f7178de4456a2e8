// What a walk through a BIND's children answers:
//
//   F content           each cursor from the first child on while a child is left; the one past them, and the next of that
//   N content, cursor   the next of any cursor; the parts of the cursor itself
//
// A cursor's line is its nine fields in the order of `bind_cursor::Cursor`; then its parts: the type, the name and the data. One that is
// given is its nine fields in eight bytes each. Of the number and the mark the last byte counts.
use bind_cursor::Cursor;
use fields::number::Number;
use std::io;
use vector_records::{Hex, print_mark};

fn print_fields(rt: &impl Print, cursor: Cursor) -> io::Result<()> {
    print!(rt; " {} {}", cursor.number, cursor.left)?;
    print!(rt; " {} {}", cursor.type_at, cursor.type_len)?;
    print!(rt; " {} {}", cursor.name_at, cursor.name_len)?;
    print!(rt; " {} {}", cursor.at, cursor.len)?;
    print_mark(rt, cursor.clean)
}

fn print_parts(rt: &impl Print, content: &[u8], cursor: Cursor) -> io::Result<()> {
    let type_text = Hex(bind_cursor::type_text(content, cursor));
    let name = Hex(bind_cursor::name(content, cursor));
    let data = Hex(bind_cursor::data(content, cursor));
    print!(rt; " {type_text} {name} {data}")
}

fn print_cursor(rt: &impl Print, content: &[u8], cursor: Cursor) -> io::Result<()> {
    print_fields(rt, cursor)?;
    print_parts(rt, content, cursor)
}

// A cursor holds its own end, so the loop goes by it: `Cursor` is no iterator, since it is also made of any bytes.
pub fn print_walk(rt: &impl Print, content: &[u8]) -> io::Result<()> {
    let mut cursor = bind_cursor::first_child(content);
    while 0 < cursor.left {
        print_cursor(rt, content, cursor)?;
        cursor = bind_cursor::next_child(content, cursor);
    }
    print_cursor(rt, content, cursor)?;
    print_cursor(rt, content, bind_cursor::next_child(content, cursor))
}

fn cursor_of(given: &[u8]) -> Cursor {
    Cursor {
        number: u8::read(given, 7),
        left: u64::read(given, 8) as usize,
        type_at: u64::read(given, 16) as usize,
        type_len: u64::read(given, 24) as usize,
        name_at: u64::read(given, 32) as usize,
        name_len: u64::read(given, 40) as usize,
        at: u64::read(given, 48) as usize,
        len: u64::read(given, 56) as usize,
        clean: u8::read(given, 71) != 0,
    }
}

pub fn print_next(rt: &impl Print, content: &[u8], given: &[u8]) -> io::Result<()> {
    let cursor = cursor_of(given);
    print_fields(rt, bind_cursor::next_child(content, cursor))?;
    print_parts(rt, content, cursor)
}
