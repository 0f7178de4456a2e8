// Runs scripts of calls, each on a fresh panel. Standard input is a run of records: a script's length in four bytes, a clock in eight, and
// the script's bytes (docs/SCRIPTS.md). For each it prints a line with its number, one for each call with the call's place and answer,
// and one for each tile added with the answer to a look at it after the script, with that clock. A record that the input's end cuts short
// ends the run.
#![tactic(auto)]

ghost use Rattle.std.specs.Prelude.{◌≡◌, ◌+◌, length};
ghost use Rattle.fields.specs.Numbers.{be_at};

use fields::number::Number;
use replay::{Answered, CallAnswer};
use std::io;
use vector_records::{Hex, ROOM};

// ---- answers

fn shown(answered: &Answered) -> Hex<'_> {
    Hex(fields::slice::first(&answered.value.bytes, answered.value.len))
}

fn print_answer(rt: &impl Print, answered: Answered) -> io::Result<()> {
    match answered.answer {
        CallAnswer::Accepted => println!(rt; " accepted"),
        CallAnswer::Added(tile) => println!(rt; " added {tile}"),
        CallAnswer::Empty => println!(rt; " empty"),
        CallAnswer::Green(age) => println!(rt; " green {age} {}", shown(&answered)),
        CallAnswer::Grey(age) => println!(rt; " grey {age} {}", shown(&answered)),
        CallAnswer::Refused(number) => println!(rt; " refused {number}"),
    }
}

// ---- scripts

// A line for each call; gives how many tiles were added. A call takes at least a byte.
fn print_calls(rt: &impl Print, script: &[u8]) -> io::Result<usize> {
    let mut tiles = 0;
    for place in 0..script.len() {
        let Some(answered) = replay::answer_at(script, place) else {
            break;
        };
        print!(rt; "{place}")?;
        print_answer(rt, answered)?;
        tiles += usize::from(matches!(answered.answer, CallAnswer::Added(_)));
    }
    Ok(tiles)
}

fn print_script(rt: &impl Print, number: usize, record: Record<'_>) -> io::Result<()> {
    println!(rt; "script {number}")?;
    let tiles = print_calls(rt, record.script)?;
    for tile in 0..tiles {
        print!(rt; "tile {tile}")?;
        print_answer(rt, replay::look_after(record.script, tile, record.clock))?;
    }
    Ok(())
}

// ---- records

// Where the script of a record begins.
const SCRIPT_AT: usize = 12;

// Where the record at the front ends.
fn end(records: &[u8]) -> usize
    ensures { result ≡ 12 + be_at 4 0 records.now }
{
    SCRIPT_AT + u32::read(records, 0) as usize
}

// A script, and the clock for the looks after it.
#[derive(Clone, Copy)]
struct Record<'a> {
    clock: u64,
    script: &'a [u8],
}

// The records of a run, from the front on.
#[derive(Clone, Copy)]
struct Records<'a> {
    left: &'a [u8],
}

impl<'a> Iterator for Records<'a> {
    ghost use Rattle.std.specs.Iterator.{at_most};

    type Item = Record<'a>;

    ghost remaining = { λ records. at_most (length records.left.now) };

    fn next(&mut self) -> Option<Record<'a>> {
        let to = end(self.left);
        if self.left.len() < to {
            return None;
        }
        let record = Record {
            clock: u64::read(self.left, 4),
            script: &self.left[SCRIPT_AT..to],
        };
        self.left = &self.left[to..];
        Some(record)
    }
}

fn print_scripts(rt: &impl Print, input: &[u8]) -> io::Result<()> {
    let records = Records { left: input };
    for (number, record) in records.enumerate() {
        print_script(rt, number, record)?;
    }
    Ok(())
}

fn main(rt: HostRuntime) -> io::Result<()> {
    let mut buffer: [u8; ROOM] = vector_records::filled(0);
    let n = vector_records::read_full(&mut rt.stdin(), &mut buffer)?;
    print_scripts(&rt, &buffer[..n])
}
