// Pushes streams to feeds, fragment after fragment. Standard input is a run of records, each after its length in two bytes: a byte that names
// the feed's layout, 1 the old and any other the new; two bytes with the length of the buffer that is lent at the opening; a byte that all
// buffers are filled with; and the pushes. A push is two bytes with the length of the buffer that is lent to it, the fragment's length in two
// bytes, and the fragment. For each record it prints a line with its number, one with the answer to the opening, one for each push, and one with
// the opening's buffer afterwards. What a push has not taken of its fragment is pushed again, until all is taken or nothing is. A record that the
// input's end cuts short ends the run.
#![tactic(auto)]

ghost use Rattle.std.specs.Prelude.{◌≡◌, IfOk, length};
ghost use Rattle.feed.specs.Feed.{feed_of, taken_of};
ghost use Rattle.feed.specs.Push.{push_of, buffer_of};

use feed::{Feed, Pushed};
use fields::fault::Fault;
use fields::number::Number;
use message::Answer;
use std::io;
use vector_records::{Hex, ROOM, Records};

// ---- answers

// The fourteen numbers of an answer.
fn print_read(rt: &impl Print, answer: Answer) -> io::Result<()> {
    print!(rt; " read {} {}", answer.number, answer.step)?;
    print!(rt;
        " {} {} {}",
        answer.version, answer.type_len, answer.name_len
    )?;
    print!(rt; " {} {}", answer.time_stamp, answer.id)?;
    print!(rt; " {} {}", answer.further_at, answer.further_len)?;
    print!(rt; " {} {}", answer.content_at, answer.content_len)?;
    print!(rt; " {} {}", answer.metadata_at, answer.metadata_len)?;
    vector_records::print_mark(rt, answer.clean)?;
    println!(rt)
}

fn print_answer(rt: &impl Print, push: Result<Pushed, Fault>) -> io::Result<()> {
    match push {
        Ok(pushed) => match pushed.read {
            None => println!(rt; " nothing"),
            Some(answer) => print_read(rt, answer),
        },
        Err(fault) => println!(rt; " refused {}", fault.number()),
    }
}

// How many bytes a push took.
fn taken(push: Result<Pushed, Fault>) -> usize
    ensures { result ≡ taken_of push }
{
    match push {
        Ok(pushed) => pushed.taken,
        Err(_) => 0,
    }
}

// The bytes taken, the bytes kept, and the answer.
fn print_pushed(rt: &impl Print, push: Result<Pushed, Fault>, kept: usize) -> io::Result<()> {
    print!(rt; "{} {kept}", taken(push))?;
    print_answer(rt, push)
}

// ---- pushes

// Pushes a fragment, and prints what that gives. Gives how many bytes were taken.
fn push(rt: &impl Print, feed: &mut Feed, fragment: &[u8], buffer: &mut [u8]) -> io::Result<usize>
    ensures taken { IfOk result (λ taken. taken ≡ (push_of (feed_of feed.old) fragment.now buffer.old).taken) }
    ensures feed { feed_of feed.new ≡ (push_of (feed_of feed.old) fragment.now buffer.old).feed }
    ensures bytes { buffer.new ≡ buffer_of (feed_of feed.old) fragment.now buffer.old }
{
    let push = feed.push(fragment, buffer);
    print_pushed(rt, push, feed.kept_len())?;
    Ok(taken(push))
}

// Pushes a fragment, and what is not taken of it again.
fn push_whole(
    rt: &impl Print,
    feed: &mut Feed,
    fragment: &[u8],
    buffer: &mut [u8],
) -> io::Result<()> {
    // It goes on by what was taken, and counts no index.
    let mut left = fragment;
    let mut taken = push(rt, &mut *feed, left, &mut *buffer)?;
    while 0 < taken && taken < left.len() {
        left = fields::slice::rest(left, taken);
        taken = push(rt, &mut *feed, left, &mut *buffer)?;
    }
    Ok(())
}

// The pushes of a record, from the front on: the length of the buffer that is lent, and the fragment.
#[derive(Clone, Copy)]
struct Pushes<'a> {
    left: &'a [u8],
}

impl<'a> Iterator for Pushes<'a> {
    ghost use Rattle.std.specs.Iterator.{at_most};

    type Item = (usize, &'a [u8]);

    ghost remaining = { λ pushes. at_most (length pushes.left.now) };

    fn next(&mut self) -> Option<(usize, &'a [u8])> {
        if self.left.len() < 4 {
            return None;
        }
        let room = usize::from(u16::read(self.left, 0));
        let fragment = vector_records::field(&self.left[2..]);
        self.left = vector_records::after_field(&self.left[2..]);
        Some((room, fragment))
    }
}

fn print_pushes(rt: &impl Print, opened: Feed, pushes: &[u8], lent: &mut [u8]) -> io::Result<()> {
    let mut feed = opened;
    for (room, fragment) in (Pushes { left: pushes }) {
        // Two bytes never say more than `lent` has.
        if lent.len() < room {
            return Ok(());
        }
        push_whole(rt, &mut feed, fragment, &mut lent[..room])?;
    }
    Ok(())
}

// ---- records

fn print_opened(
    rt: &impl Print,
    feed: Feed,
    room: usize,
    pushes: &[u8],
    lent: &mut [u8],
) -> io::Result<()> {
    println!(rt; "opened")?;
    print_pushes(rt, feed, pushes, &mut *lent)?;
    println!(rt; "buffer {}", Hex(fields::slice::first(lent, room)))
}

fn print_record(rt: &impl Print, number: usize, record: &[u8]) -> io::Result<()> {
    println!(rt; "feed {number}")?;
    let layout = message::layout_of(u64::from(u8::read(record, 0)));
    let room = usize::from(u16::read(record, 1));
    // The buffers that are lent for a record are the front of this.
    let mut lent: [u8; 65536] = vector_records::filled(u8::read(record, 3));
    match feed::open_feed(layout, fields::slice::first(&lent, room)) {
        Ok(feed) => print_opened(rt, feed, room, fields::slice::rest(record, 4), &mut lent),
        Err(fault) => println!(rt; "refused {}", fault.number()),
    }
}

fn print_records(rt: &impl Print, input: &[u8]) -> io::Result<()> {
    for (number, record) in Records::new(input).enumerate() {
        print_record(rt, number, record)?;
    }
    Ok(())
}

fn main(rt: HostRuntime) -> io::Result<()> {
    let mut buffer: [u8; ROOM] = vector_records::filled(0);
    let n = vector_records::read_full(&mut rt.stdin(), &mut buffer)?;
    print_records(&rt, &buffer[..n])
}
