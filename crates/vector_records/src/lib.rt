// What the programs read and write: an input, the records of one, and the words of a line. A record is a length of
// two bytes, big endian, and then that many bytes; so is each field of a record.
#![tactic(auto)]

ghost use Rattle.std.specs.Prelude.{◌≡◌, ◌+◌, ◌≤◌, ◌<◌, IfOk, length, take, min, replicate};
ghost use Rattle.std.specs.Io.KnownBytes.{Consumes, IsAtEnd};
ghost use Rattle.fields.specs.Numbers.{be_at};
ghost use Rattle.vector_records.specs.Records.{field_of, after_field, is_whole, patched};

use fields::fault::{Fault, number_of};
use fields::number::Number;
use std::io::Read;
use std::{fmt, io};

// Where the field at the front ends.
fn end(s: &[u8]) -> usize
    ensures { result ≡ 2 + be_at 2 0 s.now }
{
    2 + usize::from(u16::read(s, 0))
}

// Are all bytes of the field at the front there?
pub fn is_whole(s: &[u8]) -> bool
    ensures { result ≡ is_whole s.now }
{
    end(s) <= s.len()
}

// The bytes of the field at the front, or as many of them as there are.
pub fn field(s: &[u8]) -> &[u8]
    ensures { result.now ≡ field_of s.now }
{
    fields::slice::part(s, 2, usize::from(u16::read(s, 0)))
}

// What follows the field at the front.
pub fn after_field(s: &[u8]) -> &[u8]
    ensures { result.now ≡ after_field s.now }
{
    fields::slice::rest(s, end(s))
}

// The fields of a run, from the front on. The run ends before a field that is cut short.
#[derive(Clone, Copy)]
pub struct Records<'a> {
    left: &'a [u8],
}

impl<'a> Records<'a> {
    pub fn new(s: &'a [u8]) -> Records<'a>
        ensures { result.left.now ≡ s.now }
    {
        Records { left: s }
    }
}

impl<'a> Iterator for Records<'a> {
    ghost use Rattle.std.specs.Iterator.{at_most};
    ghost use Rattle.vector_records.specs.Records.{GivesField};

    type Item = &'a [u8];

    ghost next_gives = { λ old given new. GivesField old.left.now given new.left.now };

    ghost remaining = { λ records. at_most (length records.left.now) };

    fn next(&mut self) -> Option<&'a [u8]> {
        if !is_whole(self.left) {
            return None;
        }
        let record = field(self.left);
        self.left = after_field(self.left);
        Some(record)
    }
}

// Room for a program's input, or for the largest BIND whose children hold nothing, of 1,376,218 bytes.
pub const ROOM: usize = 1376256;

// Room for a longer input. `vectors` has it and four more buffers on its stack, which is 8 MiB. So that one call's buffers do not stand on it
// beside another's, no function with such a buffer is compiled into its caller.
pub const LONG_ROOM: usize = 2097152;

// A buffer of N bytes, all the same. The second promise is what lending the array as a slice needs.
pub fn filled<const N: usize>(fill: u8) -> [u8; N]
    ensures bytes { result ≡ replicate N fill }
    ensures size { N ≡ length result }
{
    [fill; N]
}

// How much of a buffer a record asks for, in the four bytes at the front: all of it where they ask for more.
pub fn room(wanted: &[u8], buffer: &[u8]) -> usize
    ensures in_bounds { result ≤ length buffer.now }
    ensures value { result ≡ min (be_at 4 0 wanted.now) (length buffer.now) }
{
    let n = u32::read(wanted, 0) as usize;
    n.min(buffer.len())
}

// Stores two bytes at each of some places: patches are runs of six bytes, the place in four and what is stored in two.
pub fn patch(patches: &[u8], out: &mut [u8])
    ensures { out.new ≡ patched patches.now out.old }
{
    for patch in patches.chunks_exact(6) {
        fields::store::put(&patch[4..], u32::read(patch, 0) as usize, &mut *out);
    }
}

// Reads until the buffer is full or the input ends, and gives how many bytes stand at the buffer's front: the input's next bytes, and fewer than
// the buffer holds only at its end. Only a read that fails is an error.
pub fn read_full<R: Read>(reader: &mut R, buffer: &mut [u8]) -> io::Result<usize>
    ensures in_bounds { IfOk result (λ n. n ≤ length buffer.new) }
    ensures bytes { IfOk result (λ n. Consumes (R.remaining reader.old) (R.remaining reader.new) (take n buffer.new)) }
    ensures end { IfOk result (λ n. n < length buffer.new → IsAtEnd (R.remaining reader.new)) }
{
    // It goes by what each read gave, and counts no index.
    let mut done = 0;
    while done < buffer.len() {
        let n = reader.read(&mut buffer[done..])?;
        if n == 0 {
            break;
        }
        done += n;
    }
    Ok(done)
}

// The first word of a line: the letter of the record's kind.
pub fn print_kind(rt: &impl Print, kind: u8) -> io::Result<()> {
    rt.write_all(&[kind])
}

// Each further word comes after a space. A number is in decimal digits.
pub fn print_number(rt: &impl Print, n: u64) -> io::Result<()> {
    print!(rt; " {n}")
}

// A word of 32 bits, as 8 hexadecimal digits.
pub fn print_word(rt: &impl Print, word: u32) -> io::Result<()> {
    print!(rt; " {word:08x}")
}

// A CRC, as 16 hexadecimal digits.
pub fn print_crc(rt: &impl Print, crc: u64) -> io::Result<()> {
    print!(rt; " {crc:016x}")
}

// A mark, 1 where it is true and 0 where it is not.
pub fn print_mark(rt: &impl Print, mark: bool) -> io::Result<()> {
    print_number(rt, u64::from(mark))
}

// The answer of a writer: its number, and how many bytes it wrote.
pub fn print_written(rt: &impl Print, written: Result<usize, Fault>) -> io::Result<()> {
    print!(rt; " {} {}", number_of(written), written.unwrap_or(0))
}

// Bytes as a word: two hexadecimal digits each, or a dash where there are none.
#[derive(Clone, Copy)]
pub struct Hex<'a>(pub &'a [u8]);

impl fmt::Display for Hex<'_> {
    fn fmt<W: fmt::Write>(&self, f: &mut fmt::Formatter<W>) -> fmt::Result {
        if self.0.is_empty() {
            return f.write_str("-");
        }
        for byte in self.0 {
            write!(f, "{byte:02x}")?;
        }
        Ok(())
    }
}

pub fn print_bytes(rt: &impl Print, s: &[u8]) -> io::Result<()> {
    print!(rt; " {}", Hex(s))
}

pub fn end_line(rt: &impl Print) -> io::Result<()> {
    println!(rt)
}
