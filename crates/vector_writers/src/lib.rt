// What a writer of contents answers, its number and the bytes written, and the whole buffer afterwards. out is the buffer's length, four
// bytes, and the byte that fills it:
//
//   t out, words                    a TRANSFORM of twelve words
//   p out, words                    a POSITION
//   i out, header, pixels           an IMAGE; the header's fields in the order of a content
//   b out, types, names, contents   a BIND; each list is its length, one byte, up to 4, and so many fields
//   n out, length                   a BIND of one child, whose name is so many letters A
//   m out, count                    a BIND of so many children that hold nothing
//
// For n and m, whose buffers are long, the CRC of the buffer stands for it.
#![tactic(auto)]

use fields::fault::Fault;
use fields::number::{Number, three};
use image::ImageHeader;
use pose::Transform;
use std::io;
use vector_records::{ROOM, after_field, field, print_bytes, print_crc, print_written, room};

fn write_transform(given: &[u8], out: &mut [u8]) -> Result<usize, Fault> {
    let s = field(given);
    let transform = Transform {
        column1: three(s, 0),
        column2: three(s, 12),
        column3: three(s, 24),
        translation: three(s, 36),
    };
    pose::write_transform(transform, out)
}

// The first so many elements, all where there are fewer.
fn first<T>(all: &[T], n: usize) -> &[T] {
    if n <= all.len() { &all[..n] } else { all }
}

fn write_position(given: &[u8], out: &mut [u8]) -> Result<usize, Fault> {
    let s = field(given);
    let mut all = [0; 12];
    for (word, part) in all.iter_mut().zip(s.chunks_exact(4)) {
        *word = u32::read(part, 0);
    }
    pose::write_position(first(&all, s.len() / 4), out)
}

fn header(s: &[u8]) -> ImageHeader {
    ImageHeader {
        version: u16::read(s, 0),
        components: u8::read(s, 2),
        scalar_type: u8::read(s, 3),
        endian: u8::read(s, 4),
        coordinate: u8::read(s, 5),
        size: three(s, 6),
        axis_i: three(s, 12),
        axis_j: three(s, 24),
        axis_k: three(s, 36),
        centre: three(s, 48),
        offset: three(s, 60),
        sub_size: three(s, 66),
    }
}

fn write_image(given: &[u8], out: &mut [u8]) -> Result<usize, Fault> {
    image::write_image(header(field(given)), field(after_field(given)), out)
}

// The field at a place of a list, whose first byte is its length.
fn item(list: &[u8], i: usize) -> &[u8] {
    let mut left = fields::slice::rest(list, 1);
    for _ in 0..i {
        left = after_field(left);
    }
    field(left)
}

fn write_lists<'a>(
    ts: &'a [u8],
    ns: &'a [u8],
    cs: &'a [u8],
    out: &mut [u8],
) -> Result<usize, Fault> {
    let types = [item(ts, 0), item(ts, 1), item(ts, 2), item(ts, 3)];
    let names = [item(ns, 0), item(ns, 1), item(ns, 2), item(ns, 3)];
    let contents = [item(cs, 0), item(cs, 1), item(cs, 2), item(cs, 3)];
    let t = first(&types, usize::from(u8::read(ts, 0)));
    let n = first(&names, usize::from(u8::read(ns, 0)));
    let c = first(&contents, usize::from(u8::read(cs, 0)));
    bind_writer::write_bind(t, n, c, out)
}

fn write_bind(given: &[u8], out: &mut [u8]) -> Result<usize, Fault> {
    let second = after_field(given);
    write_lists(field(given), field(second), field(after_field(second)), out)
}

#[inline(never)]
fn write_empty(nothing: &[u8], count: usize, out: &mut [u8]) -> Result<usize, Fault> {
    let all = [nothing; 65536];
    bind_writer::write_bind(
        first(&all, count),
        first(&all, count),
        first(&all, count),
        out,
    )
}

// So many children that hold nothing.
fn write_many(given: &[u8], out: &mut [u8]) -> Result<usize, Fault> {
    write_empty(b"", u32::read(field(given), 0) as usize, out)
}

fn write_child<'a>(nothing: &'a [u8], name: &'a [u8], out: &mut [u8]) -> Result<usize, Fault> {
    let names = [name];
    let others = [nothing];
    bind_writer::write_bind(&others, &names, &others, out)
}

// One child, whose name is so many letters.
fn write_named(given: &[u8], out: &mut [u8]) -> Result<usize, Fault> {
    let letters = [b'A'; 131072];
    let name = fields::slice::first(&letters, u32::read(field(given), 0) as usize);
    write_child(b"", name, out)
}

// Writes into a buffer as long as out says; prints what the writer answers, and the buffer.
fn print_short<W: Fn(&[u8], &mut [u8]) -> Result<usize, Fault>>(
    rt: &impl Print,
    out: &[u8],
    given: &[u8],
    write: W,
) -> io::Result<()>
    requires { W.IsAlwaysCallable write }
{
    let mut buffer = [u8::read(out, 4); 4096];
    let n = room(out, &buffer);
    let lent = &mut buffer[..n];
    print_written(rt, write(given, &mut *lent))?;
    print_bytes(rt, lent)
}

pub fn print_transform(rt: &impl Print, out: &[u8], given: &[u8]) -> io::Result<()> {
    print_short(rt, out, given, write_transform)
}

pub fn print_position(rt: &impl Print, out: &[u8], given: &[u8]) -> io::Result<()> {
    print_short(rt, out, given, write_position)
}

pub fn print_image(rt: &impl Print, out: &[u8], given: &[u8]) -> io::Result<()> {
    print_short(rt, out, given, write_image)
}

pub fn print_bind(rt: &impl Print, out: &[u8], given: &[u8]) -> io::Result<()> {
    print_short(rt, out, given, write_bind)
}

// The same with a long buffer, and its CRC.
#[inline(never)]
fn print_long<W: Fn(&[u8], &mut [u8]) -> Result<usize, Fault>>(
    rt: &impl Print,
    out: &[u8],
    given: &[u8],
    write: W,
) -> io::Result<()>
    requires { W.IsAlwaysCallable write }
{
    let mut buffer: [u8; ROOM] = vector_records::filled(u8::read(out, 4));
    let n = room(out, &buffer);
    let lent = &mut buffer[..n];
    print_written(rt, write(given, &mut *lent))?;
    print_crc(rt, crc64::crc64(lent))
}

pub fn print_named(rt: &impl Print, out: &[u8], given: &[u8]) -> io::Result<()> {
    print_long(rt, out, given, write_named)
}

pub fn print_many(rt: &impl Print, out: &[u8], given: &[u8]) -> io::Result<()> {
    print_long(rt, out, given, write_many)
}
