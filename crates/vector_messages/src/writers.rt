// What the writers of headers and messages answer, the number and the bytes written, and the whole buffer afterwards. out is the buffer's
// length, four bytes, and the byte that fills it; the bytes of fixed are fields one after another. A message is written in both layouts, each
// time into a fresh buffer:
//
//   h out, fixed, type, name   a header; fixed is the version, the time stamp, the body size and the CRC
//   w out, fixed, type, name, further, content, metadata
//                              a message; fixed is the version, the time stamp and the id
//   W out, fixed, type, name, further length, content length, metadata length, patches
//                              a message whose sections are so many zeros each, the metadata patched
//
// For W, whose buffer is long, the CRC of the buffer stands for it.
use fields::fault::Fault;
use fields::number::Number;
use header::HeaderFields;
use message::{Layout, MessageFields};
use std::io;
use vector_records::{ROOM, after_field, field, print_bytes, print_crc, print_written, room};

fn header_fields(s: &[u8]) -> HeaderFields {
    HeaderFields {
        version: u16::read(s, 0),
        time_stamp: u64::read(s, 2),
        body_size: u64::read(s, 10) as usize,
        crc: u64::read(s, 18),
    }
}

fn write_header(given: &[u8], out: &mut [u8]) -> Result<usize, Fault> {
    let texts = after_field(given);
    header::write_header(
        header_fields(field(given)),
        field(texts),
        field(after_field(texts)),
        out,
    )
}

// The message that a record gives, with these sections.
fn message_of<'a>(
    given: &'a [u8],
    further: &'a [u8],
    content: &'a [u8],
    metadata: &'a [u8],
) -> MessageFields<'a> {
    let fixed = field(given);
    let type_text = after_field(given);
    MessageFields {
        version: u16::read(fixed, 0),
        time_stamp: u64::read(fixed, 2),
        id: u32::read(fixed, 10),
        type_text: field(type_text),
        device_name: field(after_field(type_text)),
        further,
        content,
        metadata,
    }
}

// The fields after fixed, type and name.
fn after_texts(given: &[u8]) -> &[u8] {
    after_field(after_field(after_field(given)))
}

fn write_message(layout: Layout, given: &[u8], out: &mut [u8]) -> Result<usize, Fault> {
    let further = after_texts(given);
    let content = after_field(further);
    let message = message_of(
        given,
        field(further),
        field(content),
        field(after_field(content)),
    );
    message::write(layout, message, out)
}

// As many zeros as the field at the front says.
fn zeros_given<'a>(zeros: &'a [u8], given: &[u8]) -> &'a [u8] {
    fields::slice::first(zeros, u32::read(field(given), 0) as usize)
}

// The sections are zeros, the metadata patched.
#[inline(never)]
fn write_zeros(layout: Layout, given: &[u8], out: &mut [u8]) -> Result<usize, Fault> {
    let further = after_texts(given);
    let content = after_field(further);
    let metadata = after_field(content);
    let zeros: [u8; ROOM] = vector_records::filled(0);
    let mut patched: [u8; ROOM] = vector_records::filled(0);
    vector_records::patch(field(after_field(metadata)), &mut patched);
    let message = message_of(
        given,
        zeros_given(&zeros, further),
        zeros_given(&zeros, content),
        zeros_given(&patched, metadata),
    );
    message::write(layout, message, out)
}

pub fn print_header(rt: &impl Print, out: &[u8], given: &[u8]) -> io::Result<()> {
    let mut buffer = [u8::read(out, 4); 4096];
    let n = room(out, &buffer);
    let stream = &mut buffer[..n];
    print_written(rt, write_header(given, &mut *stream))?;
    print_bytes(rt, stream)
}

pub fn print_message(rt: &impl Print, out: &[u8], given: &[u8]) -> io::Result<()> {
    for layout in [Layout::New, Layout::Old] {
        let mut buffer = [u8::read(out, 4); 4096];
        let n = room(out, &buffer);
        let lent = &mut buffer[..n];
        print_written(rt, write_message(layout, given, &mut *lent))?;
        print_bytes(rt, lent)?;
    }
    Ok(())
}

#[inline(never)]
pub fn print_zeros(rt: &impl Print, out: &[u8], given: &[u8]) -> io::Result<()> {
    for layout in [Layout::New, Layout::Old] {
        let mut buffer: [u8; ROOM] = vector_records::filled(u8::read(out, 4));
        let n = room(out, &buffer);
        let lent = &mut buffer[..n];
        print_written(rt, write_zeros(layout, given, &mut *lent))?;
        print_crc(rt, crc64::crc64(lent))?;
    }
    Ok(())
}
