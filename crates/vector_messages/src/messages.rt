// What the reader of messages answers, in both layouts:
//
//   R stream            its number and step, the message's fields, the places of its sections and its mark; the type, the device name,
//                       the further bytes and the metadata; the CRC of the content
//   Q length, patches   for a stream of so many zeros, patched: the number and the step, the places of the content and the metadata, the
//                       mark
use fields::number::Number;
use message::{Answer, Layout};
use std::io;
use vector_records::{ROOM, print_bytes, print_crc, print_mark, print_number};

fn print_front(rt: &impl Print, answer: Answer) -> io::Result<()> {
    print_number(rt, answer.number as u64)?;
    print_number(rt, answer.step as u64)
}

fn print_fields(rt: &impl Print, answer: Answer) -> io::Result<()> {
    print_number(rt, answer.version as u64)?;
    print_number(rt, answer.type_len as u64)?;
    print_number(rt, answer.name_len as u64)?;
    print_number(rt, answer.time_stamp)?;
    print_number(rt, answer.id as u64)?;
    print_number(rt, answer.further_at as u64)?;
    print_number(rt, answer.further_len as u64)
}

fn print_places(rt: &impl Print, answer: Answer) -> io::Result<()> {
    print_number(rt, answer.content_at as u64)?;
    print_number(rt, answer.content_len as u64)?;
    print_number(rt, answer.metadata_at as u64)?;
    print_number(rt, answer.metadata_len as u64)?;
    print_mark(rt, answer.clean)
}

fn print_parts(rt: &impl Print, stream: &[u8], answer: Answer) -> io::Result<()> {
    print_bytes(rt, message::type_text(stream, answer))?;
    print_bytes(rt, message::device_name(stream, answer))?;
    print_bytes(rt, message::further(stream, answer))?;
    print_bytes(rt, message::metadata(stream, answer))?;
    print_crc(rt, crc64::crc64(message::content(stream, answer)))
}

fn print_read(rt: &impl Print, layout: Layout, stream: &[u8]) -> io::Result<()> {
    let answer = message::read(layout, stream);
    print_front(rt, answer)?;
    print_fields(rt, answer)?;
    print_places(rt, answer)?;
    print_parts(rt, stream, answer)
}

pub fn print_message(rt: &impl Print, stream: &[u8]) -> io::Result<()> {
    for layout in [Layout::New, Layout::Old] {
        print_read(rt, layout, stream)?;
    }
    Ok(())
}

fn print_sections(rt: &impl Print, layout: Layout, stream: &[u8]) -> io::Result<()> {
    let answer = message::read(layout, stream);
    print_front(rt, answer)?;
    print_places(rt, answer)
}

#[inline(never)]
pub fn print_patched(rt: &impl Print, length: &[u8], patches: &[u8]) -> io::Result<()> {
    let mut zeros: [u8; ROOM] = vector_records::filled(0);
    vector_records::patch(patches, &mut zeros);
    let stream = fields::slice::first(&zeros, u32::read(length, 0) as usize);
    for layout in [Layout::New, Layout::Old] {
        print_sections(rt, layout, stream)?;
    }
    Ok(())
}
