// What the readers of contents answer:
//
//   T content                 a TRANSFORM's number, and what its reader gives: number, columns, translation
//   P content                 a POSITION's number, and what its reader gives: number, count, seven words
//   I content                 an IMAGE's number, and what its reader gives: number, header; its pixels
//   C type, content           the number and the mark of the content in a message, its number in a child, and its number and mark as that
//                             of a BIND
//   Z type, length, patches   the number and the mark of a content of so many zeros, patched
use fields::fault::{Fault, number_of};
use fields::number::Number;
use image::ImageHeader;
use pose::{Position, Transform};
use std::io;
use vector_records::{ROOM, print_bytes, print_mark, print_number, print_word};

fn print_words(rt: &impl Print, words: &[u32]) -> io::Result<()> {
    for &word in words {
        print_word(rt, word)?;
    }
    Ok(())
}

fn print_sizes(rt: &impl Print, [i, j, k]: [u16; 3]) -> io::Result<()> {
    print!(rt; " {i} {j} {k}")
}

fn print_columns(rt: &impl Print, transform: Transform) -> io::Result<()> {
    print_words(rt, &transform.column1)?;
    print_words(rt, &transform.column2)?;
    print_words(rt, &transform.column3)?;
    print_words(rt, &transform.translation)
}

pub fn print_transform(rt: &impl Print, content: &[u8]) -> io::Result<()> {
    print_number(rt, number_of(pose::transform_fault(content)) as u64)?;
    let read = pose::read_transform(content);
    print_number(rt, number_of(read) as u64)?;
    print_columns(rt, read.unwrap_or_default())
}

pub fn print_position(rt: &impl Print, content: &[u8]) -> io::Result<()> {
    print_number(rt, number_of(pose::position_fault(content)) as u64)?;
    let read = pose::read_position(content);
    print_number(rt, number_of(read) as u64)?;
    let Position { count, words } = read.unwrap_or_default();
    print_number(rt, count as u64)?;
    print_words(rt, &words)
}

fn print_header(rt: &impl Print, header: ImageHeader) -> io::Result<()> {
    print!(rt; " {} {}", header.version, header.components)?;
    print!(rt;
        " {} {} {}",
        header.scalar_type, header.endian, header.coordinate
    )?;
    print_sizes(rt, header.size)?;
    print_words(rt, &header.axis_i)?;
    print_words(rt, &header.axis_j)?;
    print_words(rt, &header.axis_k)?;
    print_words(rt, &header.centre)?;
    print_sizes(rt, header.offset)?;
    print_sizes(rt, header.sub_size)
}

pub fn print_image(rt: &impl Print, content: &[u8]) -> io::Result<()> {
    print_number(rt, number_of(image::image_fault(content)) as u64)?;
    let read = image::read_image(content);
    print_number(rt, number_of(read) as u64)?;
    print_header(rt, read.unwrap_or_default())?;
    print_bytes(rt, image::pixels(content))
}

fn print_checked(rt: &impl Print, checked: Result<bool, Fault>) -> io::Result<()> {
    print_number(rt, fields::fault::number_of(checked) as u64)?;
    print_mark(rt, checked.unwrap_or(false))
}

pub fn print_numbers(rt: &impl Print, type_text: &[u8], content: &[u8]) -> io::Result<()> {
    print_checked(rt, content::content_check(type_text, content))?;
    print_number(
        rt,
        fields::fault::number_of(content::nested_fault(type_text, content)) as u64,
    )?;
    print_checked(rt, content::bind_check(content))
}

#[inline(never)]
pub fn print_patched(
    rt: &impl Print,
    type_text: &[u8],
    length: &[u8],
    patches: &[u8],
) -> io::Result<()> {
    let mut zeros: [u8; ROOM] = vector_records::filled(0);
    vector_records::patch(patches, &mut zeros);
    let content = fields::slice::first(&zeros, u32::read(length, 0) as usize);
    print_checked(rt, content::content_check(type_text, content))
}
