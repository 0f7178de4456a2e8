// The header of a message (rule 3.1): 58 bytes, judged, read and written by themselves; and the two parts of a time stamp.
#![tactic(auto)]

pub mod time_stamp;

ghost use Rattle.std.specs.Prelude.{◌≡◌};
ghost use Rattle.fields.specs.Checks.{or_else};
ghost use Rattle.fields.specs.Answer.{written_of, room_fault};
ghost use Rattle.fields.specs.Fault.{number_of};
ghost use Rattle.fields.specs.Layout.{stores};
ghost use Rattle.header.specs.Header.{header_size, header_widths};
ghost use Rattle.header.specs.HeaderReader.{header_of, limit_fault, handed_with, refused, header_read, type_in, name_in};
ghost use Rattle.header.specs.HeaderWriter.{names_fault, given, given_fields, HeaderPromise};

use fields::fault::Fault;
use fields::number::Number;
use fields::room_fault;
use fields::slice::part;
use fields::store::{array, put};
use fields::text::{is_text, read_field};

// The size of a header (rule 3.1), that of its two text fields, and the largest BODY_SIZE (rule 3.3).
pub const HEADER_SIZE: usize = 58;

pub const TYPE_SIZE: usize = 12;

pub const NAME_SIZE: usize = 20;

pub const BODY_LIMIT: usize = 16777216;

// What the reader of a header hands out: the number (rule 5.1), 0 where accepted; the fields, with the lengths of the two texts; whether
// both texts are clean (rule 13.2). Where refused, all but the number is 0, and `clean` is false.
#[derive(Clone, Copy)]
pub struct HeaderRead {
    pub number: u8,
    pub version: u16,
    pub type_len: usize,
    pub name_len: usize,
    pub time_stamp: u64,
    pub body_size: usize,
    pub crc: u64,
    pub clean: bool,
}

// The fields of a header besides its two texts.
#[derive(Clone, Copy)]
pub struct HeaderFields {
    pub version: u16,
    pub time_stamp: u64,
    pub body_size: usize,
    pub crc: u64,
}

// The text of TYPE that this answer to the stream names: none where it is a refusal.
pub fn type_text(stream: &[u8], header: HeaderRead) -> &[u8]
    ensures { result.now ≡ type_in stream.now header }
{
    part(stream, 2, header.type_len)
}

// The same of DEVICE_NAME.
pub fn device_name(stream: &[u8], header: HeaderRead) -> &[u8]
    ensures { result.now ≡ name_in stream.now header }
{
    part(stream, 14, header.name_len)
}

// BODY_SIZE.
fn size_at(stream: &[u8]) -> usize
    ensures { result ≡ (header_of stream.now).body_size }
{
    u64::read(stream, 42) as usize
}

// 3 for a BODY_SIZE that breaks rule 3.3.
#[tactic(auto, unfolding(crate::specs::HeaderReader::limit_fault))]
fn limit_fault(size: usize) -> Result<(), Fault>
    ensures { number_of result ≡ limit_fault size }
{
    if size <= BODY_LIMIT {
        Ok(())
    } else {
        Err(Fault::BodySize)
    }
}

// The answer of a refusal: its number, and all else 0.
fn refused(number: u8) -> HeaderRead
    ensures { result ≡ refused number }
{
    HeaderRead {
        number,
        version: 0,
        type_len: 0,
        name_len: 0,
        time_stamp: 0,
        body_size: 0,
        crc: 0,
        clean: false,
    }
}

// The answer for an accepted header, with the lengths of its texts and the mark.
fn handed(stream: &[u8], type_len: usize, name_len: usize, clean: bool) -> HeaderRead
    ensures { result ≡ handed_with (header_of stream.now) type_len name_len clean }
{
    HeaderRead {
        number: 0,
        version: u16::read(stream, 0),
        type_len,
        name_len,
        time_stamp: u64::read(stream, 34),
        body_size: size_at(stream),
        crc: u64::read(stream, 50),
        clean,
    }
}

// Judges the front of a stream as a header, and hands out its fields. Each text field is read once.
pub fn read_header(stream: &[u8]) -> HeaderRead
    ensures { result ≡ header_read stream.now }
{
    if stream.len() < HEADER_SIZE {
        return refused(1);
    }
    let Some(type_field) = read_field(part(stream, 2, TYPE_SIZE)) else {
        return refused(2);
    };
    let Some(name_field) = read_field(part(stream, 14, NAME_SIZE)) else {
        return refused(2);
    };
    if let Err(fault) = limit_fault(size_at(stream)) {
        return refused(fault.number());
    }
    let clean = type_field.clean & name_field.clean;
    handed(stream, type_field.len, name_field.len, clean)
}

// 2 where these are no names for a writer (rule 5.8): texts of at most 12 bytes for TYPE and 20 for DEVICE_NAME.
#[tactic(auto, unfolding(crate::specs::HeaderWriter::names_fault))]
pub fn names_fault(type_text: &[u8], device_name: &[u8]) -> Result<(), Fault>
    ensures { number_of result ≡ names_fault type_text.now device_name.now }
{
    if type_text.len() <= TYPE_SIZE
        && device_name.len() <= NAME_SIZE
        && is_text(type_text)
        && is_text(device_name)
    {
        Ok(())
    } else {
        Err(Fault::Names)
    }
}

// 2, 3, then 20 for a buffer of this length.
fn write_fault(
    header: HeaderFields,
    type_text: &[u8],
    device_name: &[u8],
    room: usize,
) -> Result<(), Fault>
    ensures { number_of result ≡ or_else (names_fault type_text.now device_name.now) (or_else (limit_fault header.body_size) (room_fault header_size room)) }
{
    names_fault(type_text, device_name)?;
    limit_fault(header.body_size)?;
    room_fault(HEADER_SIZE, room)
}

// Writes the 58 bytes of a header at the front.
fn put_header(header: HeaderFields, type_text: &[u8], device_name: &[u8], out: &mut [u8])
    ensures { out.new
        ≡ stores out.old 0 (given_fields header type_text.now device_name.now) header_widths }
{
    header.version.put(0, out);
    put(&array::<TYPE_SIZE>(type_text), 2, out);
    put(&array::<NAME_SIZE>(device_name), 14, out);
    header.time_stamp.put(34, out);
    (header.body_size as u64).put(42, out);
    header.crc.put(50, out);
}

// Writes a header at the front of the buffer, or nothing where it refuses.
pub fn write_header(
    header: HeaderFields,
    type_text: &[u8],
    device_name: &[u8],
    out: &mut [u8],
) -> Result<usize, Fault>
    ensures { HeaderPromise (given header type_text.now device_name.now) out.old (written_of result) out.new }
{
    write_fault(header, type_text, device_name, out.len())?;
    put_header(header, type_text, device_name, out);
    Ok(HEADER_SIZE)
}
