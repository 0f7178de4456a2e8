// Whole messages: the reader of the front of a byte stream, the parts that its answer names, and the writer.
#![tactic(auto)]

mod body;
mod extended;

ghost use Rattle.std.specs.Prelude.{◌≡◌, ◌+◌, ◌≤◌, ◌++◌, length, drop};
ghost use Rattle.fields.specs.Answer.{checked_of, written_of};
ghost use Rattle.fields.specs.Fault.{number_of};
ghost use Rattle.header.specs.Header.{header_size, body_limit};
ghost use Rattle.message.specs.LayoutNumber.{layout_of};
ghost use Rattle.message.specs.MessageReader.{version_fault, contents_fault, contents_checked, body_checked, places_of, Within, refused, accepted, read_of, type_in, name_in, further_in, content_in, metadata_in};
ghost use Rattle.message.specs.MessageWriter.{given_of, fixed_of, given_sections_fault, given_fault, message_bytes, MessageFits, header_given, MessagePromise};

use body::{Places, ReceivedBody};
use fields::fault::Fault;
use header::HEADER_SIZE;

// The two layouts of the extended header (rule 3.6). Whoever reads or writes names one.
#[derive(Clone, Copy)]
pub enum Layout {
    New,
    Old,
}

// The layout that a number stands for where one must: in scripts, and for programs in other languages.
#[tactic(auto, unfolding(crate::specs::LayoutNumber::layout_of))]
pub fn layout_of(number: u64) -> Layout
    ensures { result ≡ layout_of number }
{
    match number {
        1 => Layout::Old,
        _ => Layout::New,
    }
}

// What the reader makes of the front of a stream: the number (rule 5.1), 0 for accepted, and the step (rule 5.3), which is the length of
// the message, but 0 where the number is 1, 2 or 3. Then the message's fields; the places of its parts are relative to the slice that was
// read. All of these are 0 where refused. Last, whether every text in the message is clean (rule 13.2), false where refused.
#[derive(Clone, Copy)]
pub struct Answer {
    pub number: u8,
    pub step: usize,
    pub version: u16,
    pub type_len: usize,
    pub name_len: usize,
    pub time_stamp: u64,
    pub id: u32,
    pub further_at: usize,
    pub further_len: usize,
    pub content_at: usize,
    pub content_len: usize,
    pub metadata_at: usize,
    pub metadata_len: usize,
    pub clean: bool,
}

// A message as the writer is given it: V, TIME_STAMP and MSG_ID, and the parts. The two texts have no zeros behind them, further are the bytes
// of the extended header past its twelve, and the metadata is the bytes of its section.
#[derive(Clone, Copy)]
pub struct MessageFields<'a> {
    pub version: u16,
    pub time_stamp: u64,
    pub id: u32,
    pub type_text: &'a [u8],
    pub device_name: &'a [u8],
    pub further: &'a [u8],
    pub content: &'a [u8],
    pub metadata: &'a [u8],
}

// ---- the reader

// What the reader answers where it refuses: the number and the step.
pub fn refusal(number: u8, step: usize) -> Answer
    ensures { result ≡ refused number step }
{
    Answer {
        number: number,
        step: step,
        version: 0,
        type_len: 0,
        name_len: 0,
        time_stamp: 0,
        id: 0,
        further_at: 0,
        further_len: 0,
        content_at: 0,
        content_len: 0,
        metadata_at: 0,
        metadata_len: 0,
        clean: false,
    }
}

// Check 4.
#[tactic(auto, unfolding(crate::specs::MessageReader::version_fault))]
fn version_fault(version: u16) -> Result<(), Fault>
    ensures { number_of result ≡ version_fault version }
{
    match version {
        1 | 2 => Ok(()),
        _ => Err(Fault::Version),
    }
}

// Check 7, and those of the content, whose mark it gives.
fn contents_check(type_text: &[u8], content: &[u8], metadata: &[u8]) -> Result<bool, Fault>
    ensures { checked_of result ≡ contents_checked type_text.now content.now metadata.now }
{
    metadata::metadata_fault(metadata)?;
    content::content_check(type_text, content)
}

// The same without the mark.
fn contents_fault(type_text: &[u8], content: &[u8], metadata: &[u8]) -> Result<(), Fault>
    ensures { number_of result ≡ contents_fault type_text.now content.now metadata.now }
{
    contents_check(type_text, content, metadata)?;
    Ok(())
}

// Checks 4 to 11, of a message that is there whole and whose sections stand at these places of its body; with its content's mark.
fn body_check(body: ReceivedBody, crc: u64, type_text: &[u8], places: Places) -> Result<bool, Fault>
    requires { places ≡ places_of body.layout body.version body.bytes.now }
    ensures { checked_of result ≡ body_checked body.entry.layout body.entry.version crc type_text.now body.entry.bytes.now }
{
    version_fault(body.version)?;
    if crc64::crc64(body.bytes) != crc {
        return Err(Fault::Crc);
    }
    body.extended_fault(places)?;
    let metadata = fields::slice::part(body.bytes, places.metadata_at, places.metadata_len);
    body.sizes_fault(metadata)?;
    contents_check(
        type_text,
        fields::slice::part(body.bytes, places.content_at, places.content_len),
        metadata,
    )
}

// The answer to an accepted message with this mark, whose sections stand at these places of its body.
fn accept(header: header::HeaderRead, places: Places, clean: bool) -> Answer
    requires { (header.body_size ≤ body_limit) × Within places header.body_size }
    ensures { result ≡ accepted header places clean }
{
    Answer {
        number: 0,
        step: HEADER_SIZE + header.body_size,
        version: header.version,
        type_len: header.type_len,
        name_len: header.name_len,
        time_stamp: header.time_stamp,
        id: places.id,
        further_at: HEADER_SIZE + places.further_at,
        further_len: places.further_len,
        content_at: HEADER_SIZE + places.content_at,
        content_len: places.content_len,
        metadata_at: HEADER_SIZE + places.metadata_at,
        metadata_len: places.metadata_len,
        clean,
    }
}

// Reads the message at the front of a stream, in this layout. What follows it starts at the answer's step.
pub fn read(layout: Layout, stream: &[u8]) -> Answer
    ensures { result ≡ read_of layout stream.now }
{
    let header = header::read_header(stream);
    let number = header.number;
    if number != 0 {
        return refusal(number, 0);
    }
    let size = header.body_size;
    if stream.len() < HEADER_SIZE + size {
        return refusal(1, 0);
    }
    let version = header.version;
    let body = ReceivedBody {
        layout,
        version,
        bytes: fields::slice::part(stream, HEADER_SIZE, size),
    };
    let places = body.sections();
    let checked = body_check(body, header.crc, header::type_text(stream, header), places);
    match checked {
        Ok(clean) => accept(header, places, header.clean & clean),
        Err(fault) => refusal(fault.number(), HEADER_SIZE + size),
    }
}

// ---- the parts that an answer names. They are cut from the stream, which is not read again; for an answer to another stream they hold as
// many of the bytes named as there are.

pub fn type_text(stream: &[u8], answer: Answer) -> &[u8]
    ensures { result.now ≡ type_in stream.now answer }
{
    fields::slice::part(stream, 2, answer.type_len)
}

pub fn device_name(stream: &[u8], answer: Answer) -> &[u8]
    ensures { result.now ≡ name_in stream.now answer }
{
    fields::slice::part(stream, 14, answer.name_len)
}

// The bytes of the extended header past its twelve.
pub fn further(stream: &[u8], answer: Answer) -> &[u8]
    ensures { result.now ≡ further_in stream.now answer }
{
    fields::slice::part(stream, answer.further_at, answer.further_len)
}

pub fn content(stream: &[u8], answer: Answer) -> &[u8]
    ensures { result.now ≡ content_in stream.now answer }
{
    fields::slice::part(stream, answer.content_at, answer.content_len)
}

pub fn metadata(stream: &[u8], answer: Answer) -> &[u8]
    ensures { result.now ≡ metadata_in stream.now answer }
{
    fields::slice::part(stream, answer.metadata_at, answer.metadata_len)
}

// ---- the writer

// Checks 4 to 11 of a writer.
#[tactic(auto, unfolding(crate::specs::MessageWriter::given_sections_fault, crate::specs::MessageWriter::fit_fault, crate::specs::MessageReader::sections_fault))]
fn given_sections_fault(layout: Layout, message: MessageFields) -> Result<(), Fault>
    ensures { number_of result
        ≡ given_sections_fault layout message.entry.version message.entry.type_text.now
        (given_of message.entry).sections }
{
    version_fault(message.version)?;
    if !body::is_fit(layout, message) {
        return Err(Fault::ExtendedHeader);
    }
    contents_fault(message.type_text, message.content, message.metadata)
}

// All checks of a writer but that of the room.
fn given_fault(layout: Layout, message: MessageFields) -> Result<(), Fault>
    ensures { number_of result ≡ given_fault layout (given_of message.entry) }
{
    header::names_fault(message.type_text, message.device_name)?;
    if !body::within_limit(message) {
        return Err(Fault::BodySize);
    }
    given_sections_fault(layout, message)
}

// The fields of the header of a message whose body has this size and CRC.
fn header_fields(message: MessageFields, size: usize, crc: u64) -> header::HeaderFields
    ensures { result ≡ header_given (fixed_of message.entry) size crc }
{
    header::HeaderFields {
        version: message.version,
        time_stamp: message.time_stamp,
        body_size: size,
        crc: crc,
    }
}

// Writes a message that passed the checks, its content cleaned, into a buffer with room for its body of so many bytes.
fn put_message(layout: Layout, message: MessageFields, size: usize, out: &mut [u8])
    requires { MessageFits layout (given_of message) size (length out.old) }
    ensures { out.new ≡ message_bytes layout (given_of message.entry) ++ drop (header_size + size) out.old }
{
    body::put_body(layout, message, &mut out[HEADER_SIZE..HEADER_SIZE + size]);
    let crc = crc64::crc64(&out[HEADER_SIZE..HEADER_SIZE + size]);
    let _ = header::write_header(
        header_fields(message, size, crc),
        message.type_text,
        message.device_name,
        out,
    );
}

// Writes a message that passed the checks, its content cleaned, if the buffer has room for it.
fn write_checked(layout: Layout, message: MessageFields, out: &mut [u8]) -> Result<usize, Fault>
    requires { given_fault layout (given_of message) ≡ 0 }
    ensures { MessagePromise layout (given_of message.entry) out.old (written_of result) out.new }
{
    let size = body::body_len(message);
    fields::room_fault(HEADER_SIZE + size, out.len())?;
    put_message(layout, message, size, out);
    Ok(HEADER_SIZE + size)
}

// Writes a message to the front of a buffer, in this layout, its content cleaned (rule 13.6), and gives how many bytes it wrote.
pub fn write(layout: Layout, message: MessageFields, out: &mut [u8]) -> Result<usize, Fault>
    ensures { MessagePromise layout (given_of message.entry) out.old (written_of result) out.new }
{
    given_fault(layout, message)?;
    write_checked(layout, message, out)
}
