// What programs in other languages call: the library as a static archive, for scripts/differential and scripts/bench. A slice is a pointer
// and a length there. A layout is a number: 1 is the old one, any other the new. An answer of several numbers is written into a lent buffer, each
// number in eight bytes.
#![tactic(auto)]

ghost use Rattle.std.specs.Prelude.{◌≡◌, [], ◌∷◌, ◌++◌, length, replicate};
ghost use Rattle.std.proofs.lemmas.List.Edits.{sets};
ghost use Rattle.fields.specs.Layout.{stores, number_fields};
ghost use Rattle.crc64.specs.Crc.{crc_of};
ghost use Rattle.content.specs.ContentCheck.{content_fault, deepest};
ghost use Rattle.bind_cursor.specs.Cursor.{first_of, next_of};
ghost use Rattle.message.specs.LayoutNumber.{layout_of};
ghost use Rattle.message.specs.MessageReader.{read_of};
ghost use Rattle.feed.specs.Feed.{feed_of, answer_of, taken_of};
ghost use Rattle.feed.specs.Push.{open_of};
ghost use Rattle.replay.specs.Records.{answer_of as call_answer_of, answered_in};
ghost use Rattle.replay.specs.Replay.{answer_at, look_after};
ghost use Rattle.exports.specs.Exports.{field_numbers, part_numbers, mark_number, answer_bytes, message_given, WrittenAs, push_code, push_read, pushed_bytes, started, fed_as, fed_by, fed_total, fed_buffer, fed_bytes, answer_code, carried_number, answered_fields, answered_bytes, cursor_numbers, cursor_bytes, cursor_at};

use bind_cursor::Cursor;
use feed::{Feed, Pushed};
use fields::fault::Fault;
use fields::number::Number;
use message::{Answer, MessageFields};
use panel::Value;
use replay::{Answered, CallAnswer};

// ---- the CRC and the contents

#[unsafe(no_mangle)]
pub extern "C" fn kudireppa_crc64(bytes: &[u8]) -> u64
    ensures { result ≡ crc_of bytes.now }
{
    crc64::crc64(bytes)
}

#[unsafe(no_mangle)]
pub extern "C" fn kudireppa_content_fault(type_text: &[u8], content: &[u8]) -> u8
    ensures { result ≡ content_fault deepest type_text.now content.now }
{
    fields::fault::number_of(content::content_fault(type_text, content))
}

// ---- messages

// The step of the front of a stream; the number goes into `number`.
#[unsafe(no_mangle)]
pub extern "C" fn kudireppa_read(layout: u8, stream: &[u8], number: &mut u8) -> usize
    ensures step { result ≡ (read_of (layout_of layout) stream.now).step }
    ensures number { number.new ≡ (read_of (layout_of layout) stream.now).number }
{
    let named = message::layout_of(layout as u64);
    let answer = message::read(named, stream);
    *number = answer.number;
    answer.step
}

fn put_fields(answer: Answer, out: &mut [u8])
    ensures { out.new ≡ stores out.old 8 (number_fields (replicate 6 8) (field_numbers answer)) (replicate 6 8) }
{
    (answer.step as u64).put(8, out);
    (answer.version as u64).put(16, out);
    (answer.type_len as u64).put(24, out);
    (answer.name_len as u64).put(32, out);
    answer.time_stamp.put(40, out);
    (answer.id as u64).put(48, out);
}

fn put_parts(answer: Answer, out: &mut [u8])
    ensures { out.new ≡ stores out.old 56 (number_fields (replicate 6 8) (part_numbers answer)) (replicate 6 8) }
{
    (answer.further_at as u64).put(56, out);
    (answer.further_len as u64).put(64, out);
    (answer.content_at as u64).put(72, out);
    (answer.content_len as u64).put(80, out);
    (answer.metadata_at as u64).put(88, out);
    (answer.metadata_len as u64).put(96, out);
}

// A mark as a number: 1 where it is true.
fn mark_number(mark: bool) -> u64
    ensures { result ≡ mark_number mark }
{
    if mark { 1 } else { 0 }
}

// All fourteen numbers of an answer, in the order of `message::Answer`: 112 bytes.
fn put_answer(answer: Answer, out: &mut [u8])
    ensures { out.new ≡ sets out.old 0 (answer_bytes answer) }
{
    (answer.number as u64).put(0, out);
    put_fields(answer, out);
    put_parts(answer, out);
    mark_number(answer.clean).put(104, out);
}

// The answer to the front of a stream: 112 bytes.
#[unsafe(no_mangle)]
pub extern "C" fn kudireppa_read_fields(layout: u8, stream: &[u8], out: &mut [u8])
    ensures { out.new ≡ sets out.old 0 (answer_bytes (read_of (layout_of layout) stream.now)) }
{
    let named = message::layout_of(layout as u64);
    put_answer(message::read(named, stream), out);
}

// How many bytes of the message were written, 0 where it is refused; the number goes into `number`.
#[unsafe(no_mangle)]
pub extern "C" fn kudireppa_write(
    layout: u8,
    version: u16,
    time_stamp: u64,
    id: u32,
    type_text: &[u8],
    device_name: &[u8],
    further: &[u8],
    content: &[u8],
    metadata: &[u8],
    out: &mut [u8],
    number: &mut u8,
) -> usize
    ensures { WrittenAs (layout_of layout)
        (message_given version time_stamp id type_text.now device_name.now further.now content.now metadata.now)
        out.old result number.new out.new }
{
    let message = MessageFields {
        version,
        time_stamp,
        id,
        type_text,
        device_name,
        further,
        content,
        metadata,
    };
    let named = message::layout_of(layout as u64);
    let written = message::write(named, message, out);
    *number = fields::fault::number_of(written);
    written.unwrap_or(0)
}

// ---- feeds

// What the last push gave, and how many bytes all of them took.
#[derive(Clone, Copy)]
struct Fed {
    last: Result<Pushed, Fault>,
    total: usize,
}

// How many bytes a push took.
fn taken(push: Result<Pushed, Fault>) -> usize
    ensures { result ≡ taken_of push }
{
    match push {
        Ok(pushed) => pushed.taken,
        Err(_) => 0,
    }
}

// Which answer, as a number.
fn push_code(push: Result<Pushed, Fault>) -> u64
    ensures { result ≡ push_code (answer_of push) }
{
    match push {
        Ok(pushed) => match pushed.read {
            None => 0,
            Some(_) => 1,
        },
        Err(_) => 2,
    }
}

// The reader's answer; of a refusal only the number.
fn push_read(push: Result<Pushed, Fault>) -> Answer
    ensures { result ≡ push_read (answer_of push) }
{
    match push {
        Ok(pushed) => match pushed.read {
            None => message::refusal(0, 0),
            Some(answer) => answer,
        },
        Err(fault) => message::refusal(fault.number(), 0),
    }
}

// The fourteen numbers, which answer, how many bytes the push took, and how many the feed keeps: 136 bytes.
fn put_pushed(push: Result<Pushed, Fault>, kept: usize, out: &mut [u8])
    ensures { out.new ≡ sets out.old 0 (pushed_bytes (answer_of push) (taken_of push) kept) }
{
    put_answer(push_read(push), out);
    push_code(push).put(112, out);
    (taken(push) as u64).put(120, out);
    (kept as u64).put(128, out);
}

// Pushes the stream. Four bytes of `lengths` say how many bytes a push is offered, from the first one that was not taken yet.
fn push_all(feed: &mut Feed, lengths: &[u8], stream: &[u8], buffer: &mut [u8]) -> Fed
    ensures result { fed_as feed.new result ≡ (fed_by lengths.now stream.now (started (feed_of feed.old)) buffer.old).0 }
    ensures bytes { buffer.new ≡ (fed_by lengths.now stream.now (started (feed_of feed.old)) buffer.old).1 }
{
    let mut last = Ok(Pushed {
        taken: 0,
        read: None,
    });
    let mut total = 0;
    for length in lengths.chunks_exact(4) {
        let fragment = fields::slice::part(stream, total, u32::read(length, 0) as usize);
        last = feed.push(fragment, &mut *buffer);
        total += taken(last);
    }
    Fed { last, total }
}

// Opens a feed over the buffer and pushes the stream to it, in pieces of these lengths. What the last push gave goes into `out`, or the
// refusal of the opening. Gives how many bytes were taken.
#[unsafe(no_mangle)]
pub extern "C" fn kudireppa_feed(
    layout: u8,
    lengths: &[u8],
    stream: &[u8],
    buffer: &mut [u8],
    out: &mut [u8],
) -> usize
    ensures total { result ≡ fed_total (open_of (layout_of layout) (length buffer.old)) lengths.now stream.now buffer.old }
    ensures bytes { buffer.new ≡ fed_buffer (open_of (layout_of layout) (length buffer.old)) lengths.now stream.now buffer.old }
    ensures out { out.new
        ≡ sets out.old 0
        (fed_bytes (open_of (layout_of layout) (length buffer.old)) lengths.now stream.now buffer.old) }
{
    let named = message::layout_of(layout as u64);
    match feed::open_feed(named, buffer) {
        Ok(opened) => {
            let mut feed = opened;
            let fed = push_all(&mut feed, lengths, stream, buffer);
            put_pushed(fed.last, feed.kept_len(), out);
            fed.total
        }
        Err(fault) => {
            put_pushed(Err(fault), 0, out);
            0
        }
    }
}

// ---- scripts of calls on a panel

// Which answer, as a number: what other languages get.
fn answer_code(answer: CallAnswer) -> u64
    ensures { result ≡ answer_code (call_answer_of answer) }
{
    match answer {
        CallAnswer::Accepted => 0,
        CallAnswer::Added(_) => 1,
        CallAnswer::Empty => 2,
        CallAnswer::Green(_) => 3,
        CallAnswer::Grey(_) => 4,
        CallAnswer::Refused(_) => 5,
    }
}

// The tile, the age or the number that goes with it.
fn carried_number(answer: CallAnswer) -> u64
    ensures { result ≡ carried_number (call_answer_of answer) }
{
    match answer {
        CallAnswer::Accepted => 0,
        CallAnswer::Added(tile) => tile as u64,
        CallAnswer::Empty => 0,
        CallAnswer::Green(age) => age,
        CallAnswer::Grey(age) => age,
        CallAnswer::Refused(number) => number as u64,
    }
}

fn put_value(bytes: [u8; panel::VALUE_SIZE], out: &mut [u8])
    ensures { out.new ≡ sets out.old 24 bytes }
{
    fields::store::put(&bytes[..], 24, out);
}

// Which answer, its number, the length of its value, and the value's 48 bytes: 72 bytes.
fn put_said(code: u64, number: u64, value: Value, out: &mut [u8])
    ensures { out.new
        ≡ stores out.old 0 (number_fields (replicate 3 8) (code ∷ number ∷ value.len ∷ []) ++ (value.bytes ∷ []))
        (8 ∷ 8 ∷ 8 ∷ length value.bytes ∷ []) }
{
    code.put(0, out);
    number.put(8, out);
    (value.len as u64).put(16, out);
    put_value(value.bytes, out);
}

// The same of what a call answered; 6 where there is no call.
#[tactic(auto, unfolding(fields::specs::Bytes::sized))]
fn put_answered(answered: Option<Answered>, out: &mut [u8])
    ensures { out.new
        ≡ stores out.old 0 (answered_fields (answered_in answered))
        (8 ∷ 8 ∷ 8 ∷ length (answered_in answered).value.bytes ∷ []) }
{
    match answered {
        Some(said) => put_said(
            answer_code(said.answer),
            carried_number(said.answer),
            said.value,
            out,
        ),
        None => {
            let zeros = [0u8; panel::VALUE_SIZE];
            put_said(
                6,
                0,
                Value {
                    bytes: zeros,
                    len: 0,
                },
                out,
            );
        }
    }
}

// What the call at a place of the script answers: 72 bytes.
#[unsafe(no_mangle)]
pub extern "C" fn kudireppa_answer_at(script: &[u8], place: usize, out: &mut [u8])
    ensures { out.new ≡ sets out.old 0 (answered_bytes (answer_at script.now place)) }
{
    put_answered(replay::answer_at(script, place), out);
}

// What a look after all calls of the script shows: 72 bytes.
#[unsafe(no_mangle)]
pub extern "C" fn kudireppa_look_after(script: &[u8], tile: usize, clock: u64, out: &mut [u8])
    ensures { out.new ≡ sets out.old 0 (answered_bytes (look_after script.now tile clock)) }
{
    put_answered(Some(replay::look_after(script, tile, clock)), out);
}

// ---- walks through the children of a BIND

// The numbers of a cursor in the order of `bind_cursor::Cursor`, its mark as a number.
fn put_places(cursor: Cursor, mark: u64, out: &mut [u8])
    ensures { out.new ≡ stores out.old 0 (number_fields (replicate 9 8) (cursor_numbers cursor mark)) (replicate 9 8) }
{
    (cursor.number as u64).put(0, out);
    (cursor.left as u64).put(8, out);
    (cursor.type_at as u64).put(16, out);
    (cursor.type_len as u64).put(24, out);
    (cursor.name_at as u64).put(32, out);
    (cursor.name_len as u64).put(40, out);
    (cursor.at as u64).put(48, out);
    (cursor.len as u64).put(56, out);
    mark.put(64, out);
}

// All nine: 72 bytes.
fn put_cursor(cursor: Cursor, out: &mut [u8])
    ensures { out.new ≡ sets out.old 0 (cursor_bytes cursor) }
{
    put_places(cursor, mark_number(cursor.clean), out);
}

// The cursor of such bytes. Of the number and of the mark the last byte counts, and a mark is true where that is not 0.
fn cursor_at(bytes: &[u8]) -> Cursor
    ensures { result ≡ cursor_at bytes.now }
{
    Cursor {
        number: u8::read(bytes, 7),
        left: u64::read(bytes, 8) as usize,
        type_at: u64::read(bytes, 16) as usize,
        type_len: u64::read(bytes, 24) as usize,
        name_at: u64::read(bytes, 32) as usize,
        name_len: u64::read(bytes, 40) as usize,
        at: u64::read(bytes, 48) as usize,
        len: u64::read(bytes, 56) as usize,
        clean: u8::read(bytes, 71) != 0,
    }
}

// The cursor at the first child of a BIND content: 72 bytes.
#[unsafe(no_mangle)]
pub extern "C" fn kudireppa_first_child(content: &[u8], out: &mut [u8])
    ensures { out.new ≡ sets out.old 0 (cursor_bytes (first_of content.now)) }
{
    put_cursor(bind_cursor::first_child(content), out);
}

// The cursor after the one in these bytes, as they were written: 72 bytes.
#[unsafe(no_mangle)]
pub extern "C" fn kudireppa_next_child(content: &[u8], cursor: &[u8], out: &mut [u8])
    ensures { out.new ≡ sets out.old 0 (cursor_bytes (next_of content.now (cursor_at cursor.now))) }
{
    put_cursor(bind_cursor::next_child(content, cursor_at(cursor)), out);
}
