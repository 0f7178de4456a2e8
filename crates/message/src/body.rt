// The body of a message (rules 3.5 to 3.7), in any layout. In V 2 it is an extended header, the content and the metadata; in V 1 it is the
// content.
ghost use Rattle.std.specs.Prelude.{◌≡◌, true, ◌-◌, ◌≤◌, length, leb};
ghost use Rattle.std.proofs.lemmas.List.Edits.{sets};
ghost use Rattle.fields.specs.Fault.{number_of};
ghost use Rattle.message.specs.MessageReader.{extended_size, section_size, extended_ok, extended_fault, sizes_fault, plain_places, extended_places, places_of};
ghost use Rattle.message.specs.MessageWriter.{given_of, length_given, BodyFits, body_written, fit_ok};
ghost use Rattle.header.specs.Header.{body_limit};

use crate::{Layout, MessageFields, extended};
use fields::fault::Fault;
use fields::number::{Number, SIZE_LIMIT};
use header::BODY_LIMIT;

// The bytes of an extended header without further bytes, which is the least EXT_HEADER_SIZE (rule 3.6), and how many further bytes its two bytes
// allow.
pub(crate) const EXTENDED_LEAST: usize = 12;

const FURTHER_LIMIT: usize = SIZE_LIMIT - EXTENDED_LEAST;

// MSG_ID, and where the sections stand in the body.
#[derive(Clone, Copy)]
pub struct Places {
    pub id: u32,
    pub further_at: usize,
    pub further_len: usize,
    pub content_at: usize,
    pub content_len: usize,
    pub metadata_at: usize,
    pub metadata_len: usize,
}

// A body that is read: the layout that it is read in, V, and its bytes.
#[derive(Clone, Copy)]
pub struct ReceivedBody<'a> {
    pub layout: Layout,
    pub version: u16,
    pub bytes: &'a [u8],
}

// Where the sections stand in V 1: all of the body is content.
fn plain_places(body: &[u8]) -> Places
    ensures { result ≡ plain_places body.now }
{
    let n = body.len();
    Places {
        id: 0,
        further_at: 0,
        further_len: 0,
        content_at: 0,
        content_len: n,
        metadata_at: n,
        metadata_len: 0,
    }
}

// Where they stand in V 2, by the sizes in the body.
fn extended_places(layout: Layout, body: &[u8]) -> Places
    ensures { result ≡ extended_places layout body.now }
{
    let n = body.len();
    let size = u16::read(body, 0) as usize;
    let metadata_len = extended::section_size(layout, body);
    Places {
        id: extended::id_at(layout, body),
        further_at: EXTENDED_LEAST,
        further_len: size.saturating_sub(EXTENDED_LEAST),
        content_at: size,
        content_len: n.saturating_sub(size + metadata_len),
        metadata_at: n.saturating_sub(metadata_len),
        metadata_len: metadata_len,
    }
}

// Check 6 of a body of V 2, whose extended header and metadata have these sizes. Their sum does not wrap.
#[tactic(auto, unfolding(crate::specs::MessageReader::extended_ok))]
fn is_extended(layout: Layout, body: &[u8], size: usize, metadata: usize) -> bool
    requires { (size ≡ extended_size body.now) × (metadata ≡ section_size layout body.now) }
    ensures { result ≡ extended_ok layout body.now }
{
    EXTENDED_LEAST <= body.len()
        && EXTENDED_LEAST <= size
        && extended::reserved_ok(layout, body)
        && size + metadata <= body.len()
}

impl<'a> ReceivedBody<'a> {
    // Where the sections stand, by the sizes in the body. Check 6 says whether they can stand there.
    #[tactic(auto, unfolding(crate::specs::MessageReader::places_of))]
    pub(crate) fn sections(self) -> Places
        ensures { result ≡ places_of self.entry.layout self.entry.version self.entry.bytes.now }
    {
        if self.version != 2 {
            return plain_places(self.bytes);
        }
        extended_places(self.layout, self.bytes)
    }

    // Check 6 of a body whose sections stand at these places.
    #[tactic(auto, unfolding(crate::specs::MessageReader::extended_fault))]
    pub(crate) fn extended_fault(self, places: Places) -> Result<(), Fault>
        requires { places ≡ places_of self.layout self.version self.bytes.now }
        ensures { number_of result ≡ extended_fault self.entry.layout self.entry.version self.entry.bytes.now }
    {
        if self.version == 2
            && !is_extended(
                self.layout,
                self.bytes,
                places.content_at,
                places.metadata_len,
            )
        {
            return Err(Fault::ExtendedHeader);
        }
        Ok(())
    }

    // Check 7 of the metadata's sizes in the body, which are to be those of the section.
    #[tactic(auto, unfolding(crate::specs::MessageReader::sizes_fault))]
    pub(crate) fn sizes_fault(self, section: &[u8]) -> Result<(), Fault>
        ensures { number_of result ≡ sizes_fault self.entry.layout self.entry.version self.entry.bytes.now section.now }
    {
        if self.version != 2 {
            return Ok(());
        }
        extended::index_size_fault(self.layout, self.bytes, section)
    }
}

// ---- the writer's

// Does the body of this message keep the limit? Each length is compared first, so that their sum does not wrap.
pub(crate) fn within_limit(message: MessageFields) -> bool
    ensures { result ≡ leb (length_given message.entry) body_limit }
{
    let further = message.further.len();
    let content = message.content.len();
    let metadata = message.metadata.len();
    if message.version != 2 {
        return content <= BODY_LIMIT;
    }
    further <= BODY_LIMIT
        && content <= BODY_LIMIT
        && metadata <= BODY_LIMIT
        && EXTENDED_LEAST + further + content + metadata <= BODY_LIMIT
}

// The body's length, where it keeps the limit.
pub(crate) fn body_len(message: MessageFields) -> usize
    requires { length_given message ≤ body_limit }
    ensures value { result ≡ length_given message.entry }
    ensures bound { result ≤ body_limit }
{
    let content = message.content.len();
    if message.version != 2 {
        return content;
    }
    EXTENDED_LEAST + message.further.len() + content + message.metadata.len()
}

// Check 6 of a writer (rule 5.9): can a body of this version have such sections?
#[tactic(auto, unfolding(crate::specs::MessageWriter::fits))]
pub(crate) fn is_fit(layout: Layout, message: MessageFields) -> bool
    ensures { result ≡ fit_ok layout message.entry.version (given_of message.entry).sections }
{
    let further = message.further.len();
    let metadata = message.metadata.len();
    if message.version == 2 {
        let index = metadata::index_size(message.metadata);
        return further <= FURTHER_LIMIT && extended::size_fits(layout, index, metadata);
    }
    message.id == 0 && further == 0 && metadata == 0
}

// Writes a body of V 2 to the front of a buffer with room for it, the content cleaned.
fn put_extended(layout: Layout, message: MessageFields, out: &mut [u8])
    requires { BodyFits layout 2 message.further.now message.content.now message.metadata.now (length out.old) }
    ensures { out.new
        ≡ sets out.old 0
        (body_written layout 2 message.entry.id message.entry.type_text.now message.entry.further.now
        message.entry.content.now message.entry.metadata.now) }
{
    let content_at = EXTENDED_LEAST + message.further.len();
    let metadata_at = content_at + message.content.len();
    let metadata = message.metadata;
    let index = metadata::index_size(metadata);
    let numbers = extended::extended_numbers(layout, index, metadata.len(), message.id);
    (content_at as u16).put(0, out);
    numbers.second.put(2, out);
    numbers.third.put(4, out);
    numbers.fourth.put(8, out);
    fields::store::put(message.further, EXTENDED_LEAST, out);
    cleaning::put_clean(
        message.type_text,
        message.content,
        content::DEEPEST,
        content_at,
        out,
    );
    fields::store::put(metadata, metadata_at, out);
}

// Writes a body to the front of a buffer with room for it, the content cleaned.
pub(crate) fn put_body(layout: Layout, message: MessageFields, out: &mut [u8])
    requires { BodyFits layout message.version message.further.now message.content.now message.metadata.now (length out.old) }
    ensures { out.new
        ≡ sets out.old 0
        (body_written layout message.entry.version message.entry.id message.entry.type_text.now message.entry.further.now
        message.entry.content.now message.entry.metadata.now) }
{
    if message.version == 2 {
        put_extended(layout, message, out);
        return;
    }
    cleaning::put_clean(message.type_text, message.content, content::DEEPEST, 0, out);
}
