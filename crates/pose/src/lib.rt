// TRANSFORM and POSITION contents (rules 4.2 to 4.4). A float is a u32 word, the number that its bits spell; nothing is computed with it.
#![tactic(auto)]

ghost use Rattle.std.specs.Prelude.{◌≡◌, ◌++◌, ◌*◌, ◌≤◌, length};
ghost use Rattle.std.proofs.lemmas.List.Edits.{sets};
ghost use Rattle.fields.specs.Checks.{or_else};
ghost use Rattle.fields.specs.Answer.{written_of, room_fault};
ghost use Rattle.fields.specs.Fault.{number_of};
ghost use Rattle.pose.specs.Words.{word_size, word_bytes};
ghost use Rattle.pose.specs.Transform.{transform_words};
ghost use Rattle.pose.specs.TransformReader.{transform_fault, transform_read, transform_of};
ghost use Rattle.pose.specs.TransformWriter.{TransformPromise};
ghost use Rattle.pose.specs.PositionReader.{count_fault, position_fault, position_read, position_of};
ghost use Rattle.pose.specs.PositionWriter.{PositionPromise};

use fields::fault::Fault;
use fields::number::{Number, three};

// The bytes of a TRANSFORM (rule 4.2).
pub const TRANSFORM_SIZE: usize = 48;

// The bytes of a word, and the most words of a POSITION (rule 4.3).
const WORD_SIZE: usize = 4;

pub const MOST_WORDS: usize = 7;

// The three columns of the rotation, each from its first row to its third; the translation (rule 4.2).
#[derive(Clone, Copy, Default)]
pub struct Transform {
    pub column1: [u32; 3],
    pub column2: [u32; 3],
    pub column3: [u32; 3],
    pub translation: [u32; 3],
}

// 3, 6 or 7 words, with zeros past them.
#[derive(Clone, Copy, Default)]
pub struct Position {
    pub count: usize,
    pub words: [u32; MOST_WORDS],
}

// 8 where it has another length than 48.
#[tactic(auto, unfolding(crate::specs::TransformReader::transform_fault))]
pub fn transform_fault(content: &[u8]) -> Result<(), Fault>
    ensures { number_of result ≡ transform_fault content.now }
{
    if content.len() == TRANSFORM_SIZE {
        Ok(())
    } else {
        Err(Fault::PoseLength)
    }
}

// Column by column: the entry in row i and column j, both from 0, is word 3j + i.
pub fn read_transform(content: &[u8]) -> Result<Transform, Fault>
    ensures { transform_read result ≡ transform_of content.now }
{
    transform_fault(content)?;
    Ok(Transform {
        column1: three(content, 0),
        column2: three(content, 12),
        column3: three(content, 24),
        translation: three(content, 36),
    })
}

// The words in the order in which they are written: column by column.
fn transform_words(transform: Transform) -> [u32; 12]
    ensures { result ≡ transform_words transform }
{
    let [a, b, c] = transform.column1;
    let [d, e, f] = transform.column2;
    let [g, h, i] = transform.column3;
    let [x, y, z] = transform.translation;
    [a, b, c, d, e, f, g, h, i, x, y, z]
}

// Writes the words from the front on. They are few, so that no place overflows.
fn put_words(words: &[u32], out: &mut [u8])
    requires { length words.now ≤ 12 }
    ensures { out.new ≡ sets out.old 0 (word_bytes words.now) }
{
    for (i, word) in words.iter().enumerate() {
        word.put(WORD_SIZE * i, out);
    }
}

// Writes 48 bytes. Its only refusal is 20.
pub fn write_transform(transform: Transform, out: &mut [u8]) -> Result<usize, Fault>
    ensures { TransformPromise transform out.old (written_of result) out.new }
{
    let words = transform_words(transform);
    fields::room_fault(TRANSFORM_SIZE, out.len())?;
    put_words(&words, out);
    Ok(TRANSFORM_SIZE)
}

// 8 where a POSITION has not so many words.
#[tactic(auto, unfolding(crate::specs::PositionReader::count_fault))]
fn count_fault(n: usize) -> Result<(), Fault>
    ensures { number_of result ≡ count_fault n }
{
    if matches!(n, 3 | 6 | 7) {
        Ok(())
    } else {
        Err(Fault::PoseLength)
    }
}

// 8 where it has another length than 12, 24 and 28.
#[tactic(auto, unfolding(crate::specs::PositionReader::position_fault))]
pub fn position_fault(content: &[u8]) -> Result<(), Fault>
    ensures { number_of result ≡ position_fault content.now }
{
    if content.len() % WORD_SIZE != 0 {
        return Err(Fault::PoseLength);
    }
    count_fault(content.len() / WORD_SIZE)
}

// Seven words are read: those past the end of the content are 0.
pub fn read_position(content: &[u8]) -> Result<Position, Fault>
    ensures { position_read result ≡ position_of content.now }
{
    position_fault(content)?;
    Ok(Position {
        count: content.len() / WORD_SIZE,
        words: [
            u32::read(content, 0),
            u32::read(content, 4),
            u32::read(content, 8),
            u32::read(content, 12),
            u32::read(content, 16),
            u32::read(content, 20),
            u32::read(content, 24),
        ],
    })
}

// The writer's checks for n words: 8, then 20.
fn write_fault(n: usize, room: usize) -> Result<(), Fault>
    ensures { number_of result ≡ or_else (count_fault n) (room_fault (word_size * n) room) }
{
    count_fault(n)?;
    fields::room_fault(WORD_SIZE * n, room)
}

// Writes 3, 6 or 7 words; any other number of them is 8, and then 20 is checked.
pub fn write_position(words: &[u32], out: &mut [u8]) -> Result<usize, Fault>
    ensures { PositionPromise words.now out.old (written_of result) out.new }
{
    write_fault(words.len(), out.len())?;
    put_words(words, out);
    Ok(WORD_SIZE * words.len())
}
