// Texts and text fields (rules 2.2 and 2.4).
ghost use Rattle.std.specs.Prelude.{◌≡◌, length};
ghost use Rattle.std.proofs.lemmas.List.Edits.{sets};
ghost use Rattle.fields.specs.Text.{is_text, text_of, past_text, all_zero, text_bytes};
ghost use Rattle.fields.specs.Received.{field_of, field_read};

// The bytes of a text are below this, and none is 0.
const TEXT_LIMIT: u8 = 128;

// A field whose bytes before its first 0 are all 1 to 127 (rule 2.4): how many they are, and whether there are only zeros from that 0 on, so
// that it also keeps rule 2.2.
#[derive(Clone, Copy, Debug, PartialEq, Eq, Hash)]
pub struct TextField {
    pub len: usize,
    pub clean: bool,
}

// Is it a text: bytes 1 to 127 and nothing else? Names and keys are texts.
pub fn is_text(t: &[u8]) -> bool
    ensures { result ≡ is_text t.now }
{
    t.iter().all(|&b| 0 < b && b < TEXT_LIMIT)
}

// How many bytes stand before the first 0: the length of a field's text.
pub fn text_len(s: &[u8]) -> usize
    ensures { result ≡ length (text_of s.now) }
{
    for (i, &b) in s.iter().enumerate() {
        if b == 0 {
            return i;
        }
    }
    s.len()
}

// The bytes before the first 0: a field's text, a table's first name.
pub fn text_of(s: &[u8]) -> &[u8]
    ensures { result.now ≡ text_of s.now }
{
    let n = text_len(s);
    crate::slice::first(s, n)
}

// The bytes past the first 0; nothing where there is none.
pub fn past_text(s: &[u8]) -> &[u8]
    ensures { result.now ≡ past_text s.now }
{
    let n = text_len(s);
    crate::slice::rest(s, n + 1)
}

pub fn all_zero(s: &[u8]) -> bool
    ensures { result ≡ all_zero s.now }
{
    s.iter().all(|&b| b == 0)
}

// Reads the whole slice as a text field, each byte once; None where it is not one.
pub fn read_field(f: &[u8]) -> Option<TextField>
    ensures { field_of result ≡ field_read f.now }
{
    for (i, &b) in f.iter().enumerate() {
        if b == 0 {
            let clean = all_zero(crate::slice::rest(f, i + 1));
            return Some(TextField { len: i, clean });
        }
        if TEXT_LIMIT <= b {
            return None;
        }
    }
    Some(TextField {
        len: f.len(),
        clean: true,
    })
}
