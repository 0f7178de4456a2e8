// Contents, judged by their type (rule 4.1): one dispatch, and BINDs to their innermost children (rule 4.14).
#![tactic(auto)]

ghost use Rattle.std.specs.Prelude.{◌≡◌, true};
ghost use Rattle.fields.specs.Fault.{number_of};
ghost use Rattle.fields.specs.Answer.{checked, checked_of};
ghost use Rattle.content.specs.Kinds.{kind_of};
ghost use Rattle.content.specs.ContentCheck.{content_fault, bind_fault, content_checked, bind_checked, deepest, nested_levels};

use bind_layout::bind_parts::Children;
use fields::fault::Fault;
use fields::slice::first;

// How many levels of BIND there may be (rule 4.15), and how many are left for a child of the outermost.
pub const DEEPEST: u32 = 4;

pub const NESTED_LEVELS: u32 = DEEPEST - 1;

// The types that have a rule; the content of any other type is opaque (rule 4.1).
#[derive(Clone, Copy)]
enum Kind {
    Transform,
    Position,
    Image,
    Bind,
    Other,
}

// The kind of a type, by its exact text.
fn kind_of(type_text: &[u8]) -> Kind
    ensures { result ≡ kind_of type_text.now }
{
    if fields::slice::same(type_text, b"TRANSFORM") {
        return Kind::Transform;
    }
    if fields::slice::same(type_text, b"POSITION") {
        return Kind::Position;
    }
    if fields::slice::same(type_text, b"IMAGE") {
        return Kind::Image;
    }
    if fields::slice::same(type_text, b"BIND") {
        return Kind::Bind;
    }
    Kind::Other
}

// The mark of a content without texts.
fn textless(answer: Result<(), Fault>) -> Result<bool, Fault>
    ensures { checked_of result ≡ checked (number_of answer) true }
{
    match answer {
        Ok(()) => Ok(true),
        Err(fault) => Err(fault),
    }
}

// The check of a content and the check of a BIND call each other (rule 9.1). The measure is twice the levels left and twice the bytes
// left, and one more here, as this function hands on both as they are. A BIND hands a child one level less, and fewer bytes: its own four
// bytes of counts are not part of any child.
#[cycle(nested)]
fn nested_check(type_text: &[u8], content: &[u8], levels: u32) -> Result<bool, Fault>
    ensures { checked_of result ≡ content_checked levels type_text.now content.now }
{
    match kind_of(type_text) {
        Kind::Transform => textless(pose::transform_fault(content)),
        Kind::Position => textless(pose::position_fault(content)),
        Kind::Image => textless(image::image_fault(content)),
        Kind::Bind => nested_bind_check(content, levels),
        Kind::Other => Ok(true),
    }
}

// See nested_check for the measure. The children are walked once, down what is left of the headers and of the data.
#[cycle(nested)]
fn nested_bind_check(content: &[u8], levels: u32) -> Result<bool, Fault>
    ensures { checked_of result ≡ bind_checked levels content.now }
{
    if levels == 0 {
        return Err(Fault::BindDepth);
    }
    let mut clean = bind_layout::layout_check::layout_check(content)?;
    let mut left = Children::of(content);
    for _ in 0..bind_layout::bind_parts::child_count(content) {
        let size = left.size();
        let child = nested_check(left.type_text(), first(left.data, size), levels - 1)?;
        clean &= child;
        left = left.after(size);
    }
    Ok(clean)
}

// Is every CTYPE clean (rule 13.2) in a content of the type with this text? Refused where the content breaks the rule of its type; a BIND is
// level 1 (rule 4.15).
pub fn content_check(type_text: &[u8], content: &[u8]) -> Result<bool, Fault>
    ensures { checked_of result ≡ content_checked deepest type_text.now content.now }
{
    nested_check(type_text, content, DEEPEST)
}

// The same for a BIND content. It goes by the type, so that the check of a BIND has one caller.
pub fn bind_check(content: &[u8]) -> Result<bool, Fault>
    ensures { checked_of result ≡ bind_checked deepest content.now }
{
    nested_check(b"BIND", content, DEEPEST)
}

// The same without the mark.
pub fn content_fault(type_text: &[u8], content: &[u8]) -> Result<(), Fault>
    ensures { number_of result ≡ content_fault deepest type_text.now content.now }
{
    content_check(type_text, content).map(|_| ())
}

// Of a child of such a BIND: a BIND there is level 2.
pub fn nested_fault(type_text: &[u8], content: &[u8]) -> Result<(), Fault>
    ensures { number_of result ≡ content_fault nested_levels type_text.now content.now }
{
    nested_check(type_text, content, NESTED_LEVELS).map(|_| ())
}

// Of a BIND content.
pub fn bind_fault(content: &[u8]) -> Result<(), Fault>
    ensures { number_of result ≡ bind_fault deepest content.now }
{
    bind_check(content).map(|_| ())
}
