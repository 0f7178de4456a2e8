// Messages from a stream that arrives in fragments (section 12 of docs/RULES.md). A feed reads them from what is pushed to it, over a buffer that
// the caller lends to each push and leaves alone in between.
#![tactic(auto)]

ghost use Rattle.std.specs.Prelude.{◌≡◌, ◌-◌, ◌≤◌, ◌++◌, length, take, OnErr};
ghost use Rattle.std.proofs.lemmas.List.Edits.{sets};
ghost use Rattle.fields.specs.Fault.{number_of};
ghost use Rattle.header.specs.Header.{header_size};
ghost use Rattle.feed.specs.Feed.{feed_of, pushed_as, push_answered};
ghost use Rattle.feed.specs.Opening.{opened_as};
ghost use Rattle.feed.specs.Push.{open_of, push_fault, kept_len, passed_of, fitting_of, taken_in, push_of, stored_to, buffer_of};

use fields::fault::Fault;
use fields::room_fault;
use fields::slice::first;
use fields::store::put;
use header::HEADER_SIZE;
use message::{Answer, Layout, refusal};
use std::num::NonZeroUsize;

// How far a feed has come in the message at hand.
#[derive(Clone, Copy)]
enum State {
    // So many bytes of it stand at the buffer's front.
    Keeping { kept: usize },
    // It has `step` bytes, more than the buffer, and is passed over; `left` of them are to come.
    Passing { step: usize, left: NonZeroUsize },
    // An answer was 2 or 3.
    Stopped,
}

// The layout that messages are read in, the length of the buffer, and the state. Each push is of the feed that the last one left: an older copy
// stands for an older place in the stream. The opening names the layout that the sender writes (rule 3.15).
#[derive(Clone, Copy)]
pub struct Feed {
    layout: Layout,
    room: usize,
    state: State,
}

// What a push gives: how many bytes of the fragment it took, and the answer to a message, or to a header that is refused, where there is one.
#[derive(Clone, Copy)]
pub struct Pushed {
    pub taken: usize,
    pub read: Option<Answer>,
}

// Opens a feed that reads in this layout, over a buffer of at least 58 bytes. No byte of it is changed.
pub fn open_feed(layout: Layout, buffer: &[u8]) -> Result<Feed, Fault>
    ensures { opened_as result ≡ open_of layout (length buffer.now) }
{
    let room = buffer.len();
    room_fault(HEADER_SIZE, room)?;
    Ok(Feed {
        layout,
        room,
        state: State::Keeping { kept: 0 },
    })
}

// Stores the fragment behind the bytes kept, up to a place.
fn fill(kept: usize, to: usize, fragment: &[u8], buffer: &mut [u8])
    ensures { buffer.new ≡ sets buffer.old kept (take (to - kept) fragment.now) }
{
    put(first(fragment, to.saturating_sub(kept)), kept, buffer);
}

impl Feed {
    // How many bytes are kept; they are the buffer's first.
    pub fn kept_len(self) -> usize
        ensures { result ≡ kept_len (feed_of self) }
    {
        match self.state {
            State::Keeping { kept } => kept,
            State::Passing { .. } | State::Stopped => 0,
        }
    }

    // FeedStopped, then NoRoom for a buffer of another length than the feed's, or of fewer than 58 bytes.
    fn push_fault(&self, room: usize) -> Result<(), Fault>
        ensures { number_of result ≡ push_fault (feed_of self.now) room }
    {
        if let State::Stopped = self.state {
            return Err(Fault::FeedStopped);
        }
        if room != self.room {
            return Err(Fault::NoRoom);
        }
        room_fault(HEADER_SIZE, room)
    }

    // A fragment of n bytes, where a message of `step` bytes is passed over and `left` of them are to come.
    fn pass(&mut self, step: usize, left: usize, n: usize) -> Pushed
        ensures { pushed_as self.new result ≡ passed_of self.old.layout self.old.room step left n }
    {
        match NonZeroUsize::new(left.saturating_sub(n)) {
            Some(left) => {
                self.state = State::Passing { step, left };
                Pushed {
                    taken: n,
                    read: None,
                }
            }
            None => {
                self.state = State::Keeping { kept: 0 };
                Pushed {
                    taken: left,
                    read: Some(refusal(20, step)),
                }
            }
        }
    }

    // The header is whole and its message, which ends at `end`, fits the buffer. So many bytes were kept.
    fn take_body(&mut self, kept: usize, end: usize, fragment: &[u8], buffer: &mut [u8]) -> Pushed
        requires { (length buffer.old ≡ self.old.room) × (kept ≤ length buffer.old) × (end ≤ length buffer.old) }
        ensures answer { pushed_as self.new result
            ≡ fitting_of self.old.layout (length buffer.old) kept (length fragment.now) (take kept buffer.old ++ fragment.now) end }
        ensures bytes { buffer.new ≡ sets buffer.old kept (take (end - kept) fragment.now) }
    {
        let more = end.saturating_sub(kept);
        fill(kept, end, fragment, buffer);
        if fragment.len() < more {
            self.state = State::Keeping {
                kept: kept + fragment.len(),
            };
            return Pushed {
                taken: fragment.len(),
                read: None,
            };
        }
        self.state = State::Keeping { kept: 0 };
        let answer = message::read(self.layout, first(buffer, end));
        Pushed {
            taken: more,
            read: Some(answer),
        }
    }

    // What a push gives that is not refused, and does not begin in a message that is passed over. So many bytes were kept.
    fn take_in(&mut self, kept: usize, fragment: &[u8], buffer: &mut [u8]) -> Pushed
        requires { (length buffer.old ≡ self.old.room) × (header_size ≤ length buffer.old) × (kept ≤ length buffer.old) }
        ensures answer { pushed_as self.new result
            ≡ taken_in self.old.layout (length buffer.old) kept (length fragment.now) (take kept buffer.old ++ fragment.now) }
        ensures bytes { buffer.new
            ≡ sets buffer.old kept (take (stored_to (length buffer.old) (take kept buffer.old ++ fragment.now) - kept) fragment.now) }
    {
        let more = HEADER_SIZE.saturating_sub(kept);
        fill(kept, HEADER_SIZE, fragment, buffer);
        if fragment.len() < more {
            self.state = State::Keeping {
                kept: kept + fragment.len(),
            };
            return Pushed {
                taken: fragment.len(),
                read: None,
            };
        }
        let header = header::read_header(buffer);
        let number = header.number;
        if number != 0 {
            self.state = State::Stopped;
            return Pushed {
                taken: more,
                read: Some(refusal(number, 0)),
            };
        }
        let end = HEADER_SIZE + header.body_size;
        if self.room < end {
            return self.pass(end, end - kept, fragment.len());
        }
        self.take_body(kept, end, fragment, buffer)
    }

    // Takes the fragment up to the end of one message, or of a header that is answered 2 or 3. FeedStopped after such an answer; NoRoom for a
    // buffer of another length than at the opening. A push that is refused changes nothing.
    pub fn push(&mut self, fragment: &[u8], buffer: &mut [u8]) -> Result<Pushed, Fault>
        ensures result { push_answered self.new result ≡ push_of (feed_of self.old) fragment.now buffer.old }
        ensures bytes { buffer.new ≡ buffer_of (feed_of self.old) fragment.now buffer.old }
        ensures refused { OnErr result (self.new ≡ self.old) }
    {
        self.push_fault(buffer.len())?;
        if let State::Passing { step, left } = self.state {
            return Ok(self.pass(step, left.get(), fragment.len()));
        }
        let kept = self.kept_len().min(buffer.len());
        Ok(self.take_in(kept, fragment, buffer))
    }
}
