// The place in a message: it goes in and comes back by value. Each method reads one field.
ghost use Rattle.std.specs.Prelude.{ℕ, List, Bool, true, IsTrue, EachIndex, ◌-◌, ◌≤◌, ◌<◌, ◌≡◌, ◌↔◌, length, slice_index};
ghost use Rattle.words.specs.Parts.{region};
ghost use Rattle.messages.specs.Form.{number_at, string_at, blob_at, headed, padded_at, argument_at};
ghost use Rattle.messageread.specs.Answers.{number_of, PartRead, HeadRead, ArgumentRead, bytes_at};
ghost use Rattle.messageread.specs.Ends.{Ends};

use fields::{part, word_at};
use words::wide;

#[derive(Clone, Copy)]
pub struct Cursor {
    pub at: usize,
}

// Where the bytes of a string or a blob start and end.
#[derive(Clone, Copy)]
pub struct Part {
    pub start: usize,
    pub end: usize,
}

// An argument: a number, or its part of the message.
#[derive(Clone, Copy)]
pub enum Argument {
    Integer(u32),
    Float(u32),
    Text(Part),
    Blob(Part),
}

// The place of the first zero from a place on, where the bytes before it are bytes of a string.
fn text_end(message: &[u8], at: usize) -> Option<usize>
    ensures { Ends message.now at result }
{
    for i in at..message.len() {
        let byte = message[i];
        if byte == 0 {
            return Some(i);
        }
        if 127 < byte {
            return None;
        }
    }
    None
}

fn blank(bytes: &[u8]) -> bool
    ensures { IsTrue result ↔ EachIndex bytes.now (λ k. slice_index bytes.now k ≡ 0) }
{
    bytes.iter().all(|b| *b == 0)
}

// The part from one place to another, with so many zeros behind it.
fn padded(message: &[u8], start: usize, end: usize, pad: usize) -> Option<(Part, Cursor)>
    requires { (start ≤ end) × (end ≤ length message.now) }
    ensures { (fits : List ℕ → Bool) → fits (region start (end - start) message.now) ≡ true → PartRead message.now (padded_at (end - start) pad fits message.now start) result }
{
    if message.len() - end < pad {
        return None;
    }
    let next = end + pad;
    if blank(part(message, end, next)) {
        return Some((Part { start, end }, Cursor { at: next }));
    }
    None
}

impl Cursor {
    fn number(self, message: &[u8]) -> Option<(u32, Cursor)>
        ensures { number_of result ≡ number_at message.now self.at }
    {
        let at = self.at;
        if message.len() < 4 || message.len() - 4 < at {
            return None;
        }
        Some((word_at(message, at), Cursor { at: at + 4 }))
    }

    fn text(self, message: &[u8]) -> Option<(Part, Cursor)>
        ensures { PartRead message.now (string_at message.now self.at) result }
    {
        let at = self.at;
        let end = text_end(message, at)?;
        padded(message, at, end, 4 - (end - at) % 4)
    }

    // A string that begins with a byte.
    pub(crate) fn headed(self, message: &[u8], byte: u8) -> Option<(Part, Cursor)>
        requires { 0 < byte }
        ensures { HeadRead message.now (headed byte (string_at message.now self.at)) result }
    {
        let (text, next) = self.text(message)?;
        if text.start < text.end && message[text.start] == byte {
            return Some((text, next));
        }
        None
    }

    // The bytes of a blob behind their number.
    fn bytes(self, message: &[u8], n: u32) -> Option<(Part, Cursor)>
        ensures { PartRead message.now (bytes_at n message.now self.at) result }
    {
        let at = self.at;
        let size = wide(n);
        if 2147483647 < n || message.len() < at || message.len() - at < size {
            return None;
        }
        padded(message, at, at + size, (4 - size % 4) % 4)
    }

    fn blob(self, message: &[u8]) -> Option<(Part, Cursor)>
        ensures { PartRead message.now (blob_at message.now self.at) result }
    {
        let (n, start) = self.number(message)?;
        start.bytes(message, n)
    }

    // The argument of a tag.
    pub(crate) fn argument(self, message: &[u8], tag: u8) -> Option<(Argument, Cursor)>
        ensures { ArgumentRead message.now (argument_at tag message.now self.at) result }
    {
        match tag {
            b'i' => {
                let (n, next) = self.number(message)?;
                Some((Argument::Integer(n), next))
            }
            b'f' => {
                let (n, next) = self.number(message)?;
                Some((Argument::Float(n), next))
            }
            b's' => {
                let (text, next) = self.text(message)?;
                Some((Argument::Text(text), next))
            }
            b'b' => {
                let (blob, next) = self.blob(message)?;
                Some((Argument::Blob(blob), next))
            }
            _ => None,
        }
    }
}
