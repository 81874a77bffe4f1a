//! The text of a reply, in an array of fixed size.
ghost use Rattle.std.specs.Prelude.{◌≡◌, ◌≤◌, ◌++◌, length, codes, if◌then◌else◌};
ghost use Rattle.std.specs.Fmt.{decimal};
ghost use Rattle.object_pool_cores.specs.Lines.{ended};
ghost use Rattle.object_pool_cores.specs.ReplyText.{refusal_text, attach_refusal_text, pulled_text};

use crate::sequential::AttachError;
use arrayvec::ArrayString;
use itoa::Buffer;
use pool_parts::PullError;

/// The length of the longest reply, with its line feed.
pub(super) const LONGEST_REPLY: usize = 92;

/// The text of a reply with its line feed.
pub(super) type ReplyText = ArrayString<LONGEST_REPLY>;

/// Makes a reply that has no number in it.
pub(super) fn plain_line(words: &str) -> ReplyText
    requires { length words.now ≤ 20 }
    ensures { result.bytes ≡ ended words.now }
{
    let mut line = ReplyText::new();
    line.push_str(words);
    line.push_str("\n");
    line
}

/// Returns the words for the cause of a pull's refusal.
pub(super) fn refusal(cause: PullError) -> &'static str
    ensures text { result.now ≡ refusal_text cause }
    ensures short { length result.now ≤ 20 }
{
    match cause {
        PullError::Memory => "refused memory",
        PullError::Init => "refused init",
        PullError::Limit => "refused limit",
        PullError::Closed => "refused closed",
    }
}

/// Returns the words for the cause of an attach's refusal.
pub(super) fn attach_refusal(error: &AttachError<u32>) -> &'static str
    ensures text { result.now ≡ attach_refusal_text error.now }
    ensures short { length result.now ≤ 20 }
{
    match error {
        AttachError::Memory(_) => "refused memory",
        AttachError::NotOffered(_) => "not offered",
    }
}

/// Makes a reply of a word and an index.
pub(super) fn indexed_line(word: &str, index: usize) -> ReplyText
    requires { length word.now ≤ 20 }
    ensures { result.bytes ≡ ended (word.now ++ decimal index) }
{
    let mut line = ReplyText::new();
    line.push_str(word);
    line.push_str(Buffer::new().format(index));
    line.push_str("\n");
    line
}

/// Makes a reply of a word and an index, or that nothing is held there.
pub(super) fn held_line(is_held: bool, word: &str, index: usize) -> ReplyText
    requires { length word.now ≤ 20 }
    ensures { result.bytes
        ≡ ended (if is_held then word.now ++ decimal index else codes "no such holder") }
{
    if is_held {
        indexed_line(word, index)
    } else {
        plain_line("no such holder")
    }
}

/// Makes a reply of the holder, the item's number and its value.
pub(super) fn pulled_line(holder: usize, number: Option<u128>, value: u32) -> ReplyText
    ensures { result.bytes ≡ ended (pulled_text holder number value) }
{
    let mut line = ReplyText::new();
    line.push_str("pulled ");
    line.push_str(Buffer::new().format(holder));
    if let Some(number) = number {
        line.push_str(" number ");
        line.push_str(Buffer::new().format(number));
    }
    line.push_str(" value ");
    line.push_str(Buffer::new().format(value));
    line.push_str("\n");
    line
}
