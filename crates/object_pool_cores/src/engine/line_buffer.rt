//! The line that is being read.
ghost use Rattle.std.specs.Prelude.{◌≡◌, ◌∷◌, ◌++◌, [], ℕ, List, IsTrue, ◌↔◌, MatchOption};
ghost use Rattle.object_pool_cores.specs.CommandText.{IsCommand, IsBadLine};
ghost use Rattle.object_pool_cores.specs.Inside.Buffered.{IsBuffered};

use crate::engine::command_text::command_of;
use crate::sequential::Command;
use arrayvec::ArrayVec;

/// The most bytes that a line may have.
const LONGEST_LINE: usize = 64;

/// The bytes of a line so far, or the fact that it has more than the engine keeps.
#[derive(Drop)]
pub(super) enum LineBuffer {
    Short(ArrayVec<u8, LONGEST_LINE>),
    Long,
}

impl LineBuffer {
    /// Begins a line, which is empty.
    pub(super) fn new() -> LineBuffer
        ensures { IsBuffered [] result }
    {
        LineBuffer::Short(ArrayVec::new())
    }

    /// Appends a byte.
    pub(super) fn push(&mut self, byte: u8)
        ensures { (line : List ℕ) → IsBuffered line self.old
            → IsBuffered (line ++ byte ∷ []) self.new }
    {
        if let LineBuffer::Short(bytes) = self {
            if bytes.try_push(byte).is_err() {
                *self = LineBuffer::Long;
            }
        }
    }

    /// Reads the command of the line, or returns `None` if it is a bad line.
    pub(super) fn command(&self) -> Option<Command<u32>>
        ensures { (line : List ℕ) → IsBuffered line self.now
            → MatchOption result (IsBadLine line) (IsCommand line) }
    {
        match self {
            LineBuffer::Short(bytes) => command_of(bytes),
            LineBuffer::Long => None,
        }
    }

    /// Returns whether the line has no byte.
    pub(super) fn is_empty(&self) -> bool
        ensures { (line : List ℕ) → IsBuffered line self.now → (IsTrue result ↔ (line ≡ [])) }
    {
        match self {
            LineBuffer::Short(bytes) => bytes.is_empty(),
            LineBuffer::Long => false,
        }
    }
}
