//! The pure steps on the word of a page: it has a bit for each item, which is set if the item is
//! free, and may have a count above them.
//!
//! The clauses say each result exactly, so the prover tells a change.
ghost use Rattle.std.specs.Prelude.{◌≡◌, ℕ, ◌==◌, ◌-◌, ◌^◌, ◌<◌, ◌↔◌, IsTrue, IsNone, IfSome, bit_and, bit_or, ◌/◌};
ghost use Rattle.std.specs.Int.{w32, bit_at, bit_not};
ghost use Rattle.pool_parts.specs.Word.{IsLeastBit, SetsBit, ClearsBit};
ghost use Rattle.pool_parts.specs.declared.page.word.TheConstants.{PAGE_ITEMS};

/// The number of an item in its page, below 32.
pub type PageId = u8;

/// How many items a page has.
pub const PAGE_ITEMS: usize = 32;

/// Clears the lowest set bit of a word, and returns the rest with that bit's place. `None` if no
/// bit is set.
pub fn take_least(word: u32) -> Option<(u32, PageId)>
    ensures none { IsNone result ↔ (word ≡ 0) }
    ensures least { IfSome result (λ taken. IsLeastBit word taken.1) }
    ensures rest { IfSome result (λ taken. ClearsBit word taken.1 taken.0) }
    ensures value { IfSome result (λ taken. taken.0 ≡ bit_and word (word - 1)) }
{
    if word == 0 {
        return None;
    }
    Some((word & (word - 1), word.trailing_zeros() as PageId))
}

/// Returns the word with one bit set.
pub fn with_bit(word: u32, id: PageId) -> u32
    requires { id < PAGE_ITEMS }
    ensures bits { SetsBit word id result }
    ensures value { result ≡ bit_or word (2 ^ id) }
{
    word | 1 << id
}

/// Returns the word with one bit clear.
pub fn without_bit(word: u32, id: PageId) -> u32
    requires { id < PAGE_ITEMS }
    ensures bits { ClearsBit word id result }
    ensures value { result ≡ bit_and word (bit_not w32 (2 ^ id)) }
{
    word & !(1 << id)
}

/// Returns whether the bit is set.
pub fn has_bit(word: u32, id: PageId) -> bool
    requires { id < PAGE_ITEMS }
    ensures bits { IsTrue result ↔ (bit_at word id ≡ 1) }
    ensures value { result ≡ (bit_at word id == 1) }
{
    word >> id & 1 == 1
}

/// Returns whether no bit is set.
pub(super) fn is_none_free(word: u32) -> bool
    ensures { IsTrue result ↔ (word ≡ 0) }
{
    word == 0
}

/// Returns the lower half of a word: the bits of its items, without the count above them.
pub(super) fn low_half(word: u64) -> u32
    ensures { (i : ℕ) → i < 32 → bit_at result i ≡ bit_at word i }
{
    (word & u32::MAX as u64) as u32
}

/// Returns the count in the upper half of a word.
pub(super) fn count_of(word: u64) -> u32
    ensures { result ≡ (word / 2 ^ 32) }
{
    (word >> 32) as u32
}
