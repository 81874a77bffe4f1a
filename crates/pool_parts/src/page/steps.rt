//! The steps on the words of a page or of a fixed pool, and the move of a value out and back.
//!
//! A value lies in its place while its bit is set, and one step changes a bit. The prover tells
//! another step or order, by the page's rule; `ci/stopped` stops threads between the steps.
ghost use Rattle.std.specs.Prelude.{◌≡◌, ◌<◌, ◌≤◌, [], ◌∷◌, Some, None, MatchOption, false, ◌*◌, ◌+◌};
ghost use Rattle.pool_parts.specs.declared.page.history.Operation.TheVariants.{Return};

use super::holding::Holding;
use super::items::Items;
use super::rule::{ClearBit, Count, Look, LookAgain, SetBit};
use super::user_view::UserSeat;
use super::word::{PAGE_ITEMS, PageId, count_of, low_half, with_bit};
use crate::clean::Clean;

impl<T, K: Clean<T>> Items<T, K> {
    ghost use Rattle.pool_parts.specs.Page.{view_of};
    ghost use Rattle.pool_parts.specs.PageItems.{items_view};
    ghost use Rattle.pool_parts.specs.PageRule.{Loads, Counts, MayTake, Misses, TakesOne, GoesOn};
    ghost use Rattle.pool_parts.specs.Item.{new_user};
    ghost use Rattle.pool_parts.specs.Ledger.{EachReturned};

    /// Reads the bits of a word, by a new user, which then knows the items of it that are in use.
    pub fn look(&self, page: usize) -> (u32, UserSeat<T>)
        requires { page < (items_view self.now).identity.words }
        ensures items { result.1.table_id ≡ (items_view self.now).identity }
        ensures found { Loads page (new_user (items_view self.now).opening result.1.me.0.user, [])
            result.0 result.1.me }
        ensures carries_none { result.1.me.1 ≡ [] }
    {
        let (word, seat) = self.table.shared.load_new_seat::<Look>(page);
        (low_half(word), seat)
    }

    /// Reads the bits of a word, by a user that knows something of the items already.
    pub fn look_again(&self, seat: &mut UserSeat<T>, page: usize) -> u32
        requires items { seat.old.table_id ≡ (items_view self.now).identity }
        requires in_items { page < (items_view self.now).identity.words }
        requires here { seat.old.me.0.retired ≡ false }
        ensures items { seat.new.table_id ≡ seat.old.table_id }
        ensures found { Loads page seat.old.me result seat.new.me }
    {
        low_half(self.table.shared.load::<LookAgain>(seat, page))
    }

    /// Reads the bits and the count of a further word, by the same user.
    pub fn count(&self, seat: &mut UserSeat<T>, page: usize) -> (u32, u32)
        requires items { seat.old.table_id ≡ (items_view self.now).identity }
        requires in_items { page < (items_view self.now).identity.words }
        requires counts { (items_view self.now).raise ≡ 1 }
        requires here { seat.old.me.0.retired ≡ false }
        ensures items { seat.new.table_id ≡ seat.old.table_id }
        ensures found { Counts (items_view self.now).identity.slots page seat.old.me result.0
            result.1 seat.new.me }
    {
        let word = self.table.shared.load::<Count>(seat, page);
        (low_half(word), count_of(word))
    }

    /// Clears one bit. If it was set, it takes the value of that item out, and returns the bits of
    /// the word that stay set.
    pub fn clear(&self, seat: &mut UserSeat<T>, page: usize, bit: PageId) -> Option<(T, usize)>
        requires items { seat.old.table_id ≡ (items_view self.now).identity }
        requires in_items { page < (items_view self.now).identity.words }
        requires in_word { bit < 32 }
        requires holds_none { seat.old.me.0.held ≡ None }
        requires here { seat.old.me.0.retired ≡ false }
        ensures items { seat.new.table_id ≡ seat.old.table_id }
        ensures outcome { MatchOption result (Misses (32 * page + bit) seat.old.me seat.new.me)
            (λ taken. TakesOne K.meets (items_view self.now).identity.slots (32 * page + bit)
            taken.0 None seat.old.me seat.new.me × (seat.new.me.0.loads ≡ seat.old.me.0.loads)
            × (seat.new.me.0.tries ≡ seat.old.me.0.tries + 1)) }
    {
        let words = &self.table.shared;
        let others = u64::MAX & !(1 << bit);
        let found = words.fetch_and::<ClearBit<K>>(seat, page, others);
        if found >> bit & 1 == 0 {
            return None;
        }
        match words.exchange(seat, PAGE_ITEMS * page + bit as usize, None) {
            Some(value) => Some((value, low_half(found & others) as usize)),
            None => unreachable!(),
        }
    }

    /// Moves the value back, then sets its bit and raises its word's count in one step. It returns
    /// whether no other bit of the word was set.
    ///
    /// The bit of an item in use is clear, so adding it sets it. An addition that returns the old
    /// word is one locked instruction, while an `or` that does is a loop.
    pub fn give(&self, holding: Holding<T>, value: T, raise: u64) -> (UserSeat<T>, bool)
        requires items { holding.seat.table_id ≡ (items_view self.now).identity }
        requires in_items { holding.number < (items_view self.now).identity.slots }
        requires meets { K.meets value }
        requires raise { (raise ≡ (items_view self.now).raise) × (raise ≤ 1) }
        ensures items { result.0.table_id ≡ holding.seat.table_id }
        ensures may_take { MayTake result.0.me }
        ensures returned { GoesOn (Return result.0.me.0.user holding.number value ∷ [])
            (view_of holding.seat) result.0.me.0 }
        ensures each_returned { EachReturned K.meets result.0.me.0.operations }
    {
        let words = &self.table.shared;
        let Holding { mut seat, number } = holding;
        match words.exchange(&mut seat, number, Some(value)) {
            None => {}
            Some(_) => unreachable!(),
        }
        let bit = with_bit(0, (number % PAGE_ITEMS) as PageId);
        let added = (raise << 32) + bit as u64;
        let word = words.fetch_add::<SetBit<K>>(&mut seat, number / PAGE_ITEMS, added);
        (seat, low_half(word) == 0)
    }
}
