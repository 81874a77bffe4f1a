//! How the holders of two items find that they have two items: each is introduced to the other.
ghost use Rattle.std.specs.Prelude.{◌≡◌, ◌≢◌, Some, false};

use super::holding::Holding;
use super::items::Items;
use super::rule::{Introduces, Meet, Tells};
use super::user_view::UserSeat;
use crate::clean::Clean;

impl<T, K: Clean<T>> Items<T, K> {
    ghost use Rattle.pool_parts.specs.PageItems.{items_view};
    ghost use Rattle.pool_parts.specs.PageRule.{Meets};
    ghost use Rattle.pool_parts.specs.Page.{HoldsSame};

    /// Reads a word by a user, which is told the history so far.
    fn meet(&self, seat: &mut UserSeat<T>)
        requires items { seat.old.table_id ≡ (items_view self.now).identity }
        requires here { seat.old.me.0.retired ≡ false }
        ensures items { seat.new.table_id ≡ seat.old.table_id }
        ensures met { Meets seat.old.me seat.new.me }
    {
        self.table.shared.load::<Meet>(seat, 0);
    }

    /// Introduces one user to another, which then reads a word.
    fn introduce(&self, one: &mut UserSeat<T>, other: &mut UserSeat<T>)
        requires one { one.old.table_id ≡ (items_view self.now).identity }
        requires other { other.old.table_id ≡ (items_view self.now).identity }
        requires one_here { one.old.me.0.retired ≡ false }
        requires other_here { other.old.me.0.retired ≡ false }
        ensures one { (one.new.table_id ≡ one.old.table_id) × (one.new.me ≡ one.old.me) }
        ensures items { other.new.table_id ≡ other.old.table_id }
        ensures met { Meets (
          record other.old.me.0 {
            merged = one.old.me.0.merged;
            met = Some (one.old.me.0.user, one.old.me.0.meetings);
          },
          other.old.me.1,
        ) other.new.me }
    {
        let introduction = self.table.shared.split_seat::<Introduces>(one);
        self.table.shared.join_seat::<Tells>(other, introduction);
        self.meet(other);
    }

    /// Finds that two holders have two items. It costs seven loads.
    pub fn are_two(&self, one: &mut Holding<T>, other: &mut Holding<T>)
        requires one { one.old.seat.table_id ≡ (items_view self.now).identity }
        requires other { other.old.seat.table_id ≡ (items_view self.now).identity }
        ensures differ { one.old.number ≢ other.old.number }
        ensures same_one { HoldsSame one.old one.new }
        ensures same_other { HoldsSame other.old other.new }
    {
        self.meet(&mut one.seat);
        self.introduce(&mut one.seat, &mut other.seat);
        self.introduce(&mut other.seat, &mut one.seat);
    }
}
