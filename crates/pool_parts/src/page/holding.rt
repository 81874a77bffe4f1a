//! What a user has that took an item.
ghost use Rattle.std.specs.Prelude.{◌≡◌, [], ◌∷◌, Some, None, false};
ghost use Rattle.pool_parts.specs.Item.{same_holding, same_carrying};

use super::items::Items;
use super::note::Witness;
use super::user_view::UserSeat;
use crate::clean::Clean;

/// The number of an item that was taken, and the seat of the user that has it.
#[derive(Drop)]
pub struct Holding<T> {
    pub seat: UserSeat<T>,
    /// A whole word, so that an item on its way up is moved by words.
    pub number: usize,
    ghost here: { seat.me.0.retired ≡ false },
    ghost holds: { seat.me.0.held ≡ Some number } by { same_holding _ _ },
    ghost carries: { seat.me.1 ≡ (number, None) ∷ [] } by { same_carrying T.code _ _ },
}

/// An item that was pulled, with its value, before it is known how the pool is held. The value may
/// be another than what lay in the item's place.
#[derive(Drop)]
pub struct PulledItem<T, V = T> {
    pub holding: Holding<T>,
    pub value: V,
}

impl<T> Holding<T> {
    ghost use Rattle.pool_parts.specs.Page.{view_of};
    ghost use Rattle.pool_parts.specs.PageItems.{items_view};

    /// Returns a witness of what the holder knows.
    pub fn witness<K: Clean<T>>(&mut self, items: &Items<T, K>) -> Witness<T>
        requires { self.old.seat.table_id ≡ (items_view items.now).identity }
        ensures page { result.seat.table_id ≡ self.old.seat.table_id }
        ensures history { (view_of result.seat).operations ≡ (view_of self.old.seat).operations }
        ensures same_page { self.new.seat.table_id ≡ self.old.seat.table_id }
        ensures same_view { view_of self.new.seat ≡ view_of self.old.seat }
        ensures same_number { self.new.number ≡ self.old.number }
    {
        items.witness(&mut self.seat)
    }
}
