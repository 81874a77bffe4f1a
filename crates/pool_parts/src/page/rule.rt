//! What holds of a page between any two steps, and the kinds of step that keep it.
//!
//! These types are for the proofs alone.
//!
//! A rule that says less lets wrong bodies pass, which the must-fail edits of this crate tell.

use super::user_view::UserView;
use crate::clean::Clean;
use atomic_table::{Join, Play, Split, TableRule};
use std::marker::PhantomData;
use std::snapshot::Snapshot;

/// What a page opened with. It has no bytes.
#[derive(Drop)]
pub struct Opening<T> {
    /// Its values, by number.
    pub values: Snapshot<Vec<Option<T>>>,
    /// By how much a return raises its word's count.
    pub raise: Snapshot<u64>,
}

/// The rule of a page: each free item is at home and meets the condition, each item that is out has
/// one holder at most, and the page stands where one legal history has led.
pub struct PageRule<K> {
    condition: PhantomData<K>,
}

impl<T, K: Clean<T>> TableRule<Option<T>, UserView<T>, Opening<T>> for PageRule<K> {
    ghost use Rattle.pool_parts.specs.Item.{new_user};
    ghost use Rattle.pool_parts.specs.PageRule.{IsKept};

    ghost holds = { λ key. IsKept K.meets key.raise.value key.values.value.items };

    ghost first = { λ key. new_user key.values.value.items 0 };
}

/// A load of one word by a new user, which had known nothing.
pub struct Look;

impl<T> Play<Option<T>, UserView<T>> for Look {
    ghost use Rattle.std.specs.Prelude.{[]};
    ghost use Rattle.pool_parts.specs.PageRule.{Loads};

    ghost then = { λ step first word new.
        Loads step.word (record first.0 { user = new.0.user }, []) word new };
}

/// A load of one word by a user that knows something already: what it finds out from there on
/// starts anew.
pub struct LookAgain;

impl<T> Play<Option<T>, UserView<T>> for LookAgain {
    ghost use Rattle.pool_parts.specs.PageRule.{Loads};

    ghost then = { λ step old word new. Loads step.word old word new };
}

/// A load of a further word by the same call, of words that count their returns.
pub struct Count;

impl<T> Play<Option<T>, UserView<T>> for Count {
    ghost use Rattle.std.specs.Prelude.{◌/◌, ◌^◌};
    ghost use Rattle.pool_parts.specs.PageRule.{Counts};

    ghost then = { λ step old word new.
        Counts step.slots step.word old word (word / 2 ^ 32) new };
}

/// A user leaves a witness of what it knows.
pub struct Witnesses;

impl<T> Split<UserView<T>> for Witnesses {
    ghost use Rattle.std.specs.Prelude.{true};
    ghost use Rattle.pool_parts.specs.Item.{new_user};

    ghost left = { λ known. known };

    ghost right = { λ known.
        record (new_user known.opening 0) { operations = known.operations; retired = true } };
}

/// A user tells another what it knows, and is gone.
pub struct Tells;

impl<T> Join<UserView<T>> for Tells {
    ghost use Rattle.std.specs.Prelude.{[], true};
    ghost use Rattle.pool_parts.specs.Item.{new_user};

    ghost both = { λ known other. record known { merged = other.operations; met = other.met } };

    ghost spent = { record (new_user [] 0) { retired = true } };
}

/// A user introduces itself to another: what it was told, its number, and how often it has met.
pub struct Introduces;

impl<T> Split<UserView<T>> for Introduces {
    ghost use Rattle.std.specs.Prelude.{Some, true};
    ghost use Rattle.pool_parts.specs.Item.{new_user};

    ghost left = { λ known. known };

    ghost right = { λ known.
        record (new_user known.opening 0) {
          operations = known.merged;
          retired = true;
          met = Some (known.user, known.meetings);
        } };
}

/// A load of one word by a user to whom another was introduced.
pub struct Meet;

impl<T> Play<Option<T>, UserView<T>> for Meet {
    ghost use Rattle.pool_parts.specs.PageRule.{Meets};

    ghost then = { λ _ old _ new. Meets old new };
}

/// A step that clears one bit of the word: the one that the operand leaves out. If it was set, the
/// user has its item, whose value is still at home.
pub struct ClearBit<K> {
    condition: PhantomData<K>,
}

impl<T, K: Clean<T>> Play<Option<T>, UserView<T>> for ClearBit<K> {
    ghost use Rattle.std.specs.Prelude.{◌≡◌, ℕ, ◌+◌, ◌-◌, ◌*◌, ◌^◌, ◌<◌, Some};
    ghost use Rattle.std.specs.Int.{bit_at};
    ghost use Rattle.pool_parts.specs.PageRule.{TakesOne, Misses};
    ghost use Rattle.pool_parts.specs.Word.{ClearsBit};

    ghost then = { λ step old word new.
        ((bit : ℕ) → bit < 32 → ClearsBit (2 ^ 64 - 1) bit step.first → bit_at word bit ≡ 1
        → (value : T) × TakesOne K.meets step.slots (32 * step.word + bit) value (Some value) old
        new
        × (new.0.loads ≡ old.0.loads) × (new.0.tries ≡ old.0.tries + 1))
        × ((bit : ℕ) → bit < 32 → ClearsBit (2 ^ 64 - 1) bit step.first → bit_at word bit ≡ 0
        → Misses (32 * step.word + bit) old new) };
}

/// A step that sets one bit of the word, once its value is back home: the user holds nothing any
/// more.
pub struct SetBit<K> {
    condition: PhantomData<K>,
}

impl<T, K: Clean<T>> Play<Option<T>, UserView<T>> for SetBit<K> {
    ghost use Rattle.std.specs.Prelude.{◌≡◌, ℕ, [], ◌∷◌, Some, None};
    ghost use Rattle.atomic_table.specs.Table.{rest};
    ghost use Rattle.pool_parts.specs.Ledger.{EachReturned};
    ghost use Rattle.pool_parts.specs.PageRule.{GoesOn};
    ghost use Rattle.pool_parts.specs.declared.page.history.Operation.TheVariants.{Return};

    ghost then = { λ _ old _ new.
        (new.0.held ≡ None) × (new.1 ≡ rest old.1) × EachReturned K.meets new.0.operations
        × ((id : ℕ) (value : T) → old.0.held ≡ Some id → old.1 ≡ (id, Some value) ∷ []
        → GoesOn (Return new.0.user id value ∷ []) old.0 new.0) };
}
