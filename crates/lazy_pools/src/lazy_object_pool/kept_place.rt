//! The condition of the places of a lazy pool: empty, or with a value that was made by an
//! initializer or left by a reset.
ghost use Rattle.std.specs.Prelude.{IfSome};
ghost use Rattle.pool_parts.specs.Answers.{IsMadeOrReset};

use pool_parts::clean::Clean;
use pool_parts::closures::{Init, Reset};
use std::marker::PhantomData;

/// What may lie at a place: nothing, or a value that meets `K` and is an answer that an initializer
/// of type `I` may give or what a reset of type `R` may leave. Contracts alone name it.
pub struct KeptPlace<I, R, K> {
    init: PhantomData<I>,
    reset: PhantomData<R>,
    condition: PhantomData<K>,
}

impl<T, I: Init<T, K>, R: Reset<T, K>, K: Clean<T>> Clean<Option<T>> for KeptPlace<I, R, K> {
    ghost meets = { λ place.
        IfSome place (λ value. K.meets value × IsMadeOrReset I.answers R.leaves value) };
}
