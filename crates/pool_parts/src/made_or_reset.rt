//! The condition of the values that a pool keeps: its initializer may answer them, or its reset may
//! leave them.
ghost use Rattle.pool_parts.specs.Answers.{IsMadeOrReset};

use crate::clean::Clean;
use crate::closures::{Init, Reset};
use std::marker::PhantomData;

/// The values that a pool may keep. Each meets `K`, and an initializer of type `I` may answer it or
/// a reset of type `R` may leave it of some value. Only contracts name it.
pub struct MadeOrReset<I, R, K> {
    init: PhantomData<I>,
    reset: PhantomData<R>,
    condition: PhantomData<K>,
}

impl<T, I: Init<T, K>, R: Reset<T, K>, K: Clean<T>> Clean<T> for MadeOrReset<I, R, K> {
    ghost meets = { λ value. K.meets value × IsMadeOrReset I.answers R.leaves value };
}
