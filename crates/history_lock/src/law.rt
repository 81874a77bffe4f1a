//! Which operations a lock's history may have, and what they leave.

/// Which value a history leaves, where the last operation stands first.
pub trait Law<T, E> {
    ghost use Rattle.std.specs.Prelude.{List};

    /// Whether these operations may leave this value.
    ghost leaves: { List E → T → Type 0 };
}

/// A kind of critical section.
pub trait Section<T, E> {
    ghost use Rattle.std.specs.Prelude.{List};

    /// The operation that it adds to a history, when it leaves this value.
    ghost adds: { List E → T → E };
}
