//! What a player can be asked to do.

/// A command to a player. A holder is named by its index, which counts the pulls and attaches that
/// succeeded, from 0.
///
/// # Examples
///
/// ```rust
/// player.play(Command::Write(0, 5))?;
/// assert_eq!(rt; player.held(0), Some(&5));
/// ```
#[derive(Debug, PartialEq, Eq, Drop)]
pub enum Command<T> {
    /// An item is pulled.
    Pull,
    /// The holder's value becomes this one.
    Write(usize, T),
    /// The holder returns its item.
    Return(usize),
    /// The holder's item never goes back: its value is dropped without a reset, and its number
    /// stays out.
    Forget(usize),
    /// An item is made of this value.
    Attach(T),
}
