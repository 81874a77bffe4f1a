//! The calls of a replay, one a line.

/// Where a new item that is held comes from.
#[derive(Clone, Copy)]
pub enum Origin {
    /// It is pulled.
    Pool,
    /// It is attached, and has this number.
    Caller(u64),
}

/// A call. Items that are held are named by their places in a list, to which each that comes is
/// added last; where one goes, the last takes its place.
#[derive(Clone, Copy)]
pub enum Call {
    /// An item comes under a borrow of the pool.
    Borrow(Origin),
    /// An item comes with an owner of the pool.
    Own(Origin),
    Write { place: usize, content: u64 },
    Drop(usize),
    Forget(usize),
}

/// Reads the call that a line writes.
pub fn call_of(words: &[&str]) -> Option<Call> {
    match words {
        ["pull"] => Some(Call::Borrow(Origin::Pool)),
        ["pull_owned"] => Some(Call::Own(Origin::Pool)),
        [word, number] => call_with(word, number.parse().ok()?),
        ["write", place, content] => Some(Call::Write {
            place: place.parse().ok()?,
            content: content.parse().ok()?,
        }),
        _ => None,
    }
}

/// The call of a word and a number.
fn call_with(word: &str, number: u64) -> Option<Call> {
    match word {
        "attach" => Some(Call::Borrow(Origin::Caller(number))),
        "attach_owned" => Some(Call::Own(Origin::Caller(number))),
        "drop" => Some(Call::Drop(number as usize)),
        "forget" => Some(Call::Forget(number as usize)),
        _ => None,
    }
}
