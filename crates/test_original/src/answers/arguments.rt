//! What the program is told by its arguments.

/// The pool that the calls are done on.
#[derive(Clone, Copy)]
pub enum Kind {
    Linear,
    Mutex,
    SpinLock,
    None,
}

/// The pool, and whether a reset clears what was written.
#[derive(Clone, Copy)]
pub struct Arguments {
    pub kind: Kind,
    pub clears: bool,
}

/// Reads the arguments from the words after the program's name.
pub fn arguments_of(words: &[&str]) -> Option<Arguments> {
    let [kind, reset] = words else {
        return None;
    };
    let kind = match *kind {
        "linear" => Kind::Linear,
        "mutex" => Kind::Mutex,
        "spin_lock" => Kind::SpinLock,
        "none" => Kind::None,
        _ => return None,
    };
    let clears = match *reset {
        "clear" => true,
        "keep" => false,
        _ => return None,
    };
    Some(Arguments { kind, clears })
}
