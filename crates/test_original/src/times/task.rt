//! What is measured: which pool, at which work, how often.
use std::fmt;

/// The pool that is measured.
#[derive(Clone, Copy, Debug, PartialEq, Eq)]
pub enum Kind {
    Linear,
    SpinLock,
    Mutex,
    Fixed,
    /// The fixed pool, of whose threads each begins at a page of its own.
    FixedNear,
    Lazy,
    /// The lazy pool, by pulls that wait.
    LazyWait,
}

/// What is done to the pool, turn by turn.
#[derive(Clone, Copy, Debug)]
pub enum Work {
    /// An item is pulled and dropped, while so many others are held.
    Pull { held: usize },
    /// The same with owned items.
    PullOwned { held: usize },
    /// So many threads pull and drop, each in all turns, while so many other items are held.
    Share { threads: usize, held: usize },
    /// An item is pulled and held.
    Hold,
    /// A pull is refused, since each item of a fixed pool is held.
    Refuse,
    /// So many threads wait for so few items of a lazy pool, each in all turns.
    Wait { threads: usize, items: usize },
    /// So many threads pull and drop, each in all turns by a worker of its own.
    Worker { threads: usize },
}

/// A measurement.
#[derive(Clone, Copy, Debug)]
pub struct Task {
    pub kind: Kind,
    pub work: Work,
    pub turns: u64,
}

impl fmt::Display for Kind {
    fn fmt<W: fmt::Write>(&self, f: &mut fmt::Formatter<W>) -> fmt::Result {
        match self {
            Kind::Linear => write!(f, "linear"),
            Kind::SpinLock => write!(f, "spin_lock"),
            Kind::Mutex => write!(f, "mutex"),
            Kind::Fixed => write!(f, "fixed"),
            Kind::FixedNear => write!(f, "fixed_near"),
            Kind::Lazy => write!(f, "lazy"),
            Kind::LazyWait => write!(f, "lazy_wait"),
        }
    }
}

impl fmt::Display for Work {
    fn fmt<W: fmt::Write>(&self, f: &mut fmt::Formatter<W>) -> fmt::Result {
        match self {
            Work::Pull { held } => write!(f, "pull {held}"),
            Work::PullOwned { held } => write!(f, "pull_owned {held}"),
            Work::Share { threads, held } => write!(f, "share {threads} {held}"),
            Work::Hold => write!(f, "hold"),
            Work::Refuse => write!(f, "refuse"),
            Work::Wait { threads, items } => write!(f, "wait {threads} {items}"),
            Work::Worker { threads } => write!(f, "worker {threads}"),
        }
    }
}

/// The words that ask for the task.
impl fmt::Display for Task {
    fn fmt<W: fmt::Write>(&self, f: &mut fmt::Formatter<W>) -> fmt::Result {
        let Task { kind, work, turns } = self;
        write!(f, "{kind} {work} {turns}")
    }
}

/// Reads the task that words ask for. Refused pulls are for the fixed pool only, waiting is for the
/// lazy pool, and workers are of the linear, the fixed and the lazy pool.
pub fn task_of(words: &[&str]) -> Option<Task> {
    let [kind, work @ .., turns] = words else {
        return None;
    };
    let (kind, work) = (kind_of(kind)?, work_of(work)?);
    let is_asked = match work {
        Work::Refuse => kind == Kind::Fixed,
        Work::Wait { threads: _, items } => kind == Kind::LazyWait && items > 0,
        Work::Worker { threads: _ } => matches!(kind, Kind::Linear | Kind::Fixed | Kind::Lazy),
        _ => true,
    };
    if !is_asked {
        return None;
    }
    Some(Task {
        kind,
        work,
        turns: turns.parse().ok()?,
    })
}

fn kind_of(word: &str) -> Option<Kind> {
    match word {
        "linear" => Some(Kind::Linear),
        "spin_lock" => Some(Kind::SpinLock),
        "mutex" => Some(Kind::Mutex),
        "fixed" => Some(Kind::Fixed),
        "fixed_near" => Some(Kind::FixedNear),
        "lazy" => Some(Kind::Lazy),
        "lazy_wait" => Some(Kind::LazyWait),
        _ => None,
    }
}

fn work_of(words: &[&str]) -> Option<Work> {
    match words {
        ["hold"] => Some(Work::Hold),
        ["refuse"] => Some(Work::Refuse),
        [word, count] => work_of_count(word, count.parse().ok()?),
        [word, threads, count] => work_of_threads(word, threads.parse().ok()?, count.parse().ok()?),
        _ => None,
    }
}

/// The work that a word names, by one thread while so many items are held, or by so many workers.
fn work_of_count(word: &str, count: usize) -> Option<Work> {
    match word {
        "pull" => Some(Work::Pull { held: count }),
        "pull_owned" => Some(Work::PullOwned { held: count }),
        "worker" => Some(Work::Worker { threads: count }),
        _ => None,
    }
}

/// The work of so many threads that a word names, with the number behind theirs.
fn work_of_threads(word: &str, threads: usize, count: usize) -> Option<Work> {
    match word {
        "share" => Some(Work::Share {
            threads,
            held: count,
        }),
        "wait" => Some(Work::Wait {
            threads,
            items: count,
        }),
        _ => None,
    }
}
