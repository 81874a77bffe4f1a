//! A thread whose page comes too late: its page is dropped, and it goes on to the page that is
//! linked.
use super::*;
use crate::assert_equal::assert_equal;
use std::sync::Arc;
use std::sync::atomic::AtomicUsize;
use std::sync::atomic::Ordering::SeqCst;
use std::thread;
use std::thread::Threads;
use test_values::tallied::Tallied;
use test_values::tally::{Tally, new_tally};

/// A thread that still waits after so many turns gives up, and its test fails.
const MOST_TURNS: u32 = 10_000_000;

type TalliedPage<'c> = LinearPage<'c, Tallied, AnyValue>;

/// How far the two threads of a race are.
#[derive(Drop)]
struct Race {
    tally: Arc<Tally>,
    winners: AtomicUsize,
}

impl Race {
    /// Whether the other thread came so far: the winner's page is linked, or the loser makes the
    /// first item of its page, behind the chain's first 32.
    fn wait_for(&self, is_winner: bool) -> bool {
        for _ in 0..MOST_TURNS {
            if is_winner && self.winners.load(SeqCst) > 0 || !is_winner && self.tally.calls() > 32 {
                return true;
            }
            thread::yield_now();
        }
        false
    }

    /// An item of the loser's page, which is made once the winner is done.
    fn make_late(&self) -> Option<Tallied> {
        let item = Tallied::new(&self.tally);
        if self.wait_for(true) { item } else { None }
    }
}

/// What becomes of two threads that link a page behind one, of which the first comes too late: how
/// many values were made and dropped, the ids that each of the two pages that they come to gives
/// first, and whether the winner's is the last.
fn run<R: Threads + Sync>(
    rt: &R,
    page: &TalliedPage<'_>,
    race: &Race,
) -> Option<((usize, usize), (Option<u8>, Option<u8>), bool)> {
    let (lost, won) = thread::join(
        rt,
        || behind_full(page, &|| race.make_late()),
        || {
            if !race.wait_for(false) {
                return None;
            }
            let next = behind_full(page, &|| Tallied::new(&race.tally));
            race.winners.fetch_add(1, SeqCst);
            next
        },
    );
    let (lost, won) = (lost?, won?);
    let counts = race.tally.now();
    let ids = (first_id(&lost), first_id(&won));
    Some((counts, ids, won.next().is_none()))
}

#[test]
fn a_page_that_comes_too_late_is_dropped(rt: HostRuntime) {
    let race = Race {
        tally: new_tally(rt.alloc()).expect(&rt, "memory is left"),
        winners: AtomicUsize::new(0),
    };
    let made = Chain::new(rt.alloc(), &|| Tallied::new(&race.tally));
    let chain = made.expect(&rt, "a chain is made");
    let first = chain.first();
    forget_all(&rt, &first);
    assert_equal(
        &rt,
        run(&rt, &first, &race),
        Some(((96, 32), (Some(0), Some(1)), true)),
    );
}
