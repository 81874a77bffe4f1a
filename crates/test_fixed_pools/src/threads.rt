//! Threads that share a fixed pool, and play rows beside the one that opened it. Each comes to where
//! all meet once more at its end.
ghost use Rattle.std.specs.Prelude.{◌≤◌};

use crate::opened::opened;
use crate::player::{FixedPlayer, Pool};
use rows::row::{Difference, first_difference};
use rows::setting::Setting;
use rows::threads::{Table, joined, started};
use std::alloc::Global;
use std::process::Abort;
use std::sync::Arc;
use std::thread::Threads;
use test_values::counted::NEVER;

/// Commands and their answers.
type Row = (&'static str, &'static str);

/// A pool, and what each thread plays on it.
#[derive(Drop)]
struct Shared {
    pool: Arc<Pool>,
    setting: Arc<Setting>,
    alloc: Global,
    row: Row,
}

impl Table for Shared {
    fn play(&self, index: usize) -> Option<Difference> {
        let player = FixedPlayer::new(self.alloc, &self.pool, &self.setting, 1);
        let Ok(mut player) = player else {
            return Some(Difference::BadRow("no memory"));
        };
        player.mark = index.wrapping_add(1_000);
        let found = first_difference(&mut player, self.row.0, self.row.1);
        self.setting.come();
        found
    }
}

/// One who opens a pool of so many items plays the first row alone and the last one beside so many
/// threads, which play the row between them.
fn play_beside<R: Abort + AllocGlobal + Threads>(
    rt: &R,
    items: usize,
    threads: usize,
    rows: [Row; 3],
)
    requires { 1 ≤ items }
{
    let alloc = rt.alloc();
    let [first, row, last] = rows;
    let setting = Setting::new(alloc, NEVER).expect(rt, "memory is left");
    let pool = opened(alloc, &setting, items).expect(rt, "a pool is made");
    let shared = Shared {
        pool: Arc::try_clone(&pool).expect(rt, "memory is left"),
        setting: Arc::try_clone(&setting).expect(rt, "memory is left"),
        alloc,
        row,
    };
    let shared = Arc::new(alloc, shared).expect(rt, "memory is left");
    let player = FixedPlayer::new(alloc, &pool, &setting, items);
    let mut player = player.expect(rt, "memory is left");
    assert_eq!(*rt; first_difference(&mut player, first.0, first.1), None);
    let others = started(rt, alloc, &shared, threads).expect(rt, "each thread is started");
    assert_eq!(*rt; first_difference(&mut player, last.0, last.1), None);
    assert_eq!(*rt; joined(rt, others), None);
}

#[test]
fn five_threads_hold_the_first_five_items(rt: HostRuntime) {
    let rows = [
        ("items", "items 33"),
        ("pull; meet 5; until 6", "pulled _ _; met; met"),
        ("until 5; pull; meet 6", "met; pulled 5 5; met"),
    ];
    play_beside(&rt, 33, 5, rows);
}

#[test]
fn four_threads_are_refused_while_all_is_held(rt: HostRuntime) {
    let rows = [
        ("pull*33", "pulled 0+ 0+"),
        ("pull*1000", "refused limit"),
        ("until 4; return 0*33; pull*33", "met; returned; pulled _ _"),
    ];
    play_beside(&rt, 33, 4, rows);
}

/// Each has its item alone, and all come back.
#[test]
fn eight_threads_share_two_items(rt: HostRuntime) {
    let rows = [
        ("items", "items 2"),
        ("often 5000", "wrong 0"),
        ("until 8; pull*2", "met; pulled 0+ _"),
    ];
    play_beside(&rt, 2, 8, rows);
}

#[test]
fn eight_threads_share_seventy_items(rt: HostRuntime) {
    let rows = [
        ("items", "items 70"),
        ("often 5000", "wrong 0"),
        ("until 8; pull*70", "met; pulled 0+ _"),
    ];
    play_beside(&rt, 70, 8, rows);
}

/// As many threads as items, each of which pulls one item at a time: at each moment an item is free
/// for the thread that pulls, so none is refused.
fn none_is_refused<R: Abort + AllocGlobal + Threads>(rt: &R, count: usize, commands: &'static str)
    requires { 1 ≤ count }
{
    let rows = [("place", ".."), (commands, "refused 0"), ("place", "..")];
    play_beside(rt, count, count, rows);
}

#[test]
fn two_threads_are_never_refused_of_two_items(rt: HostRuntime) {
    none_is_refused(&rt, 2, "each_way 50000");
}

#[test]
fn three_threads_are_never_refused_of_three_items(rt: HostRuntime) {
    none_is_refused(&rt, 3, "each_way 50000");
}

#[test]
fn four_threads_are_never_refused_of_four_items(rt: HostRuntime) {
    none_is_refused(&rt, 4, "each_way 50000");
}

#[test]
fn eight_threads_are_never_refused_of_eight_items(rt: HostRuntime) {
    none_is_refused(&rt, 8, "each_way 20000");
}

#[test]
fn thirty_two_threads_are_never_refused_of_a_full_word(rt: HostRuntime) {
    none_is_refused(&rt, 32, "each_way 5000");
}

#[test]
fn thirty_three_threads_are_never_refused_of_two_words(rt: HostRuntime) {
    none_is_refused(&rt, 33, "each_way 5000");
}

#[test]
fn sixty_four_threads_are_never_refused_of_two_full_words(rt: HostRuntime) {
    none_is_refused(&rt, 64, "each_way 2000");
}
