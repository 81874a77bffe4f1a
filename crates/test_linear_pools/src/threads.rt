//! Threads that share a linear pool, and play rows beside the one that opened it. Each comes to where
//! all meet once more at its end.
use crate::opened::opened;
use crate::player::{LinearPlayer, Pool};
use rows::row::{Difference, first_difference};
use rows::setting::Setting;
use rows::threads::{Table, joined, started};
use std::alloc::Global;
use std::process::Abort;
use std::sync::Arc;
use std::thread::Threads;
use test_values::counted::NEVER;

/// Commands and their answers.
type Row = (&'static str, &'static str);

/// A pool, and what each thread plays on it.
#[derive(Drop)]
struct Shared {
    pool: Arc<Pool>,
    setting: Arc<Setting>,
    alloc: Global,
    row: Row,
}

impl Table for Shared {
    fn play(&self, index: usize) -> Option<Difference> {
        let player = LinearPlayer::new(self.alloc, &self.pool, &self.setting, 40);
        let Ok(mut player) = player else {
            return Some(Difference::BadRow("no memory"));
        };
        player.mark = index.wrapping_add(1);
        let found = first_difference(&mut player, self.row.0, self.row.1);
        self.setting.come();
        found
    }
}

/// One who opens a pool with this limit plays the first row alone and the last one beside so many
/// threads, which play the row between them.
fn play_beside<R: Abort + AllocGlobal + Threads>(
    rt: &R,
    limit: usize,
    threads: usize,
    rows: [Row; 3],
) {
    let alloc = rt.alloc();
    let [first, row, last] = rows;
    let setting = Setting::new(alloc, NEVER).expect(rt, "memory is left");
    let pool = opened(alloc, &setting, limit).expect(rt, "a pool is made");
    let shared = Shared {
        pool: Arc::try_clone(&pool).expect(rt, "memory is left"),
        setting: Arc::try_clone(&setting).expect(rt, "memory is left"),
        alloc,
        row,
    };
    let shared = Arc::new(alloc, shared).expect(rt, "memory is left");
    let player = LinearPlayer::new(alloc, &pool, &setting, 0);
    let mut player = player.expect(rt, "memory is left");
    assert_eq!(*rt; first_difference(&mut player, first.0, first.1), None);
    let others = started(rt, alloc, &shared, threads).expect(rt, "each thread is started");
    assert_eq!(*rt; first_difference(&mut player, last.0, last.1), None);
    assert_eq!(*rt; joined(rt, others), None);
}

#[test]
fn five_threads_hold_the_first_five_items(rt: HostRuntime) {
    let rows = [
        ("limit", "no limit"),
        ("pull; meet 5; until 6", "pulled _ _; met; met"),
        (
            "until 5; pull; counts; meet 6",
            "met; pulled 5 5; calls 32 resets 0 drops 0; met",
        ),
    ];
    play_beside(&rt, 0, 5, rows);
}

#[test]
fn eight_threads_see_reset_values(rt: HostRuntime) {
    let rows = [
        ("zero; pull*64; return 0*64", "set; pulled 0+ 0+; returned"),
        ("often 10000", "wrong 0"),
        ("until 8", "met"),
    ];
    play_beside(&rt, 2, 8, rows);
}

/// Eight items of ten full pages came back. Behind these is a page of free items, for who finds none
/// of the eight. Those that are still out are as they were.
#[test]
fn eight_threads_share_what_ten_full_pages_got_back(rt: HostRuntime) {
    let rows = [
        (
            "zero; pull*352; return 0*352; pull*320; return 0; return 39; return 78; return 117; \
             return 156; return 195; return 234; return 273",
            "set; pulled 0+ 0+; returned; pulled 0+ 0; returned; returned; returned; returned; \
             returned; returned; returned; returned",
        ),
        ("often 10000", "wrong 0"),
        ("until 8; look 0+*312", "met; lies _ 0"),
    ];
    play_beside(&rt, 0, 8, rows);
}

/// They ask for 40 items, and get 32.
#[test]
fn five_threads_share_one_page(rt: HostRuntime) {
    let rows = [
        ("limit", "limit 1"),
        (
            "pull*8; meet 5; until 6",
            "pulled _ _|refused limit; met; met",
        ),
        (
            "until 5; pull; counts; meet 6",
            "met; refused limit; calls 32 resets 0 drops 0; met",
        ),
    ];
    play_beside(&rt, 1, 5, rows);
}

/// The pages that hold their items are linked by all of them at one time. Who comes late takes an
/// item of the page that is there.
#[test]
fn four_threads_make_a_pool_grow_at_one_time(rt: HostRuntime) {
    for _ in 0..50 {
        let rows = [
            ("limit", "no limit"),
            ("meet 4; pull*40", "met; pulled _ _"),
            ("until 8", "met"),
        ];
        play_beside(&rt, 0, 4, rows);
    }
}

/// While a pull makes the third page another thread links one, and takes all of its items but one.
/// The late pull drops the page that it made, and takes that item. A walk led it there, so that
/// page's hint is left over, and the next pull has to pass by it.
#[test]
fn a_page_that_comes_too_late_is_dropped_and_leaves_a_hint(rt: HostRuntime) {
    let rows = [
        ("pull*64; late 64", "pulled 0+ 0+; set"),
        (
            "begun; pull*31; go; until 1",
            "met; pulled 64+ 65+; set; met",
        ),
        (
            "pull; counts; pull*32; pull; counts; meet 1",
            "pulled 95 96; calls 128 resets 0 drops 32; pulled 96+ 128+; refused limit; \
             calls 160 resets 0 drops 32; met",
        ),
    ];
    play_beside(&rt, 4, 1, rows);
}
