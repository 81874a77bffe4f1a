//! Worked cases of the mutex pool and the spin lock pool. Each is played on both, with borrowed
//! items and with owned ones.
use crate::stack_player::{Kind, Opened, StackPlayer, UnderMutex, UnderSpinLock};
use crate::values::{Part, Value};
use pool_parts::closures::{Copied, Keep};
use rows::asked_again;
use rows::refusals::Refusals;
use rows::row::Command;
use stack_pools::spin_lock::SpinLock;
use stack_pools::stack::Room;
use stack_pools::{MutexObjectPool, SpinLockObjectPool};
use std::process::Abort;
use std::sync::{Arc, Wait};

/// Plays a row on new pools of a kind, which then end: all is dropped that was made.
fn plays_on<F: Kind<Value, Part, Part>, W: Abort + AllocGlobal + Wait + Copy>(
    rt: W,
    refusals: &Refusals,
    (commands, answers): (&'static str, &'static str),
) {
    for is_owned in [false, true] {
        let opened = asked_again!(&rt, refusals, Opened::<F>::new(rt.alloc(), None));
        let mut player = StackPlayer::new(rt, rt.alloc(), &opened, refusals, is_owned);
        assert!(rt; player.has_room() || player.has_room());
        let found = player.first_difference(commands, answers);
        assert_eq!(rt; (is_owned, found), (is_owned, None));
        drop(player);
        let Opened { pool, book } = opened;
        drop(pool);
        assert_eq!(rt; (book.tally.living(), Arc::strong_count(&book)), (0, 1));
    }
}

/// Plays a row on each kind. Returns whether memory was refused.
fn plays<W: Abort + AllocGlobal + Wait + Copy>(
    rt: W,
    commands: &'static str,
    answers: &'static str,
) -> Refusals {
    let refusals = Refusals::new();
    plays_on::<UnderMutex, W>(rt, &refusals, (commands, answers));
    plays_on::<UnderSpinLock, W>(rt, &refusals, (commands, answers));
    refusals
}

#[test]
fn the_value_that_came_back_last_is_pulled_first(rt: HostRuntime) {
    plays(
        rt,
        "pull; pull; calls; write 0 1; write 1 2; return 0; return 1; pull; pull; calls",
        "pulled 0 0; pulled 1 0; calls 2; reads 0 1; reads 1 2; done; done; pulled 1 2; \
         pulled 0 1; calls 2",
    );
}

#[test]
fn an_attached_nine_comes_again_as_the_zero_that_reset_left(rt: HostRuntime) {
    plays(
        rt,
        "zero 1; attach 9; read 0; return 0; pull; calls",
        "done; attached 0 9; reads 0 9; done; pulled 0 0; calls 0",
    );
}

#[test]
fn an_attached_nine_comes_again_where_reset_keeps_it(rt: HostRuntime) {
    plays(
        rt,
        "attach 9; return 0; pull; calls",
        "attached 0 9; done; pulled 0 9; calls 0",
    );
}

#[test]
fn two_held_items_take_two_calls_of_init(rt: HostRuntime) {
    plays(rt, "pull; pull; calls", "pulled 0 0; pulled 1 0; calls 2");
}

#[test]
fn a_written_five_comes_again_where_reset_keeps_it(rt: HostRuntime) {
    plays(
        rt,
        "pull; return 0; pull; write 1 5; return 1; pull; calls",
        "pulled 0 0; done; pulled 0 0; reads 0 5; done; pulled 0 5; calls 1",
    );
}

#[test]
fn an_item_is_reset_to_zero_twice(rt: HostRuntime) {
    plays(
        rt,
        "zero 1; pull; write 0 1; return 0; pull; write 1 1; return 1; pull; calls",
        "done; pulled 0 0; reads 0 1; done; pulled 0 0; reads 0 1; done; pulled 0 0; calls 1",
    );
}

#[test]
fn a_pull_that_init_refused_once_is_met_then(rt: HostRuntime) {
    plays(
        rt,
        "refuse 0; pull; calls; refuse 1; pull_after; calls; refuse 2; renew; calls; owners; pull; \
         calls",
        "done; refused init; calls 1; done; refused init; calls 2; done; refused init; calls 3; \
         owners 1; pulled 0 0; calls 4",
    );
}

/// A filling that is refused keeps what it made.
#[test]
fn a_filled_pool_gives_what_it_made(rt: HostRuntime) {
    plays(
        rt,
        "kept; fill 40; fill 0; kept; pull; pull; kept; counts; return 0; kept; calls; refuse 43; \
         fill 5; kept; calls; counts; fill 2; kept; calls; counts; pull",
        "keeps 0; done; done; keeps 40; pulled 39 0; pulled 38 0; keeps 38; \
         made reset dropped 40 0 0; done; keeps 39; calls 40; done; refused init; keeps 42; \
         calls 44; made reset dropped 43 1 0; done; keeps 44; calls 46; \
         made reset dropped 45 1 0; pulled 44 0",
    );
}

/// One item is out while the pool is cleared, and comes back.
#[test]
fn a_cleared_pool_drops_what_it_keeps(rt: HostRuntime) {
    plays(
        rt,
        "fill 70000; kept; counts; pull; kept; clear; kept; counts; return 0; kept; counts; pull; \
         pull; return 2; clear; clear; kept; counts",
        "done; keeps 70000; made reset dropped 70000 0 0; pulled 69999 0; keeps 69999; done; \
         keeps 0; made reset dropped 70000 0 69999; done; keeps 1; \
         made reset dropped 70000 1 69999; pulled 69999 0; pulled 70000 0; done; done; done; \
         keeps 0; made reset dropped 70001 2 70000",
    );
}

#[test]
fn a_detached_value_leaves_its_pool(rt: HostRuntime) {
    plays(
        rt,
        "zero 1; fill 2; pull; write 0 5; detach 0; pull; write 1 6; detach 1; kept; owners; \
         counts; pull",
        "done; done; pulled 1 0; reads 1 5; detached 1 5; pulled 0 0; reads 0 6; detached 0 6; \
         keeps 0; owners 1; made reset dropped 2 0 2; pulled 2 0",
    );
}

/// It was pulled, or attached.
#[test]
fn a_rejected_value_is_dropped(rt: HostRuntime) {
    plays(
        rt,
        "fill 2; pull; reject 1; return 0; kept; counts; attach 3; return 1; kept; counts; \
         reject 0; pull; return 2; kept; counts; attach 4; return 3; kept; pull; counts",
        "done; pulled 1 0; done; done; keeps 1; made reset dropped 2 1 1; attached 2 3; done; \
         keeps 1; made reset dropped 3 2 2; done; pulled 0 0; done; keeps 1; \
         made reset dropped 3 3 2; attached 3 4; done; keeps 2; pulled 3 4; \
         made reset dropped 4 4 2",
    );
}

/// The numbers are those round the ends of words, and past what a word of 16 bits counts.
#[test]
fn stacks_keep_values_of_each_number(rt: HostRuntime) {
    plays(
        rt,
        "fill 2047; kept; fill 1; kept; clear; fill 65535; kept; fill 1; kept; fill 65536; kept; \
         clear; kept; fill 131072; kept",
        "done; keeps 2047; done; keeps 2048; done; done; keeps 65535; done; keeps 65536; done; \
         keeps 131072; done; keeps 0; done; keeps 131072",
    );
}

/// Items come back while a pull beside them is refused, then one that was attached, and the pool
/// ends then.
#[test]
fn items_that_came_back_let_their_pool_end(rt: HostRuntime) {
    plays(
        rt,
        "refuse 2; pull; pull; pull; return 0; return 1; calls; counts; owners; attach 3; \
         give_back 2; counts; owners",
        "done; pulled 0 0; pulled 1 0; refused init; done; done; calls 3; \
         made reset dropped 2 2 0; owners 1; attached 2 3; done; made reset dropped 3 3 0; \
         owners 1",
    );
}

/// A pull that is refused hasn't called `init`, and what is kept comes without memory.
#[test]
fn pulls_go_on_where_memory_was_refused(rt: HostRuntime) {
    let refusals = plays(
        rt,
        "pull; calls; pull; calls; give_back 0; return 1; pull; pull_after; calls; detach 2; clear; \
         kept; owners; renew; counts",
        "pulled 0 0; calls 1; pulled 1 0; calls 2; done; done; pulled 1 0; pulled 0 0; calls 2; \
         detached 1 0; done; keeps 0; owners 1; pulled 2 0; made reset dropped 3 3 1",
    );
    refusals.tell(&rt);
}

/// A filling that is refused keeps what it made before.
#[test]
fn fillings_go_on_where_memory_was_refused(rt: HostRuntime) {
    let refusals = plays(
        rt,
        "fill 3; kept; calls; counts; clear; kept; counts",
        "done; keeps 3; calls 3; made reset dropped 3 0 0; done; keeps 0; made reset dropped 3 0 3",
    );
    refusals.tell(&rt);
}

/// A value that isn't attached comes back.
#[test]
fn an_attached_value_comes_back_where_memory_was_refused(rt: HostRuntime) {
    let refusals = plays(
        rt,
        "attach 8; attach_owned 9; read 0; return 1; owners; pull; return 0; kept; calls",
        "attached _ 8; attached _ 9; reads _ 8; done; owners 1|owners 2; pulled _ 9; done; keeps 1; \
         calls 0",
    );
    refusals.tell(&rt);
}

/// An owned attach that is refused is no owner any more.
#[test]
fn a_pool_ends_behind_an_owned_attach_where_memory_was_refused(rt: HostRuntime) {
    let refusals = plays(
        rt,
        "fill 1; attach_owned 3; owners; give_back 0; owners; kept",
        "done; attached _ 3; owners 2; done; owners 1; keeps 2",
    );
    refusals.tell(&rt);
}

#[test]
fn a_lock_gives_its_value_back_where_memory_was_refused(rt: HostRuntime) {
    let refusals = Refusals::new();
    let lock = match SpinLock::new(rt.alloc(), 7u32) {
        Err(back) => {
            refusals.note();
            SpinLock::new(rt.alloc(), back)
        }
        answer => answer,
    };
    let lock = lock.expect(&rt, "one request alone is refused");
    assert_eq!(rt; *lock.lock(&rt), 7);
    drop(asked_again!(&rt, refusals, Room::<u32>::new(rt.alloc())));
    refusals.tell(&rt);
}

/// 300,000 items are held together, come back, and are pulled again with what was written to them.
macro_rules! come_back {
    ($rt:expr, $pool:expr, $pull:ident) => {
        for round in 0..2u32 {
            let mut held = Vec::new($rt.alloc());
            let mut sum = 0u64;
            for turn in 0..300_000u64 {
                let mut item = $pool.$pull(&$rt).expect(&$rt, "memory is left");
                if round == 0 {
                    *item = turn;
                }
                sum = sum.wrapping_add(*item);
                held.push(item).expect(&$rt, "memory is left");
            }
            drop(held);
            assert_eq!($rt; ($pool.kept(&$rt), sum), (300_000, 44_999_850_000));
        }
    };
}

#[test]
fn three_hundred_thousand_borrowed_items_are_kept(rt: HostRuntime) {
    let pool: MutexObjectPool<u64, _, _> = MutexObjectPool::new(rt.alloc(), Copied::new(0), Keep);
    come_back!(rt, pool, pull);
}

#[test]
fn three_hundred_thousand_owned_items_are_kept(rt: HostRuntime) {
    let pool = SpinLockObjectPool::<u64, _, _>::new(rt.alloc(), Copied::new(0), Keep);
    let pool = Arc::new(rt.alloc(), pool.expect(&rt, "memory is left"));
    let pool = pool.expect(&rt, "memory is left");
    come_back!(rt, pool, pull_owned);
}

/// 70,000 values are attached to owned items that are held together, and come back.
fn keeps_attached<F: Kind<Value, Part, Part>, W: Abort + AllocGlobal + Wait + Copy>(rt: W) {
    let opened = Opened::<F>::new(rt.alloc(), None).expect(&rt, "memory is left");
    let refusals = Refusals::new();
    let mut player = StackPlayer::new(rt, rt.alloc(), &opened, &refusals, true);
    let attach = Command {
        word: "attach",
        numbers: [3, 0, 0],
    };
    for _ in 0..70_000 {
        assert!(rt; player.play(attach).number(1).is_some());
    }
    drop(player);
    assert_eq!(rt;
        (opened.pool.kept(&rt), opened.book.tally.made()),
        (70_000, 70_000)
    );
}

#[test]
fn seventy_thousand_attached_items_are_kept(rt: HostRuntime) {
    keeps_attached::<UnderMutex, _>(rt);
    keeps_attached::<UnderSpinLock, _>(rt);
}

/// The pool's last owner is an item.
fn ends_with_its_item<F: Kind<Value, Part, Part>, W: Abort + AllocGlobal + Wait + Copy>(rt: W) {
    let opened = Opened::<F>::new(rt.alloc(), None).expect(&rt, "memory is left");
    let Opened { pool, book } = opened;
    let item = pool.pull_owned(&rt).expect(&rt, "an item is made");
    drop(pool);
    assert_eq!(rt; book.tally.drops(), 0);
    drop(item);
    assert_eq!(rt; (book.tally.drops(), Arc::strong_count(&book)), (1, 1));
}

#[test]
fn a_pool_ends_with_its_last_owned_item(rt: HostRuntime) {
    ends_with_its_item::<UnderMutex, _>(rt);
    ends_with_its_item::<UnderSpinLock, _>(rt);
}
