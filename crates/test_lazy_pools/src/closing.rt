//! Pools that are cleared and closed: pulls fail, and what comes back is dropped.
use crate::plays::plays;

#[test]
fn what_is_kept_is_dropped_and_what_is_in_use_stays(rt: HostRuntime) {
    plays(
        &rt,
        70,
        "pull*40; return 39; return 38; clear; stands; counts; return 0+*38; fill 40; stands; \
         counts; clear; stands; counts; pull*70; stands; counts",
        "pulled 0+ 0+; left; left; done; made 40 38 0; counts 40 2 2; left; filled; made 40 0 0; \
         counts 42 40 2; done; made 40 0 0; counts 42 40 42; pulled 0+ 42+; made 70 70 0; \
         counts 112 40 42",
    );
}

#[test]
fn each_pull_of_a_closed_pool_fails(rt: HostRuntime) {
    plays(
        &rt,
        1,
        "pull; is_closed; close; pull; near; try; owned; wait; owned_wait; timed; owned_timed; \
         with; owned_with; wait_with; owned_wait_with; timed_with; owned_timed_with; fill 1",
        "pulled 0 0; no; done; refused closed; refused closed; refused closed; refused closed; \
         refused closed; refused closed; refused closed; refused closed; refused closed; \
         refused closed; refused closed; refused closed; refused closed; refused closed; \
         refused closed",
    );
    plays(
        &rt,
        1,
        "pull; close; return 0; pull; near; try; owned; wait; owned_wait; timed; owned_timed; \
         with; owned_with; wait_with; owned_wait_with; timed_with; owned_timed_with; fill 1; \
         is_closed; stands; counts",
        "pulled 0 0; done; left; refused closed; refused closed; refused closed; refused closed; \
         refused closed; refused closed; refused closed; refused closed; refused closed; \
         refused closed; refused closed; refused closed; refused closed; refused closed; \
         refused closed; yes; made 1 0 0; counts 1 1 1",
    );
    plays(
        &rt,
        33,
        "close; pull; near; try; owned_wait; timed_with; fill 33; stands; counts",
        "done; refused closed; refused closed; refused closed; refused closed; refused closed; \
         refused closed; made 0 0 0; counts 0 0 0",
    );
}

/// Only a closing closes: a full pool says that it is full.
#[test]
fn each_pull_of_a_full_pool_meets_its_limit(rt: HostRuntime) {
    plays(
        &rt,
        1,
        "pull; pull; near; try; owned; timed; owned_timed; with; owned_with; timed_with; \
         owned_timed_with; fill 1; is_closed",
        "pulled 0 0; refused limit; refused limit; refused limit; refused limit; refused limit; \
         refused limit; refused limit; refused limit; refused limit; refused limit; filled; no",
    );
}

#[test]
fn a_closing_drops_what_is_kept_and_then_what_comes_back(rt: HostRuntime) {
    plays(
        &rt,
        70,
        "pull*40; return 39; return 38; close; stands; counts; close; counts; return 37; \
         give_back 36; discard 35; detach 34; forget 33; stands; counts; return 0+*33; clear; \
         close; stands; counts",
        "pulled 0+ 0+; left; left; done; made 40 38 0; counts 40 2 2; done; counts 40 2 2; left; \
         left; left; left; left; made 40 34 0; counts 40 4 6; left; done; done; made 40 1 0; \
         counts 40 37 39",
    );
}

#[test]
fn an_owned_item_comes_back_to_a_closed_pool(rt: HostRuntime) {
    plays(
        &rt,
        1,
        "owned; close; owners; counts",
        "pulled 0 0; done; owners 2; counts 1 0 0",
    );
}

/// A pool is closed while it makes an item.
#[test]
fn an_item_whose_making_began_before_the_closing_is_dropped_too(rt: HostRuntime) {
    plays(
        &rt,
        1,
        "then_close; with; counts; return 0; stands; counts",
        "set; pulled 0 0; counts 0 0 0; left; made 1 0 0; counts 0 1 1",
    );
}

/// What makes values and resets them may close a pool in its place.
#[test]
fn a_closed_pool_keeps_nothing_and_refuses_pulls(rt: HostRuntime) {
    plays(
        &rt,
        1,
        "pull; return 0; refuse; reject; pull; return 0; pull; stands; counts",
        "pulled 0 0; left; done; done; pulled 0 0; left; refused init; made 1 0 0; counts 2 2 1",
    );
}
