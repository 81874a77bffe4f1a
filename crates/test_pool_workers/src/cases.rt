//! Rows of commands to workers. Of each pair of lines the first is what is done, and the second
//! what is said to it. A further pair has new workers: those of the one before it ended.
use crate::plays::{Kind, Room, plays};

/// A worker that was made by `new`.
const ONE: [Room; 1] = [None];

#[test]
fn a_worker_of_a_fixed_pool_keeps_an_item_and_returns_it_at_its_end(rt: HostRuntime) {
    let kept = (
        "turn*4; visit; counts",
        "turned 0 0 1+; refused limit; calls 1 resets 4 drops 0",
    );
    let returned = ("visit; counts", "visited 0 0; calls 1 resets 5 drops 0");
    plays(&rt, Kind::Fixed(1), &ONE, &[kept, returned]);
}

#[test]
fn a_worker_of_a_lazy_pool_keeps_an_item_and_returns_it_at_its_end(rt: HostRuntime) {
    let kept = (
        "turn*4; visit; stands",
        "turned 0 0 1+; refused limit; made 1 uses 1",
    );
    let returned = (
        "stands; visit; stands; counts",
        "made 1 uses 0; visited 0 0; made 1 uses 0; calls 1 resets 5 drops 0",
    );
    plays(&rt, Kind::Lazy(1), &ONE, &[kept, returned]);
}

/// Another user gets the second item while the worker keeps the first one.
#[test]
fn a_worker_of_a_linear_pool_keeps_an_item_and_returns_it_at_its_end(rt: HostRuntime) {
    let kept = ("turn*4; visit", "turned 0 0 1+; visited 1 1");
    let returned = ("visit; counts", "visited 0 0; calls 32 resets 6 drops 0");
    plays(&rt, Kind::Linear(1), &ONE, &[kept, returned]);
}

/// Two items are held together three times: meanwhile one is in use, which the worker keeps.
#[test]
fn of_two_items_one_is_kept_and_the_other_is_returned(rt: HostRuntime) {
    let kept = (
        "pull*2; return 1; return; stands; counts; \
         pull; pull; return 1; return; stands; counts; \
         pull; pull; return 1; return; stands; counts",
        "pulled 0+ 0+; returned; returned; made 2 uses 1; calls 2 resets 2 drops 0; \
         pulled 1 1; pulled 0 0; returned; returned; made 2 uses 1; calls 2 resets 4 drops 0; \
         pulled 0 0; pulled 1 1; returned; returned; made 2 uses 1; calls 2 resets 6 drops 0",
    );
    let returned = ("stands; counts", "made 2 uses 0; calls 2 resets 6 drops 0");
    plays(&rt, Kind::Lazy(2), &ONE, &[kept, returned]);
    plays(&rt, Kind::Lazy(2), &[Some(1)], &[kept, returned]);
}

/// The second item is dropped first. It is kept, and the first one is returned.
#[test]
fn what_comes_back_first_is_kept(rt: HostRuntime) {
    let kept = (
        "pull*2; return 1; return; pull",
        "pulled 0+ 0+; returned; returned; pulled 1 1",
    );
    plays(&rt, Kind::Fixed(2), &ONE, &[kept]);
}

#[test]
fn a_worker_of_a_fixed_pool_of_two_returns_the_second(rt: HostRuntime) {
    let returned = (
        "pull*2; pull; return 1; return; counts; visit",
        "pulled 0+ 0+; refused limit; returned; returned; calls 2 resets 2 drops 0; visited 0 0",
    );
    plays(&rt, Kind::Fixed(2), &ONE, &[returned]);
}

#[test]
fn a_worker_of_a_linear_pool_returns_the_second(rt: HostRuntime) {
    let returned = (
        "pull*2; return 1; return; counts; visit",
        "pulled 0+ 0+; returned; returned; calls 32 resets 2 drops 0; visited 0 0",
    );
    let counted = ("counts", "calls 32 resets 3 drops 0");
    plays(&rt, Kind::Linear(1), &ONE, &[returned, counted]);
}

#[test]
fn a_worker_that_kept_nothing_returns_nothing(rt: HostRuntime) {
    let nothing = ("counts; stands", "calls 0 resets 0 drops 0; made 0 uses 0");
    plays(&rt, Kind::Lazy(1), &ONE, &[nothing, nothing]);
}

/// A value that is rejected is dropped, and its place is empty: also past a word or two of places.
#[test]
fn what_the_reset_rejects_is_not_kept(rt: HostRuntime) {
    let rejected = (
        "reject; turn; counts; stands; accept; turn; counts; stands",
        "done; turned 0 0 1; calls 1 resets 1 drops 1; made 1 uses 0; \
         done; turned 0 1 2; calls 2 resets 2 drops 1; made 1 uses 1",
    );
    let kept = ("counts; stands", "calls 2 resets 2 drops 1; made 1 uses 0");
    plays(&rt, Kind::Lazy(1), &ONE, &[rejected, kept]);
    plays(&rt, Kind::Lazy(2), &ONE, &[rejected, kept]);
    let all = (
        "pull*65; reject; return*65; stands; counts",
        "pulled _ 0+; done; returned; made 65 uses 0; calls 65 resets 65 drops 65",
    );
    plays(&rt, Kind::Lazy(65), &ONE, &[all]);
}

/// Of three items two are kept, of which the second comes first, and the third was returned.
#[test]
fn a_worker_with_room_for_two_gives_the_last_first(rt: HostRuntime) {
    let kept = (
        "pull*3; return*3; visit; pull; pull; pull; return*3; counts",
        "pulled 0+ 0+; returned; visited 2 2; pulled 1 1; pulled 0 0; pulled 2 2; returned; \
         calls 3 resets 7 drops 0",
    );
    let returned = ("counts", "calls 3 resets 7 drops 0");
    plays(&rt, Kind::Fixed(3), &[Some(2)], &[kept, returned]);
}

/// All are kept while there is room, and are in use for others until the worker ends.
#[test]
fn a_worker_with_much_room_keeps_all(rt: HostRuntime) {
    let kept = (
        "pull*3; pull; return*3; stands; visit; pull; pull; pull; return*3",
        "pulled 0+ 0+; refused limit; returned; made 3 uses 3; refused limit; \
         pulled 2 2; pulled 1 1; pulled 0 0; returned",
    );
    let returned = ("stands; counts", "made 3 uses 0; calls 3 resets 6 drops 0");
    plays(&rt, Kind::Lazy(3), &[Some(40)], &[kept, returned]);
}

/// Past what a byte, and a word of 32 pages, count.
#[test]
fn a_worker_with_great_room_keeps_so_many(rt: HostRuntime) {
    let kept = (
        "pull*1100; return*1100; stands; pull*1025; stands",
        "pulled _ 0+; returned; made 1100 uses 1025; pulled _ _; made 1100 uses 1025",
    );
    let returned = ("stands", "made 1100 uses 0");
    plays(&rt, Kind::Lazy(1_100), &[Some(1_025)], &[kept, returned]);
}

#[test]
fn a_worker_with_no_room_keeps_none(rt: HostRuntime) {
    let returned = (
        "pull*3; return*3; visit; counts",
        "pulled 0+ 0+; returned; visited 0 0; calls 32 resets 4 drops 0",
    );
    plays(&rt, Kind::Linear(1), &[Some(0)], &[returned]);
}

/// What a worker keeps of a closed pool leaves at its next pull, which is refused.
#[test]
fn a_worker_of_a_closed_pool_returns_what_it_keeps(rt: HostRuntime) {
    let closed = (
        "pull*3; return*3; close; stands; counts; pull; stands; counts",
        "pulled 0+ 0+; returned; done; made 3 uses 2; calls 3 resets 3 drops 1; \
         refused closed; made 3 uses 0; calls 3 resets 3 drops 3",
    );
    plays(&rt, Kind::Lazy(3), &[Some(2)], &[closed]);
}

/// All that is kept leaves then: at the next return, or at the next pull.
#[test]
fn a_worker_of_a_closed_pool_returns_all(rt: HostRuntime) {
    let returned = (
        "pull*6; return*5; close; stands; counts; return; stands; counts",
        "pulled 0+ 0+; returned; done; made 6 uses 5; calls 6 resets 5 drops 1; \
         returned; made 6 uses 0; calls 6 resets 6 drops 6",
    );
    plays(&rt, Kind::Lazy(6), &[Some(4)], &[returned]);
    let pulled = (
        "pull*6; return*6; close; stands; pull; stands; counts",
        "pulled 0+ 0+; returned; done; made 6 uses 6; \
         refused closed; made 6 uses 0; calls 6 resets 6 drops 6",
    );
    plays(&rt, Kind::Lazy(6), &[Some(6)], &[pulled]);
}

/// An item that is held at the closing leaves when it comes back.
#[test]
fn a_worker_of_a_closed_pool_keeps_nothing_that_comes_back(rt: HostRuntime) {
    let closed = (
        "pull; close; stands; counts; return; stands; counts; pull; counts",
        "pulled 0 0; done; made 1 uses 1; calls 1 resets 0 drops 0; \
         returned; made 1 uses 0; calls 1 resets 1 drops 1; \
         refused closed; calls 1 resets 1 drops 1",
    );
    plays(&rt, Kind::Lazy(2), &ONE, &[closed]);
}

/// Each place begins eight pages behind the one before it.
#[test]
fn a_worker_begins_at_its_place(rt: HostRuntime) {
    let fixed = ("pull; pull 1", "pulled 0 0; pulled 256 256");
    plays(&rt, Kind::Fixed(640), &[None, None], &[fixed]);
    let lazy = ("pull; pull 1", "pulled 0 0; pulled 256 1");
    plays(&rt, Kind::Lazy(640), &[None, None], &[lazy]);
}

/// Its page is full while another page has free items.
#[test]
fn a_worker_whose_page_is_full_begins_on_the_next_page(rt: HostRuntime) {
    let fixed = (
        "pull 1*32; pull 1; pull 1",
        "pulled 256+ 256+; pulled 0 0; pulled 288 288",
    );
    plays(&rt, Kind::Fixed(640), &[None, None], &[fixed]);
    let lazy = (
        "pull 1*32; pull 1; pull 1",
        "pulled 256+ 0+; pulled 0 32; pulled 288 33",
    );
    plays(&rt, Kind::Lazy(640), &[None, None], &[lazy]);
}

/// A refused pull calls `init` once, and the next pull gives an item.
#[test]
fn a_refused_worker_asks_once(rt: HostRuntime) {
    let refused = (
        "refuse; pull; counts; stands; allow; pull",
        "done; refused init; calls 1 resets 0 drops 0; made 0 uses 0; done; pulled 0 0",
    );
    plays(&rt, Kind::Lazy(1), &ONE, &[refused]);
}
