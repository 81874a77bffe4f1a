//! Items that leave their pool, and values that a reset rejects: their places are empty again.
use crate::plays::plays;

#[test]
fn a_discarded_item_is_made_anew(rt: HostRuntime) {
    plays(
        &rt,
        1,
        "pull; discard 0; stands; counts; pull; pull; stands; counts",
        "pulled 0 0; left; made 1 0 0; counts 1 0 1; pulled 0 1; refused limit; made 1 1 0; \
         counts 2 0 1",
    );
}

#[test]
fn a_detached_item_leaves_an_empty_place(rt: HostRuntime) {
    plays(
        &rt,
        1,
        "owned; detach 0; owners; owned; stands; counts",
        "pulled 0 0; left; owners 1; pulled 0 1; made 1 1 0; counts 2 0 1",
    );
}

#[test]
fn made_never_falls(rt: HostRuntime) {
    plays(
        &rt,
        3,
        "pull*2; discard 0+*2; stands; fill 1; stands; fill 2; stands; fill 3*2; stands; counts; \
         pull; detach 0; stands; pull*3; stands; counts",
        "pulled 0+ 0+; left; made 2 0 0; filled; made 2 0 0; filled; made 2 0 0; filled; \
         made 3 0 0; counts 5 0 2; pulled 0 2; left; made 3 0 0; pulled _ _; made 3 3 0; \
         counts 6 0 3",
    );
}

#[test]
fn a_rejected_item_leaves_an_empty_place(rt: HostRuntime) {
    plays(
        &rt,
        1,
        "pull; reject; return 0; stands; counts; accept; pull; return 0; pull; return 0; counts",
        "pulled 0 0; done; left; made 1 0 0; counts 1 1 1; done; pulled 0 1; left; pulled 0 1; \
         left; counts 2 3 1",
    );
}

#[test]
fn a_filling_makes_an_item_for_a_rejected_one(rt: HostRuntime) {
    plays(
        &rt,
        70,
        "fill 1*2; counts; pull; reject; return 0; fill 1; counts",
        "filled; counts 1 0 0; pulled 0 0; done; left; filled; counts 2 1 1",
    );
}

#[test]
fn an_owned_item_is_rejected_too(rt: HostRuntime) {
    plays(
        &rt,
        1,
        "owned; reject; give_back 0; owners; counts; owned; counts",
        "pulled 0 0; done; left; owners 1; counts 1 1 1; pulled 0 1; counts 2 1 1",
    );
}
