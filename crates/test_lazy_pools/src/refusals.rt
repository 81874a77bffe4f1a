//! What makes a value refuses or fails: the place is free again, and empty, and nobody owns the pool.
use crate::plays::plays;

#[test]
fn a_refusal_brings_the_empty_place_back(rt: HostRuntime) {
    plays(
        &rt,
        33,
        "pull*32; refuse; pull*2; stands; allow; pull; pull; return 32; pull; return 0+*33; \
         pull*33; counts",
        "pulled 0+ 0+; done; refused init; made 32 32 0; done; pulled 32 32; refused limit; left; \
         pulled 32 32; left; pulled _ _; counts 35 34 0",
    );
}

#[test]
fn a_pull_of_one_pass_tells_why_it_has_nothing(rt: HostRuntime) {
    plays(
        &rt,
        2,
        "try; refuse; try; allow; try; try; close; try",
        "pulled 0 0; done; refused init; done; pulled 1 1; refused limit; done; refused closed",
    );
}

#[test]
fn a_failed_making_tells_its_cause(rt: HostRuntime) {
    plays(
        &rt,
        1,
        "refuse; with; stands; allow; with; refuse; with; stands; return 0; with; stands; counts",
        "done; refused init; made 0 0 0; done; pulled 0 0; done; refused limit; made 1 1 0; left; \
         pulled 0 0; made 1 1 0; counts 0 1 0",
    );
}

#[test]
fn an_owned_item_is_made_by_the_call(rt: HostRuntime) {
    plays(
        &rt,
        1,
        "refuse; owned_with; allow; owned_with; owned_with; discard 0; owned_with; counts; owners",
        "done; refused init; done; pulled 0 0; refused limit; left; pulled 0 1; counts 0 0 1; \
         owners 2",
    );
}

#[test]
fn a_pull_that_waits_tells_why_its_making_failed(rt: HostRuntime) {
    plays(
        &rt,
        1,
        "refuse; wait_with; allow; timed_with; timed_with; return 0; stands",
        "done; refused init; done; pulled 0 0; refused limit; left; made 1 0 0",
    );
    plays(
        &rt,
        1,
        "refuse; owned_wait_with; allow; owned_timed_with; owned_timed_with; return 0; stands; \
         owners",
        "done; refused init; done; pulled 0 0; refused limit; left; made 1 0 0; owners 1",
    );
}

/// A filling passes over the place of an item that is being made, which isn't there yet.
#[test]
fn a_filling_makes_an_item_beside_one_in_the_making(rt: HostRuntime) {
    plays(
        &rt,
        2,
        "then_fill 1; with; stands; counts; pull",
        "set; pulled 0 1; made 2 1 0; counts 1 0 0; pulled 1 0",
    );
}

/// A pull that is refused keeps no owner of its pool, whoever refuses it.
#[test]
fn a_refused_pull_keeps_no_owner(rt: HostRuntime) {
    plays(
        &rt,
        1,
        "refuse; owned; owned_with; owned_wait; owned_wait_with; owned_timed; owned_timed_with; \
         owners; allow; pull; owned; owned_with; owned_timed; owned_timed_with; owners; close; \
         owned; owned_with; owned_wait; owned_wait_with; owned_timed; owned_timed_with; owners",
        "done; refused init; refused init; refused init; refused init; refused init; refused init; \
         owners 1; done; pulled 0 0; refused limit; refused limit; refused limit; refused limit; \
         owners 1; done; refused closed; refused closed; refused closed; refused closed; \
         refused closed; refused closed; owners 1",
    );
}

#[test]
fn a_last_owner_drops_what_the_pool_has(rt: HostRuntime) {
    plays(
        &rt,
        33,
        "owned; owned_wait; owned_timed; owned_with; owners; return 0; return 2; owners; counts",
        "pulled 0 0; pulled 1 1; pulled 2 2; pulled 3 3; owners 5; left; left; owners 3; \
         counts 3 2 0",
    );
}
