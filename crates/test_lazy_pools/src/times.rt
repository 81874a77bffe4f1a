//! Timed pulls by a clock of the test: what happens at a chosen step of one that waits.
use crate::plays::plays;

#[test]
fn a_return_before_a_waiter_counts_itself_is_found(rt: HostRuntime) {
    plays(
        &rt,
        1,
        "pull; then_return 0 1000 1; timed; looks; stands",
        "pulled 0 0; set; pulled 0 0; looks 1 0; made 1 1 0",
    );
}

#[test]
fn a_return_between_a_try_and_its_sleep_is_found(rt: HostRuntime) {
    plays(
        &rt,
        1,
        "pull; then_return 0 1000 2; timed; looks; stands; then_return 0 1000 2; long_timed; looks",
        "pulled 0 0; set; pulled 0 0; looks 2 1; made 1 1 0; set; pulled 0 0; looks 2 1",
    );
}

#[test]
fn a_closing_beside_a_waiter_is_found(rt: HostRuntime) {
    plays(
        &rt,
        1,
        "pull; then_close 0 1000 1; timed; looks; stands; return 0; counts",
        "pulled 0 0; set; refused closed; looks 1 0; made 1 1 0; left; counts 1 1 1",
    );
    plays(
        &rt,
        1,
        "pull; then_close 0 1000 2; owned_timed_with; looks; stands; return 0; counts",
        "pulled 0 0; set; refused closed; looks 2 1; made 1 1 0; left; counts 1 1 1",
    );
}

#[test]
fn a_rejected_item_wakes_one_that_waits(rt: HostRuntime) {
    plays(
        &rt,
        1,
        "pull; reject; then_return 0 1000 2; timed; looks; stands; counts",
        "pulled 0 0; done; set; pulled 0 1; looks 3 1; made 1 1 0; counts 2 1 1",
    );
}

#[test]
fn nothing_is_made_after_the_limit(rt: HostRuntime) {
    plays(
        &rt,
        1,
        "pull; then_discard 0 6000 2; timed; looks; counts; \
         pull; then_discard 0 6000 2; timed_with; looks; counts; stands; fill 1; counts",
        "pulled 0 0; set; refused limit; looks 3 1; counts 1 0 1; \
         pulled 0 1; set; refused limit; looks 3 1; counts 2 0 2; made 1 0 0; filled; counts 3 0 2",
    );
}

#[test]
fn a_made_item_is_pulled_after_the_limit(rt: HostRuntime) {
    plays(
        &rt,
        1,
        "pull; then_return 0 9999 2; timed; looks; then_return 0 9999 2; timed_with; looks; counts",
        "pulled 0 0; set; pulled 0 0; looks 2 1; set; pulled 0 0; looks 2 1; counts 1 2 0",
    );
}

/// A wait ends at its limit, to the millisecond, also if it is woken for what another takes.
#[test]
fn a_limit_is_of_the_whole_wait(rt: HostRuntime) {
    plays(
        &rt,
        1,
        "pull; clock 10000; timed; looks; then_swap 0 5000 2; timed; looks; \
         then_swap 0 4999 2; owned_timed; looks; then_discard 0 4999 2; timed; looks; counts",
        "pulled 0 0; set; refused limit; looks 2 0; set; refused limit; looks 3 1; \
         set; refused limit; looks 4 1; set; pulled 0 1; looks 3 1; counts 2 2 1",
    );
}

#[test]
fn a_clock_that_fails_ends_the_wait(rt: HostRuntime) {
    plays(
        &rt,
        1,
        "pull; clock 0 1; timed; looks; clock 0 2; timed_with; looks; \
         then_discard 0 0 2; clock 0 3; owned_timed; looks; stands; owners; counts",
        "pulled 0 0; set; refused limit; looks 1 0; set; refused limit; looks 2 0; \
         set; set; refused limit; looks 3 1; made 1 0 0; owners 1; counts 1 0 1",
    );
}
