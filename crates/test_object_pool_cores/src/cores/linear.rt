//! Rows of the linear core.
use super::opening::{Linear, Opening, PLAIN, limited, refusing};
use super::{on_both, on_core, on_player};

#[test]
fn values_that_reset_keeps_come_again_with_their_numbers(rt: HostRuntime) {
    let row = "pull*2; write 0 7; write 1 8; return 0; return 1; pull*2; held 0; held 1 => \
               pulled 0+ 0+ 0+; written; written; returned; returned; pulled 2+ 0+ 7+; none; none";
    on_both::<Linear>(&rt, PLAIN, row);
}

#[test]
fn the_least_number_comes_first(rt: HostRuntime) {
    let row = "pull*3; return 2; return 0; pull; pull => ..; returned; returned; pulled 3 0 0; \
               pulled 4 2 2";
    on_both::<Linear>(&rt, PLAIN, row);
}

#[test]
fn a_forgotten_number_stays_out(rt: HostRuntime) {
    let row =
        "pull; forget 0; pull; return 1; pull; return 0; attach 9 => pulled 0 0 0; forgotten; \
               pulled 1 1 1; returned; pulled 2 1 1; no such holder; not offered 9";
    on_both::<Linear>(&rt, PLAIN, row);
}

#[test]
fn a_limit_of_one_page_holds(rt: HostRuntime) {
    let row = "pull*32; pull; return 7; pull => pulled 0+ 0+ 0+; refused limit; returned; \
               pulled 32 7 7";
    on_both::<Linear>(&rt, limited(1), row);
}

#[test]
fn a_page_is_made_where_none_is_free(rt: HostRuntime) {
    let row =
        "counts; pages; limit; pull*33; counts; pages => calls 32 reset 0 dropped 0; pages 1; \
               none; pulled 0+ 0+ 0+; calls 64 reset 0 dropped 0; pages 2";
    on_core::<Linear>(&rt, PLAIN, row);
}

/// Item 39 was to be made by the call that is refused.
#[test]
fn a_refusal_by_init_drops_what_was_made_and_changes_nothing(rt: HostRuntime) {
    for limit in [None, Some(3)] {
        let opening = Opening {
            limit,
            ..refusing(39)
        };
        let row = "pull*32; pull; counts; pages; mine 0+*32; pull; counts; pages => ..; \
                   refused init; calls 40 reset 0 dropped 7; pages 1; mine; pulled 32 32 40; \
                   calls 72 reset 0 dropped 7; pages 2";
        on_core::<Linear>(&rt, opening, row);
    }
}

#[test]
fn an_item_is_its_own_pools_until_it_returns(rt: HostRuntime) {
    let row = "limit; pull; mine 0; return 0; mine 0; pull => at most 3; pulled 0 0 0; mine; \
               returned; not mine; pulled 1 0 0";
    on_core::<Linear>(&rt, limited(3), row);
}

#[test]
fn a_pull_looks_on_from_the_last_page(rt: HostRuntime) {
    let row = "pull*64; looked; pull; looked => ..; looked 65; pulled 64 64 64; looked 67";
    on_core::<Linear>(&rt, PLAIN, row);
}

#[test]
fn a_pull_looks_first_at_a_lower_page_that_got_an_item_back(rt: HostRuntime) {
    let row = "pull*64; return 5; pull; looked => ..; returned; pulled 64 5 5; looked 66";
    on_core::<Linear>(&rt, PLAIN, row);
}

/// One look a pull, and one more for the first pull of each later page.
#[test]
fn many_pulls_look_at_each_page_once_more_than_they_take(rt: HostRuntime) {
    let row = "pull*6400; looked; pages => pulled 0+ 0+ 0+; looked 6599; pages 200";
    on_core::<Linear>(&rt, PLAIN, row);
}

/// An item of page 0, 1, 9 or 11 comes back. One pull takes it, and the next one passes all full
/// pages from there on.
#[test]
fn a_pull_counts_each_page_that_it_looks_at(rt: HostRuntime) {
    let row = "pull*384; looked; return 0; pull; looked; pull; looked; return 40; pull; looked; \
               pull; looked; return 300; pull; looked; pull; looked; return 352; pull; looked; \
               pull; looked => ..; looked 395; returned; pulled 384 0 0; looked 396; \
               pulled 385 384 384; looked 409; returned; pulled 386 40 40; looked 410; \
               pulled 387 385 385; looked 422; returned; pulled 388 300 300; looked 423; \
               pulled 389 386 386; looked 427; returned; pulled 390 352 352; looked 428; \
               pulled 391 387 387; looked 430";
    on_core::<Linear>(&rt, PLAIN, row);
}

#[test]
fn each_of_ten_pages_takes_32_calls_of_init(rt: HostRuntime) {
    let row = "pull*320; pull; counts; pages => ..; pulled 320 320 320; \
               calls 352 reset 0 dropped 0; pages 11";
    on_core::<Linear>(&rt, PLAIN, row);
    on_core::<Linear>(&rt, limited(11), row);
    let row = "counts; pull*320; pull; counts; pages => calls 32 reset 0 dropped 0; ..; \
               refused limit; calls 320 reset 0 dropped 0; pages 10";
    on_core::<Linear>(&rt, limited(10), row);
}

#[test]
fn the_greatest_limit_needs_no_memory_beforehand(rt: HostRuntime) {
    let row = "limit; pages; pull => at most 18446744073709551615; pages 1; pulled 0 0 0";
    on_core::<Linear>(&rt, limited(usize::MAX), row);
}

#[test]
fn what_is_forgotten_or_replaced_is_dropped_at_once(rt: HostRuntime) {
    let row = "pull*2; counts; forget 0; counts; write 1 5; counts; write 0 5; counts => ..; \
               calls 32 reset 0 dropped 0; forgotten; calls 32 reset 0 dropped 1; written; \
               calls 33 reset 0 dropped 2; no such holder; calls 34 reset 0 dropped 3";
    on_both::<Linear>(&rt, PLAIN, row);
}

/// The second run of pulls begins behind the replies to the first, and the third run is of commands
/// that change nothing. A run of no commands is done too.
#[test]
fn a_run_of_more_than_a_million_commands_is_done(rt: HostRuntime) {
    let row = "gather; run; pull*70000; run; pull*65; run; idle 1000001; run; run; reply 69999; \
               reply 70064; reply 1070065; reply 1070066 => gathers; replies 0; gathered; \
               replies 70000; gathered; replies 70065; gathered; replies 1070066; \
               replies 1070066; pulled 69999 69999; pulled 70064 70064; no such holder; none";
    on_player::<Linear>(&rt, PLAIN, row);
}
