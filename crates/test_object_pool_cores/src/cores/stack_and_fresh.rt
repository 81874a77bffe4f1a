//! Rows of the stack core and of the core that keeps nothing.
use super::on_both;
use super::opening::{Fresh, Opening, PLAIN, Stack, refusing};
use crate::values::Leaves;

#[test]
fn the_value_that_was_returned_last_comes_first(rt: HostRuntime) {
    let row = "pull*2; counts; write 0 7; write 1 8; return 0; return 1; pull; pull; held 0; \
               held 4; counts => pulled 0+ 0+; calls 2 reset 0 dropped 0; written; written; \
               returned; returned; pulled 2 8; pulled 3 7; none; none; calls 4 reset 2 dropped 2";
    on_both::<Stack>(&rt, PLAIN, row);
}

#[test]
fn an_attached_value_is_kept_when_it_returns(rt: HostRuntime) {
    let row = "attach 9; return 0; pull; pull => pulled 0 9; returned; pulled 1 9; pulled 2 1";
    on_both::<Stack>(&rt, PLAIN, row);
}

#[test]
fn an_attached_value_is_reset_when_it_returns(rt: HostRuntime) {
    let opening = Opening {
        leaves: Leaves::Zero,
        ..PLAIN
    };
    let row = "attach 9; return 0; pull => pulled 0 9; returned; pulled 1 0";
    on_both::<Stack>(&rt, opening, row);
}

#[test]
fn a_fresh_item_is_dropped_at_its_return(rt: HostRuntime) {
    let row = "pull; return 0; counts; pull; pull => pulled 0 0; returned; \
               calls 1 reset 0 dropped 1; refused init; pulled 1 2";
    on_both::<Fresh>(&rt, refusing(1), row);
}

#[test]
fn a_stack_that_init_refuses_once_gives_an_item_then(rt: HostRuntime) {
    let row = "pull; pull; counts => refused init; pulled 0 1; calls 2 reset 0 dropped 0";
    on_both::<Stack>(&rt, refusing(0), row);
}

/// Each pull that finds an item kept leaves `init` alone, and a value is attached beside those that
/// are kept.
#[test]
fn a_hundred_kept_items_are_pulled_before_init_is_asked(rt: HostRuntime) {
    let row = "pull*100; return 0+*100; counts; attach 7; pull*101; return 100+*102; counts => \
               pulled 0+ 0+; returned; calls 100 reset 100 dropped 0; pulled 100 7; ..; returned; \
               calls 102 reset 202 dropped 0";
    on_both::<Stack>(&rt, PLAIN, row);
}

#[test]
fn a_player_that_holds_and_let_go_hundreds_attaches_and_pulls(rt: HostRuntime) {
    let row = "pull*200; return 100+*100; attach 9*200; pull*200; held 99; held 199; held 399 => \
               pulled 0+ 0+; returned; pulled 200+ 9; ..; has 99; none; has 9";
    on_both::<Stack>(&rt, PLAIN, row);
}
