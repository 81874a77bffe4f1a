//! Rows of commands to a chain of pages. Item `i` of a new page has the value of the call that made
//! it.
use crate::assert_equal::assert_equal;
use crate::games::{left_by, plays};

#[test]
fn a_new_page_is_free(rt: HostRuntime) {
    plays(&rt, "mask 0; next 0", "mask 4294967295 full 0; none");
}

#[test]
fn the_word_follows_three_items(rt: HostRuntime) {
    plays(
        &rt,
        "take 0; mask 0; take 0; mask 0; take 0; mask 0",
        "pulled 0 0; mask 4294967294 full 0; pulled 1 1; mask 4294967292 full 0; \
         pulled 2 2; mask 4294967288 full 0",
    );
    plays(
        &rt,
        "take 0*3; free 1; mask 0; free 0; mask 0; free 0; mask 0",
        "..; freed; mask 4294967290 full 0; freed; mask 4294967291 full 0; \
         freed; mask 4294967295 full 0",
    );
}

#[test]
fn items_come_in_order_until_the_page_is_full(rt: HostRuntime) {
    plays(
        &rt,
        "take 0*32; mask 0; take 0; try 0",
        "pulled 0+ 0+; mask 0 full 1; full; full",
    );
}

#[test]
fn a_page_is_full_while_each_item_is_out(rt: HostRuntime) {
    plays(
        &rt,
        "take 0*31; mask 0; take 0; mask 0; free 7; mask 0; again 0; mask 0",
        "..; mask 2147483648 full 0; pulled 31 31; mask 0 full 1; freed; mask 128 full 0; \
         pulled 0 0; mask 128 full 0",
    );
}

#[test]
fn a_dropped_slot_leaves_its_id_out(rt: HostRuntime) {
    plays(
        &rt,
        "take 0; drop 0; counts; mask 0; take 0",
        "pulled 0 0; dropped; calls 32 drops 1; mask 4294967294 full 0; pulled 1 1",
    );
}

#[test]
fn a_slot_and_a_page_drop_each_value_once(rt: HostRuntime) {
    let (maker, _) = left_by(
        &rt,
        "take 0; drop 0; counts; take 0; free 0; counts; take 0; forget 0; counts",
        "pulled 0 0; dropped; calls 32 drops 1; pulled 1 1; freed; calls 32 drops 1; \
         pulled 1 1; forgotten; calls 32 drops 1",
    );
    assert_equal(&rt, maker.tally.now(), (32, 31));
}

#[test]
fn an_owned_slot_keeps_its_page(rt: HostRuntime) {
    let (maker, owned) = left_by(
        &rt,
        "owned 0*2; mask 0; free 0; mask 0",
        "pulled 0+ 0+; mask 4294967292 full 0; freed; mask 4294967293 full 0",
    );
    let kept = owned.first().map(|slot| slot.number);
    assert_equal(&rt, (kept, maker.tally.now()), (Some(1), (32, 0)));
    drop(owned);
    assert_equal(&rt, maker.tally.now(), (32, 32));
}

/// The chain ends before the slots, and its pages end with them.
#[test]
fn the_last_slots_that_walks_found_let_their_pages_end(rt: HostRuntime) {
    let (maker, mut owned) = left_by(&rt, "owned 0*33; counts", "pulled 0+ 0+; calls 64 drops 0");
    if let Some(slot) = owned.pop() {
        slot.free();
    }
    assert_equal(&rt, maker.tally.now(), (64, 32));
    drop(owned);
    assert_equal(&rt, maker.tally.now(), (64, 64));
}

#[test]
fn a_freed_value_comes_again(rt: HostRuntime) {
    plays(
        &rt,
        "take 0; take 0; write 0 9; after 1; again 0; free 0; pair 0",
        "pulled 0 0; pulled 1 1; written; pulled 2 2; pulled 0 9; freed; two 1 3",
    );
}

#[test]
fn a_refused_page_is_not_linked(rt: HostRuntime) {
    plays(
        &rt,
        "refuse 8; grow 0; counts; next 0; grow 0; counts; take 1",
        "set; refused init; calls 41 drops 8; none; at 1; calls 73 drops 8; pulled 32 41",
    );
}

#[test]
fn a_link_tells_that_init_refused(rt: HostRuntime) {
    plays(
        &rt,
        "take 0*32; refuse 0; grow 0; refuse 0; walk 0; next 0",
        "..; set; refused init; set; refused init; none",
    );
}

#[test]
fn walks_end_at_their_limit(rt: HostRuntime) {
    plays(
        &rt,
        "walk_within 0 1*32; walk_within 0 1; owned_within 0 1; owned_within 0 2; next 0; \
         walk_within 1 1*31; owned_within 1 1; walk_within 0 2; walk 0; counts",
        "pulled 0+ 0+; refused limit; refused limit; pulled 32 32; at 1; \
         pulled 33+ 33+; refused limit; refused limit; pulled 64 64; calls 96 drops 0",
    );
}

#[test]
fn sixteen_hundred_pages_are_linked_and_dropped(rt: HostRuntime) {
    plays(
        &rt,
        "grow 0+*1599; counts; walk_within 0 1",
        "at 1+; calls 51200 drops 0; pulled 0 0",
    );
}

#[test]
fn links_lead_to_two_thousand_one_hundred_pages_and_no_further(rt: HostRuntime) {
    plays(
        &rt,
        "grow 0+*2100; next 0+*2100; next 2100; take 2100; walk 2099",
        "at 1+; at 1+; none; pulled 67200 67200; pulled 67168 67168",
    );
}
