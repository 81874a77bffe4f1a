//! Rows of commands to a fixed pool. Item `i` of a new pool has the value `i`.
use crate::opened::plays;

#[test]
fn a_pool_drops_what_it_has(rt: HostRuntime) {
    plays(
        &rt,
        33,
        "pull; pull; counts; forget 1; counts",
        "pulled 0 0; pulled 1 1; calls 33 resets 0 drops 0; forgotten; calls 33 resets 0 drops 0",
    );
}

/// The pool ends with the second of these items.
#[test]
fn a_last_owner_drops_what_the_pool_has(rt: HostRuntime) {
    plays(&rt, 33, "owned*2; owners", "pulled 0+ 0+; owners 3 34");
}

#[test]
fn a_refused_owned_pull_lets_its_pool_end(rt: HostRuntime) {
    plays(
        &rt,
        1,
        "owned; owned; owners",
        "pulled 0 0; refused limit; owners 2 2",
    );
}

#[test]
fn a_written_value_stays_with_its_item(rt: HostRuntime) {
    plays(
        &rt,
        33,
        "pull*33; write 32 5; look 32; return 32; counts; pull; look 32",
        "..; written; lies 1 0 5; returned; calls 33 resets 1 drops 0; pulled 32 5; lies 1 0 5",
    );
}

#[test]
fn a_holder_tells_what_it_knows(rt: HostRuntime) {
    plays(
        &rt,
        33,
        "owned; pull; after 1; write 0 11; give 0; pull",
        "pulled 0 0; pulled 1 1; pulled 2 2; written; returned; pulled 0 11",
    );
}

#[test]
fn a_pull_begins_near_its_page_and_goes_round(rt: HostRuntime) {
    plays(
        &rt,
        97,
        "near 2; near 6; near 3; near 3; near 18446744073709551615; pull",
        "pulled 64 64; pulled 65 65; pulled 96 96; pulled 0 0; pulled 1 1; pulled 2 2",
    );
}

#[test]
fn a_pull_near_a_page_finds_the_last_item(rt: HostRuntime) {
    plays(
        &rt,
        97,
        "pull*97; near 1; return 96; near 0; near 3",
        "pulled 0+ 0+; refused limit; returned; pulled 96 96; refused limit",
    );
}

#[test]
fn a_pull_begins_where_an_item_came_back_to_a_full_page(rt: HostRuntime) {
    plays(
        &rt,
        97,
        "pull*64; return 63; pull*2; return 63; pull",
        "..; returned; pulled 63+ 63+; returned; pulled 63 63",
    );
}

#[test]
fn any_number_names_a_page(rt: HostRuntime) {
    plays(
        &rt,
        96,
        "near 3; near 4; near 1000003; near 4294967296; near 18446744073709551614",
        "pulled 0 0; pulled 32 32; pulled 33 33; pulled 34 34; pulled 64 64",
    );
    plays(
        &rt,
        128,
        "near 4; near 5; near 1000003; near 4294967296; near 18446744073709551614",
        "pulled 0 0; pulled 32 32; pulled 96 96; pulled 1 1; pulled 64 64",
    );
}

/// So the next pull begins at page 0 as before.
#[test]
fn a_pull_near_a_page_leaves_the_hint(rt: HostRuntime) {
    plays(&rt, 97, "near 2; pull", "pulled 64 64; pulled 0 0");
}

#[test]
fn a_pull_by_an_owner_leaves_the_hint(rt: HostRuntime) {
    plays(&rt, 97, "owner 2; pull", "pulled 64 64; pulled 0 0");
}

/// Item 95 came back to page 2, which was full, so the hint names it. A pull near page 1, which is
/// full, asks page 2 next, then page 3 behind it, and page 0 last.
#[test]
fn a_pull_near_a_full_page_asks_the_hinted_page_and_then_goes_round(rt: HostRuntime) {
    plays(
        &rt,
        97,
        "near 2*32; return 31; near 1*32; near 1; near 1; near 1",
        "pulled 64+ 64+; returned; pulled 32+ 32+; pulled 95 95; pulled 96 96; pulled 0 0",
    );
}

/// The hint names page 2, which is full: a pull that begins there asks page 3 behind it before page
/// 0.
#[test]
fn a_pull_looks_behind_its_page_before_it_goes_round(rt: HostRuntime) {
    plays(
        &rt,
        97,
        "near 2*32; return 31; near 2; pull",
        "..; returned; pulled 95 95; pulled 96 96",
    );
}

/// The place's page 0 is full, and the hint names page 2, to which others come too.
#[test]
fn a_place_whose_page_is_full_goes_on_to_the_next_page(rt: HostRuntime) {
    plays(
        &rt,
        97,
        "near 2*32; return 31; here*32; here; here; here",
        "pulled 64+ 64+; returned; pulled 0+ 0+; pulled 95 95; pulled 32 32; pulled 33 33",
    );
}

#[test]
fn a_place_at_the_last_page_goes_on_to_the_first(rt: HostRuntime) {
    plays(
        &rt,
        96,
        "place; place; here*32; near 1*32; return 32; return 32; here; here",
        "at page 1; at page 2; pulled 64+ 64+; pulled 32+ 32+; returned; returned; pulled 32 32; \
         pulled 0 0",
    );
}

#[test]
fn places_begin_eight_pages_apart_and_then_between(rt: HostRuntime) {
    plays(
        &rt,
        97,
        "here; place*3; place",
        "pulled 0 0; at page 1+; at page 0",
    );
    plays(
        &rt,
        640,
        "here; place; place; place; place",
        "pulled 0 0; at page 8; at page 16; at page 1; at page 9",
    );
}

#[test]
fn a_place_pulls_at_its_page(rt: HostRuntime) {
    plays(
        &rt,
        97,
        "place; here; pull",
        "at page 1; pulled 32 32; pulled 0 0",
    );
}

/// Items 160 and 64,000 come back to full pages, in this order. The next pull begins at the page of
/// the latter.
#[test]
fn a_pull_begins_at_page_2000_where_an_item_came_back(rt: HostRuntime) {
    plays(
        &rt,
        70_000,
        "pull*70000; return 160; return 63999; pull",
        "pulled 0+ 0+; returned; returned; pulled 64000 64000",
    );
}

/// As that of a pull: item 40 came back to a full page after item 3 did.
#[test]
fn a_pull_by_a_note_begins_where_a_hint_says(rt: HostRuntime) {
    plays(
        &rt,
        97,
        "pull*97; return 3; return 39; after 0",
        "..; returned; returned; pulled 40 40",
    );
}

#[test]
fn an_owner_goes_into_its_item_and_comes_back(rt: HostRuntime) {
    plays(
        &rt,
        33,
        "owner 1; again 0 1; owners; return 0; owners; items",
        "pulled 32 32; pulled 32 32; owners 2 34; returned; owners 1 34; items 33",
    );
}

#[test]
fn a_refused_owner_comes_back_with_its_note(rt: HostRuntime) {
    plays(
        &rt,
        33,
        "pull*33; owner 1; owner_after 32 0; owners",
        "..; refused limit; pulled 32 32; owners 2 34",
    );
}

#[test]
fn two_items_that_are_pulled_near_a_page_are_two(rt: HostRuntime) {
    plays(
        &rt,
        33,
        "two_near 0; two_near 1; pair; counts",
        "two 0 1; two 32 0; two 32 0; calls 33 resets 6 drops 0",
    );
}

#[test]
fn an_item_that_is_pulled_apart_goes_back_with_its_value(rt: HostRuntime) {
    plays(
        &rt,
        33,
        "apart 1 7; reset_first 1 8; near 1; pull*32; apart 1 9; return 32; apart 0 9; counts; \
         pull",
        "apart 32 32; apart 32 7; pulled 32 8; pulled 0+ 0+; refused limit; returned; apart 31 31; \
         calls 33 resets 4 drops 0; pulled 31 9",
    );
}
