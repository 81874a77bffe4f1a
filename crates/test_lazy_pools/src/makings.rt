//! When items are made, how many, and what is in use.
use crate::plays::plays;

#[test]
fn an_item_is_made_when_it_is_first_needed(rt: HostRuntime) {
    plays(
        &rt,
        70,
        "items; stands; counts; pull; return 0; pull; return 0; pull; stands; pull; stands; counts",
        "items 70; made 0 0 0; counts 0 0 0; pulled 0 0; left; pulled 0 0; left; pulled 0 0; \
         made 1 1 0; pulled 1 1; made 2 2 0; counts 2 2 0",
    );
}

#[test]
fn no_more_are_made_than_were_out_at_once(rt: HostRuntime) {
    plays(
        &rt,
        200,
        "pull*70; return 3; return 40; pull*2; stands; return 0+*70; pull*70; stands; \
         pull*130; pull; stands; counts",
        "pulled 0+ 0+; left; left; pulled _ _; made 70 70 0; left; pulled _ _; made 70 70 0; \
         pulled 70+ 70+; refused limit; made 200 200 0; counts 200 72 0",
    );
}

#[test]
fn a_pool_is_filled_beforehand(rt: HostRuntime) {
    plays(
        &rt,
        70,
        "fill 33; stands; fill 20; stands; refuse; fill 70; stands; counts; pull*33; pull; allow; \
         fill 1000; stands; counts; pull*37",
        "filled; made 33 0 0; filled; made 33 0 0; done; refused init; made 33 0 0; counts 34 0 0; \
         pulled 0+ 0+; refused init; done; filled; made 70 33 0; counts 72 0 0; pulled 33+ 33+",
    );
}

#[test]
fn a_forgotten_item_stays_out(rt: HostRuntime) {
    plays(
        &rt,
        2,
        "pull; forget 0; pull; pull; return 1; pull; stands",
        "pulled 0 0; left; pulled 1 1; refused limit; left; pulled 1 1; made 2 2 0",
    );
}

#[test]
fn pulls_near_their_pages_make_items_there(rt: HostRuntime) {
    plays(
        &rt,
        300,
        "near; near_page; near; near*31; near; pull; stands",
        "pulled 0 0; page 8; pulled 256 1; pulled 257+ 2+; pulled _ 33; pulled _ 34; made 35 35 0",
    );
}

#[test]
fn a_place_whose_page_is_full_makes_items_on_the_next_page(rt: HostRuntime) {
    plays(
        &rt,
        300,
        "near_page; near*32; pull; return 0; near; near; stands",
        "page 8; pulled 256+ 0+; pulled 0 32; left; pulled 0 32; pulled 288 33; made 34 34 0",
    );
}

#[test]
fn what_is_in_use_is_counted(rt: HostRuntime) {
    plays(
        &rt,
        70,
        "pull*40; stands; return 39; stands; discard 38; stands; forget 37; return 0+*37; stands; \
         pull*69; stands; return 0+*37; return 38+*32; stands",
        "pulled 0+ 0+; made 40 40 0; left; made 40 39 0; left; made 40 38 0; left; left; \
         made 40 1 0; pulled _ _; made 70 70 0; left; left; made 70 1 0",
    );
}
