//! Rows of commands to a linear pool. Its limit is in pages, 0 for none. Item `i` of a new page has
//! the value of the call of `init` that made it.
use crate::opened::{plays, plays_often};

#[test]
fn a_written_five_comes_again_where_reset_keeps_it(rt: HostRuntime) {
    plays(
        &rt,
        0,
        "pull; write 0 5; return 0; pull; counts",
        "pulled 0 0; written; returned; pulled 0 5; calls 32 resets 1 drops 0",
    );
}

#[test]
fn an_item_is_reset_to_zero_twice(rt: HostRuntime) {
    plays_often(
        &rt,
        0,
        2,
        "zero; pull; write 0 1; return 0",
        "set; pulled 0 0; written; returned",
    );
}

#[test]
fn ten_pulls_in_turn_count_up_from_zero_in_the_first_item(rt: HostRuntime) {
    plays_often(
        &rt,
        0,
        10,
        "zero; pull; write 0 1; look 0; write 0 2; look 0; return 0",
        "set; pulled 0 0; written; lies 0 1; written; lies 0 2; returned",
    );
}

#[test]
fn ten_pairs_that_are_held_together_have_the_first_two_items(rt: HostRuntime) {
    plays(
        &rt,
        0,
        "pair*10; counts",
        "two 0 1; calls 32 resets 20 drops 0",
    );
}

#[test]
fn the_33rd_held_item_is_the_first_of_page_1_and_the_34th_the_second(rt: HostRuntime) {
    plays(
        &rt,
        0,
        "pull*32; pull; pull; counts",
        "pulled 0+ 0+; pulled 32 32; pulled 33 33; calls 64 resets 0 drops 0",
    );
}

/// The last of page 0 and the first of page 1.
#[test]
fn two_items_of_two_pages_are_a_pair(rt: HostRuntime) {
    plays(
        &rt,
        0,
        "pull*31; pair; pair",
        "pulled 0+ 0+; two 31 32; two 31 32",
    );
}

#[test]
fn a_limit_is_told(rt: HostRuntime) {
    plays(&rt, 0, "limit", "no limit");
    plays(&rt, 3, "limit", "limit 3");
}

#[test]
fn a_limit_of_one_page_refuses_the_33rd_pull_and_gives_number_7_once_it_returned(rt: HostRuntime) {
    plays(
        &rt,
        1,
        "pull*32; pull; try; again; reset_first; pair; return 7; pull",
        "pulled 0+ 0+; refused limit; refused limit; refused limit; refused limit; refused limit; \
         returned; pulled 7 7",
    );
}

#[test]
fn a_limit_of_one_page_refuses_the_33rd_owned_pull_and_gives_number_7_once_it_returned(
    rt: HostRuntime,
) {
    plays(
        &rt,
        1,
        "owned*32; owned; return 7; owned",
        "pulled 0+ 0+; refused limit; returned; pulled 7 7",
    );
}

#[test]
fn a_limit_of_two_pages_gives_the_first_item_of_64_once_it_returned(rt: HostRuntime) {
    plays(
        &rt,
        2,
        "pull*64; pull; return 0; pull; pull",
        "pulled 0+ 0+; refused limit; returned; pulled 0 0; refused limit",
    );
}

#[test]
fn the_first_item_of_64_is_pulled_again_once_it_returned(rt: HostRuntime) {
    plays(
        &rt,
        0,
        "pull*64; return 0; pull; counts",
        "pulled 0+ 0+; returned; pulled 0 0; calls 64 resets 1 drops 0",
    );
}

#[test]
fn a_forgotten_item_stays_out_and_the_pools_end_drops_the_other_31(rt: HostRuntime) {
    plays(
        &rt,
        0,
        "pull; forget 0; pull; return 0; pull; counts",
        "pulled 0 0; forgotten; pulled 1 1; returned; pulled 1 1; calls 32 resets 1 drops 0",
    );
}

/// Items 32 and 69 came back to full pages, and 0 to the first, which is asked before hinted ones.
#[test]
fn a_pull_asks_the_first_page_then_a_hinted_one_then_each_in_turn(rt: HostRuntime) {
    plays(
        &rt,
        0,
        "pull*100; return 69; return 32; return 0; pull; pull; pull; pull",
        "pulled 0+ 0+; returned; returned; returned; \
         pulled 0 0; pulled 32 32; pulled 69 69; pulled 100 100",
    );
}

#[test]
fn a_pull_by_a_note_gives_what_it_returned(rt: HostRuntime) {
    plays(
        &rt,
        0,
        "again; return 0; pull*32; again; again; counts",
        "pulled 0 0; returned; pulled 0+ 0+; pulled 32 32; pulled 33 33; calls 64 resets 2 drops 0",
    );
}

/// What two holders of one page know, one borrowed and one owned, goes into notes.
#[test]
fn holders_tell_what_they_know(rt: HostRuntime) {
    plays(
        &rt,
        0,
        "owned; pull; tell 0; tell 1; write 0 11; give 0; pull; give 0; pull",
        "pulled 0 0; pulled 1 1; told; told; written; returned; pulled 0 11; returned; pulled 1 1",
    );
}

#[test]
fn an_item_that_is_reset_first_goes_back_with_its_value(rt: HostRuntime) {
    plays(
        &rt,
        0,
        "pull*40; reset_first 7; pull; zero; return 40; reset_first 8; pull; counts",
        "pulled 0+ 0+; reset 40 40; pulled 40 7; set; returned; reset 40 0; pulled 40 0; \
         calls 64 resets 3 drops 0",
    );
}

#[test]
fn an_init_that_refuses_a_growth_is_asked_once_a_pull(rt: HostRuntime) {
    plays(
        &rt,
        0,
        "pull*32; refuse 0; pull; refuse 0; owned; counts; pull",
        "..; set; refused init; set; refused init; calls 34 resets 0 drops 0; pulled 32 34",
    );
}

/// The pool ends with the borrowed items that are held.
#[test]
fn refused_pulls_let_their_pool_end(rt: HostRuntime) {
    plays(
        &rt,
        0,
        "pull*32; refuse 0; owned; owners; counts",
        "..; set; refused init; owners 1 33; calls 33 resets 0 drops 0",
    );
}

#[test]
fn pulls_refused_at_the_limit_let_their_pool_end(rt: HostRuntime) {
    plays(
        &rt,
        1,
        "pull*32; owned; owners",
        "..; refused limit; owners 1 33",
    );
}

#[test]
fn a_pool_ends_with_its_last_owned_item(rt: HostRuntime) {
    plays(
        &rt,
        0,
        "owned; pull*40; owned; owners",
        "pulled 0 0; pulled 1+ 1+; pulled 41 41; owners 3 65",
    );
}
