//! Rows of events, one by one and in runs.
use super::{plays, plays_in};

#[test]
fn a_lost_clearing_tries_the_next_bit(rt: HostRuntime) {
    let row = "begin; begin; read 0+*2; clear 0; clear 1; clear 1; word 0 => began 0; began 1; \
               word 0+ 4294967295; pulled 0 0; found 1 4294967294; pulled 1 1; is 4294967292";
    plays(&rt, row);
}

#[test]
fn a_lost_link_takes_from_the_linked_page(rt: HostRuntime) {
    plays(&rt, "limit => none");
    plays_in(&rt, Some(2), "limit => at most 2");
    let row = "take*32; begin*2; read 32+*2; next 32+*2; make 32+*2; link 32; link 33; read 32; \
               clear 32; read 33; clear 33; counts; pages => pulled 0+ 0+; began 32+; word 32+ 0; \
               no next 32+; made 32+; linked 32; lost 33; word 32 4294967295; pulled 32 32; \
               word 33 4294967294; pulled 33 33; calls 96 reset 0 dropped 32; pages 2";
    plays(&rt, row);
    plays_in(&rt, Some(2), row);
}

#[test]
fn a_bit_that_was_taken_is_passed_over(rt: HostRuntime) {
    let row = "take*32; give 0; give 2; begin*2; read 32+*2; clear 33; clear 32; clear 32; word 0 \
               => ..; returned 0 0; returned 2 2; began 32+; word 32+ 5; pulled 33 0; found 32 4; \
               pulled 32 2; is 0";
    plays(&rt, row);
}

#[test]
fn an_event_that_is_not_enabled_changes_nothing(rt: HostRuntime) {
    let row = "begin; move_out 0; read 1; pages; word 0 => began 0; not enabled; not enabled; \
               pages 1; is 4294967295";
    plays(&rt, row);
}

#[test]
fn an_agent_alone_holds_after_three_events(rt: HostRuntime) {
    let row = "begin; read 0; clear 0; move_out 0; write 0 5; held 0; place 0 0; give 0; held 0; \
               place 0 0 => began 0; word 0 4294967295; pulled 0 0; moved out 0; wrote 0; has 5; \
               none; returned 0 0; none; has 6";
    plays(&rt, row);
}

/// Each place has the answer that `init` gave at its turn.
#[test]
fn an_agent_alone_links_a_page_after_a_full_one(rt: HostRuntime) {
    let row = "take*32; held 0+*32; begin; read 32; next 32; make 32; link 32; place 1 0+*32; \
               read 32; clear 32; move_out 32 => pulled 0+ 0+; has 0+; began 32; word 32 0; \
               no next 32; made 32; linked 32; has 32+; word 32 4294967295; pulled 32 32; \
               moved out 32";
    plays(&rt, row);
}

#[test]
fn a_refusal_leaves_the_pages_alone(rt: HostRuntime) {
    let row = "take*32; begin; read 32; next 32; move_home 7; or 7; refuse_limit 32; \
               refuse_init 32; pages; word 0 => ..; began 32; word 32 0; no next 32; moved home 7; \
               returned 7 7; not enabled; refused init 32; pages 1; is 128";
    plays(&rt, row);
}

#[test]
fn a_page_may_be_linked_although_a_number_came_back(rt: HostRuntime) {
    let row = "take*32; give 0; begin; read 32; begin; read 33; clear 33; word 0; give 5; word 0; \
               clear 32; next 32; make 32; link 32; read 32; clear 32; pages; word 0 => ..; \
               returned 0 0; began 32; word 32 1; began 33; word 33 1; pulled 33 0; is 0; \
               returned 5 5; is 32; found 32 32; no next 32; made 32; linked 32; \
               word 32 4294967295; pulled 32 32; pages 2; is 32";
    plays(&rt, row);
}

#[test]
fn a_full_world_at_its_limit_refuses(rt: HostRuntime) {
    for row in [
        "take*32; begin; read 32; next 32; pages; word 0 => ..; began 32; word 32 0; \
         refused limit 32; pages 1; is 0",
        "take*32; begin; read 32; give 7; next 32; pages; word 0 => ..; began 32; word 32 0; \
         returned 7 7; refused limit 32; pages 1; is 128",
    ] {
        plays_in(&rt, Some(1), row);
    }
}

#[test]
fn an_agent_alone_is_refused_after_two_events_a_page(rt: HostRuntime) {
    let row = "take*64; begin; read 64; next 64; read 64; next 64 => pulled 0+ 0+; began 64; \
               word 64 0; next 64; word 64 0; refused limit 64";
    plays_in(&rt, Some(2), row);
}

#[test]
fn agents_alone_pull_each_number_of_three_hundred_pages(rt: HostRuntime) {
    plays(&rt, "take*9600; pages => pulled 0+ 0+; pages 300");
}

#[test]
fn the_greatest_limit_needs_no_memory_beforehand(rt: HostRuntime) {
    let row = "limit; pages; take => at most 18446744073709551615; pages 1; pulled 0 0";
    plays_in(&rt, Some(usize::MAX), row);
}

#[test]
fn three_hundred_agents_read_one_word_in_one_run(rt: HostRuntime) {
    let row = "gather; begin*300; read 0+*300; run; run; seen 0+*300; seen 300+*300 => gathers; \
               gathered; gathered; seen 600; seen 600; began 0+; word 0+ 4294967295";
    plays(&rt, row);
}

/// The limit allows far fewer items than there are agents.
#[test]
fn a_world_of_one_page_takes_three_hundred_agents_in_two_runs(rt: HostRuntime) {
    let row = "gather; begin*300; run; read 0+*300; run; seen 300+*300 => gathers; gathered; \
               seen 300; gathered; seen 600; word 0+ 4294967295";
    plays_in(&rt, Some(1), row);
}

#[test]
fn seventy_thousand_agents_begin_in_one_run(rt: HostRuntime) {
    let row = "gather; begin*70000; run; seen 0+*70000 => gathers; gathered; seen 70000; began 0+";
    plays(&rt, row);
}
