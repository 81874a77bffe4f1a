//! Rows that count the values that are made, reset and dropped.
use super::plays;

#[test]
fn a_write_drops_the_value_before_at_once(rt: HostRuntime) {
    let row = "take*2; counts; write 0 1; counts; write 0 2; counts; give 0; counts; write 0 4; \
               counts; give 1; counts => ..; calls 32 reset 0 dropped 0; wrote 0; \
               calls 33 reset 0 dropped 1; wrote 0; calls 34 reset 0 dropped 2; returned 0 0; \
               calls 34 reset 1 dropped 2; not enabled; calls 35 reset 1 dropped 3; returned 1 1; \
               calls 35 reset 2 dropped 3";
    plays(&rt, row);
}

/// Before each event of its life an agent tries to write a value and to make a page.
#[test]
fn what_cannot_be_written_or_linked_is_dropped_at_once(rt: HostRuntime) {
    let row = "write 0 1; make 0; counts; begin; write 0 1; make 0; counts; read 0; write 0 1; \
               make 0; counts; clear 0; write 0 1; make 0; counts; move_out 0; write 0 1; make 0; \
               counts; move_home 0; write 0 1; make 0; counts; or 0 => not enabled; not enabled; \
               calls 65 reset 0 dropped 33; began 0; not enabled; not enabled; \
               calls 98 reset 0 dropped 66; word 0 4294967295; not enabled; not enabled; \
               calls 131 reset 0 dropped 99; pulled 0 0; not enabled; not enabled; \
               calls 164 reset 0 dropped 132; moved out 0; wrote 0; not enabled; \
               calls 197 reset 0 dropped 165; moved home 0; not enabled; not enabled; \
               calls 230 reset 1 dropped 198; returned 0 0";
    plays(&rt, row);
}

/// Agent 32 makes its page before that of others is linked, or behind it, or never links it.
#[test]
fn a_page_that_comes_too_late_is_dropped_at_once(rt: HostRuntime) {
    for row in [
        "take*32; begin; read 32; next 32; make 32; take*289; counts; link 32; counts; pages => \
         ..; began 32; word 32 0; no next 32; made 32; ..; calls 384 reset 0 dropped 0; lost 32; \
         calls 384 reset 0 dropped 32; pages 11",
        "take*32; begin; read 32; next 32; take; make 32; counts; link 32; counts; pages => ..; \
         began 32; word 32 0; no next 32; pulled 33 32; made 32; calls 96 reset 0 dropped 0; \
         lost 32; calls 96 reset 0 dropped 32; pages 2",
        "take*32; begin; read 32; next 32; make 32; counts; pages => ..; began 32; word 32 0; \
         no next 32; made 32; calls 64 reset 0 dropped 0; pages 1",
    ] {
        plays(&rt, row);
    }
}

#[test]
fn a_run_drops_the_values_of_events_that_are_not_enabled(rt: HostRuntime) {
    let row = "gather; begin; write 0 1; make 0; counts; run; seen 0; seen 1; seen 2; counts => \
               gathers; gathered; gathered; gathered; calls 65 reset 0 dropped 0; seen 3; began 0; \
               not enabled; not enabled; calls 65 reset 0 dropped 33";
    plays(&rt, row);
}
