//! Whole inputs with their outputs. In a row `=>` stands before what is answered.
mod devices;
mod failures;
mod long;

use crate::assert_equal::assert_equal;
use devices::{Device, Input};
use object_pool_cores::engine::*;
use std::process::Abort;
use std::sync::Wait;

/// A kind of pool, and what its reset leaves.
type Pool = (Kind, Reset);

const LINEAR: Pool = (Kind::Linear, Reset::Keep);

const STACK: Pool = (Kind::Stack, Reset::Keep);

const NONE: Pool = (Kind::None, Reset::Keep);

type Ending = Result<(), EngineError>;

const READ_FAILED: Ending = Err(EngineError::Read);

const WRITE_FAILED: Ending = Err(EngineError::Write);

/// Plays an input on a pool, of at least one page where it has a limit.
fn play<H: Wait + AllocGlobal>(
    rt: &H,
    pool: Pool,
    input: &mut Input<'_>,
    output: &mut Device,
) -> Ending {
    let (kind, reset) = pool;
    let kind = match kind {
        Kind::Bounded(pages) => Kind::Bounded(pages.max(1)),
        Kind::Linear | Kind::Stack | Kind::None => kind,
    };
    run(rt, rt.alloc(), kind, reset, input, output)
}

/// Plays an input. It has to end so, with these bytes on the device. Returns how often the input was
/// read, and the device written to.
fn plays(
    rt: &(impl Abort + Wait + AllocGlobal),
    pool: Pool,
    mut input: Input<'_>,
    mut output: Device,
    ending: Ending,
    expected: &str,
) -> (usize, usize) {
    let ended = play(rt, pool, &mut input, &mut output);
    let is_expected = output.bytes.as_slice() == expected.as_bytes();
    assert!(*rt;
        is_expected && ended == ending,
        "{pool:?}, {ended:?}, {expected:?}"
    );
    (input.reads, output.writes)
}

/// Plays an input, whose output has to be the one that is expected.
fn answers(rt: &(impl Abort + Wait + AllocGlobal), pool: Pool, input: &str, expected: &str) {
    let output = Device::new(rt.alloc(), usize::MAX, usize::MAX);
    plays(rt, pool, Input::new(input), output, Ok(()), expected);
}

/// Plays a row.
fn says(rt: &(impl Abort + Wait + AllocGlobal), pool: Pool, row: &str) {
    let (input, expected) = row.split_once("=>").expect(rt, "a row has two halves");
    answers(rt, pool, input, expected);
}

/// Returns a line so many times.
fn repeated(rt: &(impl Abort + AllocGlobal), line: &str, times: usize) -> String {
    let mut text = String::new(rt.alloc());
    for _ in 0..times {
        text.push_str(line).expect(rt, "memory is left");
    }
    text
}

#[test]
fn answers_each_line(rt: HostRuntime) {
    for row in [
        "pull\nwrite 0 5\nreturn 0\npull\n=>pulled 0 number 0 value 0\nwritten 0\nreturned 0\n\
         pulled 1 number 0 value 5\n",
        "attach 1\n=>not offered\n",
        "pull\nwrite 0000000000 0000000005\nwrite 00000000000 5\n=>pulled 0 number 0 value 0\n\
         written 0\nbad line\n",
        "pull \nwrite  0 5\nreturn\n=>bad line\nbad line\nbad line\n",
        "pull\r\n=>bad line\n",
        "return 4294967295\nreturn 4294967296\n=>no such holder\nbad line\n",
        "pull\nforget 0\nreturn 0\npull\n=>pulled 0 number 0 value 0\nforgotten 0\n\
         no such holder\npulled 1 number 1 value 0\n",
    ] {
        says(&rt, LINEAR, row);
    }
    let row = "pull\npul=>pulled 0 number 0 value 0\nbad line\n";
    says(&rt, (Kind::Linear, Reset::Zero), row);
}

#[test]
fn a_reset_to_zero_and_bad_lines(rt: HostRuntime) {
    let row = "return 3\npull\nPULL\nwrite 0 4294967296\nwrite 0 4294967295\nreturn 0\nreturn 0\n\
               pull\n\n=>no such holder\npulled 0 number 0 value 0\nbad line\nbad line\n\
               written 0\nreturned 0\nno such holder\npulled 1 number 0 value 0\nbad line\n";
    says(&rt, (Kind::Linear, Reset::Zero), row);
}

#[test]
fn plays_a_stack_and_fresh_items(rt: HostRuntime) {
    let row = "attach 9\nreturn 0\npull\nforget 1\npull\n=>attached 0\nreturned 0\n\
               pulled 1 value 9\nforgotten 1\npulled 2 value 0\n";
    says(&rt, STACK, row);
    let row = "pull\nwrite 0 5\nreturn 0\npull\nattach 1\n=>pulled 0 value 0\nwritten 0\n\
               returned 0\npulled 1 value 0\nnot offered\n";
    says(&rt, NONE, row);
}

#[test]
fn no_line_has_no_reply(rt: HostRuntime) {
    for kind in [Kind::Linear, Kind::Bounded(1), Kind::Stack, Kind::None] {
        says(&rt, (kind, Reset::Zero), "=>");
    }
}

#[test]
fn the_greatest_numbers_are_answered_in_each_command(rt: HostRuntime) {
    let row = "attach 4294967295\nwrite 4294967295 1\nreturn 4294967295\nforget 4294967295\npull\n\
               write 1 4294967295\nreturn 1\npull\n=>attached 0\nno such holder\n\
               no such holder\nno such holder\npulled 1 value 0\nwritten 1\nreturned 1\n\
               pulled 2 value 4294967295\n";
    says(&rt, STACK, row);
}

#[test]
fn each_kind_of_pool_is_reset_to_zero(rt: HostRuntime) {
    let row = "pull\nwrite 0 5\nreturn 0\npull\n=>pulled 0 number 0 value 0\nwritten 0\n\
               returned 0\npulled 1 number 0 value 0\n";
    for pages in [1, 2, 100] {
        says(&rt, (Kind::Bounded(pages), Reset::Zero), row);
    }
    says(&rt, (Kind::Linear, Reset::Zero), row);
    let row = "pull\nwrite 0 5\nreturn 0\npull\n=>pulled 0 value 0\nwritten 0\nreturned 0\n\
               pulled 1 value 0\n";
    says(&rt, (Kind::Stack, Reset::Zero), row);
    says(&rt, (Kind::None, Reset::Zero), row);
}
