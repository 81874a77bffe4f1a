//! Long lines, inputs of many reads, and replies of thousands of bytes to one read.
use super::*;
use std::fmt::Write as _;

/// A line of so many bytes is bad, with its line feed and without. The last is about one read, and
/// many reads.
#[test]
fn a_line_of_any_length_is_answered_with_a_line_feed_or_without(rt: HostRuntime) {
    for length in [1, 63, 64, 65, 1023, 1024, 1025, 2048, 100_000] {
        let mut input = repeated(&rt, "p", length);
        answers(&rt, NONE, input.as_str(), "bad line\n");
        input.push_str("\npull\n").expect(&rt, "memory is left");
        answers(&rt, NONE, input.as_str(), "bad line\npulled 0 value 0\n");
    }
}

#[test]
fn a_line_of_more_than_64_bytes_is_bad(rt: HostRuntime) {
    let mut input = repeated(&rt, "a", 64);
    input.push_str("pull\npull\n").expect(&rt, "memory is left");
    let expected = "bad line\npulled 0 number 0 value 0\n";
    answers(&rt, LINEAR, input.as_str(), expected);
}

#[test]
fn each_byte_alone_is_a_bad_line(rt: HostRuntime) {
    for byte in 0..=255u8 {
        let line = [byte, b'\n'];
        let input = Input {
            rest: &line,
            ..Input::new("")
        };
        let expected = if byte == b'\n' {
            "bad line\nbad line\n"
        } else {
            "bad line\n"
        };
        let output = Device::new(rt.alloc(), 64, 64);
        plays(&rt, STACK, input, output, Ok(()), expected);
    }
}

/// The replies to so many pulls alone, on a pool of at most 32 items where it has a limit.
fn replies(rt: &(impl Abort + AllocGlobal), kind: Kind, pulls: usize) -> String {
    let mut text = String::new(rt.alloc());
    for pulled in 0..pulls {
        let written = match kind {
            Kind::Bounded(_) if pulled >= 32 => text.push_str("refused limit\n"),
            Kind::Stack | Kind::None => write!(text, "pulled {pulled} value 0\n"),
            _ => write!(text, "pulled {pulled} number {pulled} value 0\n"),
        };
        written.expect(rt, "memory is left");
    }
    text
}

#[test]
fn a_bounded_pool_refuses_at_its_limit(rt: HostRuntime) {
    let kind = Kind::Bounded(1);
    let (mut input, mut expected) = (repeated(&rt, "pull\n", 33), replies(&rt, kind, 33));
    let more = input.push_str("return 7\npull\n");
    more.expect(&rt, "memory is left");
    let more = expected.push_str("returned 7\npulled 32 number 7 value 0\n");
    more.expect(&rt, "memory is left");
    answers(&rt, (kind, Reset::Keep), input.as_str(), expected.as_str());
}

#[test]
fn an_input_that_fills_each_read_is_answered_line_by_line(rt: HostRuntime) {
    for kind in [Kind::Linear, Kind::Bounded(1), Kind::Stack, Kind::None] {
        let (input, expected) = (repeated(&rt, "pull\n", 1500), replies(&rt, kind, 1500));
        answers(&rt, (kind, Reset::Keep), input.as_str(), expected.as_str());
    }
}

#[test]
fn a_great_limit_needs_no_memory_beforehand(rt: HostRuntime) {
    for pages in [4294967295, 4294967296, usize::MAX] {
        let row = "pull\n=>pulled 0 number 0 value 0\n";
        says(&rt, (Kind::Bounded(pages), Reset::Keep), row);
    }
}

/// More than a number of 16 bits counts.
#[test]
fn each_of_seventy_thousand_reads_is_answered(rt: HostRuntime) {
    let (input, expected) = (
        repeated(&rt, "-\n", 70_000),
        repeated(&rt, "bad line\n", 70_000),
    );
    let input = Input {
        most: 2,
        ..Input::new(input.as_str())
    };
    let output = Device::new(rt.alloc(), usize::MAX, usize::MAX);
    plays(&rt, NONE, input, output, Ok(()), expected.as_str());
}

/// A read of at most so many bytes begins with it, or has it at another place.
#[test]
fn a_zero_byte_makes_a_line_bad_and_ends_nothing(rt: HostRuntime) {
    for most in [2, 5, 1024] {
        let input = Input {
            most,
            ..Input::new("pull\n\0pull\npull\npu\0ll\n\0")
        };
        let expected = "pulled 0 value 0\nbad line\npulled 1 value 0\nbad line\nbad line\n";
        let output = Device::new(rt.alloc(), 1024, 1024);
        plays(&rt, NONE, input, output, Ok(()), expected);
    }
}

/// The replies to one read of empty lines are the most bytes of all replies to one read. A device
/// may take few or thousands of them a call, and is written to no oftener than it has to be.
#[test]
fn replies_of_thousands_of_bytes_are_one_write(rt: HostRuntime) {
    let (input, expected) = (repeated(&rt, "\n", 1024), repeated(&rt, "bad line\n", 1024));
    for (most, writes) in [
        (usize::MAX, 1),
        (9215, 2),
        (8193, 2),
        (5000, 2),
        (4097, 3),
        (4096, 3),
        (7, 1317),
        (1, 9216),
    ] {
        let (input, output) = (
            Input::new(input.as_str()),
            Device::new(rt.alloc(), 9216, most),
        );
        let told = plays(&rt, NONE, input, output, Ok(()), expected.as_str());
        assert_equal(&rt, (most, told.1), (most, writes));
    }
}
