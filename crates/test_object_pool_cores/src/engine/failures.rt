//! Devices that fail, and want of memory, on each kind of pool.
use super::*;
use std::io::ErrorKind;

/// An input for a kind of pool, whose last line has no line feed, with a reply for each line.
type Session = (Pool, &'static str, &'static str);

const SESSIONS: [Session; 4] = [
    (
        LINEAR,
        "pull\nwrite 0 5\nreturn 0\npull",
        "pulled 0 number 0 value 0\nwritten 0\nreturned 0\npulled 1 number 0 value 5\n",
    ),
    (
        (Kind::Bounded(1), Reset::Keep),
        "pull\nattach 1\nforget 0\npull",
        "pulled 0 number 0 value 0\nnot offered\nforgotten 0\npulled 1 number 1 value 0\n",
    ),
    (
        STACK,
        "attach 9\nreturn 0\npull\nforget 1\npul",
        "attached 0\nreturned 0\npulled 1 value 9\nforgotten 1\nbad line\n",
    ),
    (
        NONE,
        "pull\nwrite 0 5\nreturn 0\npull",
        "pulled 0 value 0\nwritten 0\nreturned 0\npulled 1 value 0\n",
    ),
];

/// A reader of at most so many bytes a call fails after each count of bytes, also where the input
/// would end. Each whole line has its reply.
fn reads_that_fail(rt: &(impl Wait + Abort + AllocGlobal), session: Session, most: usize) {
    let (pool, text, replies) = session;
    let mut answered = 0usize;
    for good in 0..=text.len() {
        let (before, _) = text.split_at_checked(good).unwrap_or((text, ""));
        let input = Input {
            most,
            cause: Some(ErrorKind::Other),
            ..Input::new(before)
        };
        let output = Device::new(rt.alloc(), 1024, 1024);
        let (expected, rest) = replies.split_at_checked(answered).unwrap_or((replies, ""));
        plays(rt, pool, input, output, READ_FAILED, expected);
        if text.as_bytes().get(good) == Some(&b'\n') {
            if let Some((line, _)) = rest.split_once('\n') {
                answered = answered.saturating_add(line.len()).saturating_add(1);
            }
        }
    }
}

#[test]
fn a_reader_that_fails_leaves_the_replies_to_whole_lines(rt: HostRuntime) {
    for session in SESSIONS {
        for most in [1, 7, 1024] {
            reads_that_fail(&rt, session, most);
        }
    }
}

/// A writer that takes at most so many bytes a call fails after each count of bytes.
fn writes_that_fail(rt: &(impl Wait + Abort + AllocGlobal), session: Session, most: usize) {
    let (pool, text, replies) = session;
    for room in 0..replies.len() {
        let (input, output) = (Input::new(text), Device::new(rt.alloc(), room, most));
        let (expected, _) = replies.split_at_checked(room).unwrap_or((replies, ""));
        plays(rt, pool, input, output, WRITE_FAILED, expected);
    }
}

#[test]
fn a_writer_that_fails_has_a_beginning_of_the_replies(rt: HostRuntime) {
    for session in SESSIONS {
        for most in [1, 7, 1024] {
            writes_that_fail(&rt, session, most);
        }
    }
}

#[test]
fn a_device_fails_within_a_line(rt: HostRuntime) {
    let input = Input {
        cause: Some(ErrorKind::Other),
        ..Input::new("pull\nwri")
    };
    let (output, expected) = (
        Device::new(rt.alloc(), 64, 64),
        "pulled 0 number 0 value 0\n",
    );
    plays(&rt, LINEAR, input, output, READ_FAILED, expected);
    let (input, output) = (Input::new("pull\n"), Device::new(rt.alloc(), 10, 64));
    plays(&rt, LINEAR, input, output, WRITE_FAILED, "pulled 0 n");
}

/// One write for the read, and one for the line that has no line feed. The second read finds the end.
#[test]
fn replies_to_one_read_are_one_write(rt: HostRuntime) {
    for (pool, text, replies) in SESSIONS {
        let (input, output) = (Input::new(text), Device::new(rt.alloc(), 1024, 1024));
        let told = plays(&rt, pool, input, output, Ok(()), replies);
        assert_equal(&rt, told, (2, 2));
    }
}

#[test]
fn a_writer_may_take_one_byte_a_call_or_none(rt: HostRuntime) {
    for (pool, text, replies) in SESSIONS {
        let (input, output) = (Input::new(text), Device::new(rt.alloc(), 1024, 1));
        let told = plays(&rt, pool, input, output, Ok(()), replies);
        assert_equal(&rt, told.1, replies.len());
        let (input, output) = (Input::new(text), Device::new(rt.alloc(), 1024, 0));
        let told = plays(&rt, pool, input, output, WRITE_FAILED, "");
        assert_equal(&rt, told, (1, 1));
    }
}

/// Causes for which others might ask again.
const PASSING: [ErrorKind; 4] = [
    ErrorKind::Interrupted,
    ErrorKind::WouldBlock,
    ErrorKind::TimedOut,
    ErrorKind::OutOfMemory,
];

/// The reader fails at its first read, behind a whole line, or within one.
#[test]
fn a_read_that_fails_is_never_asked_again(rt: HostRuntime) {
    for cause in PASSING {
        for (text, expected, reads) in [
            ("", "", 1),
            ("pull\n", "pulled 0 value 0\n", 2),
            ("pull\npu", "pulled 0 value 0\n", 3),
        ] {
            let input = Input {
                most: 5,
                cause: Some(cause),
                ..Input::new(text)
            };
            let output = Device::new(rt.alloc(), 1024, 1024);
            let told = plays(&rt, STACK, input, output, READ_FAILED, expected);
            assert_equal(&rt, (cause, told.0), (cause, reads));
        }
    }
}

#[test]
fn a_write_that_fails_is_never_asked_again(rt: HostRuntime) {
    for cause in PASSING {
        let output = Device {
            cause: Some(cause),
            ..Device::new(rt.alloc(), 1024, 1024)
        };
        let told = plays(&rt, STACK, Input::new("pull\n"), output, WRITE_FAILED, "");
        assert_equal(&rt, (cause, told.1), (cause, 1));
    }
}

/// The replies to the stack's session where there is no memory for what is attached.
const ATTACH_REFUSED: &str =
    "refused memory\nno such holder\npulled 0 value 0\nno such holder\nbad line\n";

/// Holds where each request for memory is refused in turn, and where none is.
#[test]
fn want_of_memory_is_answered_as_such(rt: HostRuntime) {
    for (pool, text, replies) in SESSIONS {
        let Ok(bytes) = Vec::with_capacity(rt.alloc(), 1024) else {
            continue;
        };
        let mut output = Device {
            bytes,
            ..Device::new(rt.alloc(), 1024, 1024)
        };
        let ending = play(&rt, pool, &mut Input::new(text), &mut output);
        let told = output.bytes.as_slice();
        let is_fair = match ending {
            Ok(()) => told == replies.as_bytes() || told == ATTACH_REFUSED.as_bytes(),
            Err(EngineError::Memory) => {
                replies.as_bytes().starts_with(told) && (told.is_empty() || told.ends_with(b"\n"))
            }
            Err(_) => false,
        };
        assert!(rt; is_fair, "{pool:?}, {ending:?}");
    }
}
