//! Whole runs, told by their arguments, input and output.
use super::*;
use object_pool_cores::engine::EngineError;
use std::io;
use std::io::ErrorKind;
use std::test::Fail;

#[test]
fn a_limit_of_one_page_refuses_the_33rd_pull(rt: HostRuntime) -> Result<(), Fail> {
    let mut input = String::new(rt.alloc());
    let mut expected = String::new(rt.alloc());
    for i in 0..33u8 {
        input.push_str("pull\n")?;
        if i < 32 {
            write!(expected, "pulled {i} number {i} value 0\n")?;
        }
    }
    input.push_str("return 7\npull\n")?;
    expected.push_str("refused limit\nreturned 7\npulled 32 number 7 value 0\n")?;
    let mut output = Vec::new(rt.alloc());
    let ending = play(
        &rt,
        rt.alloc(),
        &["linear", "keep", "1"],
        &mut input.as_bytes(),
        &mut output,
    );
    assert_eq!(rt; ending, Ending::EndOfInput);
    assert_eq!(rt; output.as_slice(), expected.as_bytes());
    Ok(())
}

#[test]
fn two_pages_refuse_the_65th_pull_and_no_limit_gives_it(rt: HostRuntime) -> Result<(), Fail> {
    let mut input = String::new(rt.alloc());
    for _ in 0..65u8 {
        input.push_str("pull\n")?;
    }
    let rows: [(&[&str], &str); 2] = [
        (&["linear", "keep", "2"], "\nrefused limit\n"),
        (&["linear", "keep"], "\npulled 64 number 64 value 0\n"),
    ];
    for (words, last) in rows {
        let mut output = Vec::new(rt.alloc());
        let ending = play(&rt, rt.alloc(), words, &mut input.as_bytes(), &mut output);
        assert_eq!(rt; ending, Ending::EndOfInput);
        assert!(rt; output.ends_with(last.as_bytes()), "{words:?}");
    }
    Ok(())
}

#[test]
fn each_pool_plays_by_its_words(rt: HostRuntime) {
    let rows: [(&[&str], &str, &str); 6] = [
        (
            &["linear", "keep"],
            "pull\nwrite 0 5\nreturn 0\npull\n",
            "pulled 0 number 0 value 0\nwritten 0\nreturned 0\npulled 1 number 0 value 5\n",
        ),
        (
            &["linear", "zero"],
            "pull\nwrite 0 5\nreturn 0\npull\n",
            "pulled 0 number 0 value 0\nwritten 0\nreturned 0\npulled 1 number 0 value 0\n",
        ),
        (
            &["stack", "keep"],
            "attach 9\nreturn 0\npull\nforget 1\npull\n",
            "attached 0\nreturned 0\npulled 1 value 9\nforgotten 1\npulled 2 value 0\n",
        ),
        (
            &["stack", "zero"],
            "attach 9\nreturn 0\npull\n",
            "attached 0\nreturned 0\npulled 1 value 0\n",
        ),
        (
            &["none", "keep"],
            "pull\nwrite 0 5\nreturn 0\npull\nattach 1\n",
            "pulled 0 value 0\nwritten 0\nreturned 0\npulled 1 value 0\nnot offered\n",
        ),
        (&["none", "zero"], "", ""),
    ];
    for (words, input, expected) in rows {
        let mut output = Vec::new(rt.alloc());
        let ending = play(&rt, rt.alloc(), words, &mut input.as_bytes(), &mut output);
        assert_eq!(rt; ending, Ending::EndOfInput, "{words:?}");
        assert_eq!(rt; output.as_slice(), expected.as_bytes(), "{words:?}");
    }
}

#[test]
fn the_greatest_number_of_pages_is_played(rt: HostRuntime) {
    let mut input = b"pull\n".as_slice();
    let mut output = Vec::new(rt.alloc());
    let words = ["linear", "keep", "4294967295"];
    let ending = play(&rt, rt.alloc(), &words, &mut input, &mut output);
    assert_eq!(rt;
        (ending, output.as_slice()),
        (
            Ending::EndOfInput,
            b"pulled 0 number 0 value 0\n".as_slice()
        )
    );
}

#[test]
fn other_arguments_leave_the_input_unread(rt: HostRuntime) {
    for words in [["stack", "zero", "1"], ["linear", "zero", "0"]] {
        let mut input = b"pull\n".as_slice();
        let mut output = Vec::new(rt.alloc());
        let ending = play(&rt, rt.alloc(), &words, &mut input, &mut output);
        assert_eq!(rt; ending, Ending::OtherArguments, "{words:?}");
        assert_eq!(rt;
            (input, output.len()),
            (b"pull\n".as_slice(), 0),
            "{words:?}"
        );
    }
}

/// Fails at each call.
#[derive(Drop)]
struct Broken;

impl Read for Broken {
    fn read(&mut self, _buf: &mut [u8]) -> io::Result<usize> {
        Err(io::Error::from(ErrorKind::Other))
    }
}

impl Write for Broken {
    fn write(&mut self, _buf: &[u8]) -> io::Result<usize> {
        Err(io::Error::from(ErrorKind::Other))
    }

    fn flush(&mut self) -> io::Result<()> {
        Ok(())
    }
}

#[test]
fn a_broken_device_is_told_as_a_failed_read_or_write(rt: HostRuntime) {
    let words = ["none", "keep"];
    let mut output = Vec::new(rt.alloc());
    let ending = play(&rt, rt.alloc(), &words, &mut Broken, &mut output);
    assert_eq!(rt; ending, Ending::Stopped(EngineError::Read));
    assert_eq!(rt; output.len(), 0);
    let mut input = b"pull\n".as_slice();
    let ending = play(&rt, rt.alloc(), &words, &mut input, &mut Broken);
    assert_eq!(rt; ending, Ending::Stopped(EngineError::Write));
}

/// Takes all bytes, and counts the writes.
#[derive(Drop)]
struct Counting {
    writes: usize,
}

impl Write for Counting {
    fn write(&mut self, buf: &[u8]) -> io::Result<usize> {
        self.writes = self.writes.saturating_add(1);
        Ok(buf.len())
    }

    fn flush(&mut self) -> io::Result<()> {
        Ok(())
    }
}

#[test]
fn nothing_is_written_where_there_is_nothing_to_write(rt: HostRuntime) {
    let rows: [(&[&str], &str, usize); 6] = [
        (&["none"], "pull\n", 0),
        (&["none", "keep"], "", 0),
        (&["none", "keep"], "pull", 1),
        (&["none", "keep"], "pull\n", 1),
        (&["none", "keep"], "pull\npull\n", 1),
        (&["none", "keep"], "pull\npull", 2),
    ];
    for (words, input, writes) in rows {
        let mut output = Counting { writes: 0 };
        let _ = play(&rt, rt.alloc(), words, &mut input.as_bytes(), &mut output);
        assert_eq!(rt; output.writes, writes, "{words:?}, {input:?}");
    }
}

// Holds where each request for memory is refused in turn, and where none is.
#[test]
fn want_of_memory_is_told_as_such(rt: HostRuntime) {
    let replies = b"pulled 0 number 0 value 0\nreturned 0\n".as_slice();
    let mut input = b"pull\nreturn 0\n".as_slice();
    let mut room = [0; 64];
    let mut output = room.as_mut_slice();
    let ending = play(
        &rt,
        rt.alloc(),
        &["linear", "keep"],
        &mut input,
        &mut output,
    );
    let is_whole = ending == Ending::EndOfInput && room.starts_with(replies);
    assert!(rt;
        is_whole || ending == Ending::Stopped(EngineError::Memory),
        "{ending:?}"
    );
}
