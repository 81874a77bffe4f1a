//! Texts that threads look at, and what they answer.
ghost use Rattle.std.specs.Prelude.{◌≤◌};

use super::*;
use crate::assert_equal::assert_equal;
use crate::home::take_all;
use std::mem;
use std::process::Abort;

/// Creates a pool of so many pages, whose scratches have room for eight bytes.
fn pool_of(rt: &impl Abort, alloc: Global, pages: usize) -> ScratchPool
    requires { 1 ≤ pages }
{
    let pool = LinearObjectPool::with_limit(alloc, WithCapacity::new(alloc, 8), Clear, pages);
    pool.expect(rt, "a pool is made")
}

/// Makes a text of each word.
fn texts_of(alloc: Global, words: &[&[u8]]) -> Result<Vec<Vec<u8>>, AllocError> {
    let mut texts = Vec::with_capacity(alloc, words.len())?;
    for word in words {
        texts.push(Vec::from_slice(alloc, word)?)?;
    }
    Ok(texts)
}

/// Returns what one thread answers to all texts.
fn answers_alone(alloc: Global, texts: &[Vec<u8>]) -> Result<Vec<Option<bool>>, AllocError> {
    let mut answers = Vec::with_capacity(alloc, texts.len())?;
    for text in texts {
        let mut scratch = Vec::new(alloc);
        answers.push(Some(is_palindrome(text, &mut scratch)?))?;
    }
    Ok(answers)
}

/// Has threads look at texts, a number of times. Each time their answers are those expected.
fn answer_often<R: Abort + Threads + Sync>(
    rt: &R,
    alloc: Global,
    pool: &ScratchPool,
    texts: &[Vec<u8>],
    expected: &[Option<bool>],
    times: usize,
) {
    for _ in 0..times {
        let answers = palindromes(rt, alloc, pool, texts).expect(rt, "nothing is refused");
        assert_equal(rt, answers.as_slice(), expected);
    }
}

#[test]
fn threads_answer_as_one_thread_does(rt: HostRuntime) {
    let words: [&[u8]; 5] = [b"level", b"pool", b"", b"noon", b"lever"];
    let texts = texts_of(rt.alloc(), &words).expect(&rt, "memory is left");
    let alone = answers_alone(rt.alloc(), &texts).expect(&rt, "nothing is refused");
    let expected = [Some(true), Some(false), Some(true), Some(true), Some(false)];
    assert_equal(&rt, alone.as_slice(), expected.as_slice());
    let pool = pool_of(&rt, rt.alloc(), 2);
    answer_often(&rt, rt.alloc(), &pool, &texts, &expected, 20);
}

#[test]
fn each_of_forty_long_texts_has_an_answer(rt: HostRuntime) {
    let pool = pool_of(&rt, rt.alloc(), 2);
    let words = [[7; 1000].as_slice(); 40];
    let texts = texts_of(rt.alloc(), &words).expect(&rt, "memory is left");
    answer_often(&rt, rt.alloc(), &pool, &texts, &[Some(true); 40], 1);
}

#[test]
fn each_text_of_one_byte_is_a_palindrome(rt: HostRuntime) {
    let pool = pool_of(&rt, rt.alloc(), 2);
    let texts = texts_of(rt.alloc(), &[b"a", b"\0"]).expect(&rt, "memory is left");
    answer_often(&rt, rt.alloc(), &pool, &texts, &[Some(true); 2], 1);
}

/// Of each length a text of one letter, and the same with another letter behind it.
fn even_and_odd(alloc: Global) -> Result<Vec<Vec<u8>>, AllocError> {
    let mut texts = Vec::new(alloc);
    for len in [1, 4_096, 4_097, 70_000] {
        let even = vec![in alloc; b'a'; len]?;
        let mut odd = vec![in alloc; b'a'; len]?;
        odd.push(b'b')?;
        texts.push(even)?;
        texts.push(odd)?;
    }
    Ok(texts)
}

#[test]
fn long_texts_have_answers_and_their_scratches_come_home(rt: HostRuntime) {
    let pool = pool_of(&rt, rt.alloc(), 1);
    let texts = even_and_odd(rt.alloc()).expect(&rt, "nothing is refused");
    let (yes, no) = (Some(true), Some(false));
    let expected = [yes, no, yes, no, yes, no, yes, no];
    answer_often(&rt, rt.alloc(), &pool, &texts, &expected, 40);
}

/// Whichever request is refused, an answer is right or missing, and each scratch comes home.
#[test]
fn scratches_come_home_where_memory_was_refused(rt: HostRuntime) {
    let alloc = rt.alloc();
    let Ok(pool) = LinearObjectPool::with_limit(alloc, WithCapacity::new(alloc, 0), Clear, 1) else {
        return;
    };
    let cases = [
        (b"noon".as_slice(), true),
        (b"a longer text", false),
        (b"", true),
    ];
    for (text, expected) in cases {
        let answer = answered(&pool, text);
        assert_equal(&rt, answer.unwrap_or(expected), expected);
        assert!(rt; answer.is_some() || !text.is_empty());
    }
    if let Ok(texts) = even_and_odd(alloc) {
        drop(palindromes(&rt, alloc, &pool, &texts));
    }
    assert_equal(&rt, take_all(&pool), 32);
}

/// How many of the scratches of a page have room for a long text.
fn grown(rt: &impl Abort, pool: &ScratchPool) -> usize {
    let mut grown = 0usize;
    for _ in 0..32 {
        let scratch = pool.pull().expect(rt, "32 scratches are home");
        grown = grown.saturating_add(usize::from(scratch.capacity() >= 70_000));
        mem::forget(scratch);
    }
    grown
}

/// Has two threads look at a long text each. Returns how many scratches have room for one then.
fn grown_at_once<R: Abort + Threads + Sync>(rt: &R, alloc: Global) -> usize {
    let pool = pool_of(rt, alloc, 1);
    let texts = texts_of(alloc, &[&[7; 70_000], &[7; 70_000]]).expect(rt, "memory is left");
    drop(palindromes(rt, alloc, &pool, &texts));
    grown(rt, &pool)
}

/// Threads that look at texts at one time have a scratch each. One thread would take the same
/// scratch for each text.
#[test]
fn texts_are_looked_at_by_several_threads(rt: HostRuntime) {
    let mut most = 0;
    for _ in 0..1_000 {
        most = grown_at_once(&rt, rt.alloc());
        if most > 1 {
            break;
        }
    }
    assert_equal(&rt, most, 2);
}
