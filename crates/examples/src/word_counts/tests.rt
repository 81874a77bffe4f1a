//! Texts whose words threads count, and the lists that come home.
use super::*;
use crate::assert_equal::assert_equal;
use std::process::Abort;

/// Makes a text of these lines.
fn text_of(alloc: Global, lines: &[&[u8]]) -> Result<Vec<Vec<u8>>, AllocError> {
    let mut text = Vec::with_capacity(alloc, lines.len())?;
    for line in lines {
        text.push(Vec::from_slice(alloc, line)?)?;
    }
    Ok(text)
}

/// Makes four texts.
fn texts(alloc: Global) -> Result<Vec<Vec<Vec<u8>>>, AllocError> {
    let mut texts = Vec::with_capacity(alloc, 4)?;
    texts.push(text_of(alloc, &[b"one two", b"", b"  three "])?)?;
    texts.push(text_of(alloc, &[])?)?;
    texts.push(text_of(alloc, &[b"a b c d e f g h i", b"j"])?)?;
    texts.push(text_of(alloc, &[b" "])?)?;
    Ok(texts)
}

/// Creates a pool of four lists, which have room for two places.
fn pool_of_four(rt: &impl Abort, alloc: Global) -> PlacesPool {
    let pool = PlacesPool::new(alloc, WithCapacity::new(alloc, 2), Clear, 4);
    pool.expect(rt, "a pool is made")
}

/// Counts the lists of a pool that are free.
fn count_free(pool: &PlacesPool) -> usize {
    for free in 0..10 {
        match pool.pull() {
            Ok(places) => std::mem::forget(places),
            Err(_) => return free,
        }
    }
    10
}

#[test]
fn threads_count_words_and_their_lists_come_home(rt: HostRuntime) {
    let texts = texts(rt.alloc()).expect(&rt, "memory is left");
    let pool = pool_of_four(&rt, rt.alloc());
    for _ in 0..20 {
        let counts = word_counts(&rt, rt.alloc(), &pool, &texts).expect(&rt, "memory is left");
        let expected = [Some(3), Some(0), Some(10), Some(0)];
        assert_equal(&rt, counts.as_slice(), expected.as_slice());
    }
    assert_equal(&rt, count_free(&pool), 4);
}
