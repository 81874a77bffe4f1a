//! Sheets that four threads write.
use super::*;
use crate::assert_equal::assert_equal;
use crate::home::take_all;

#[test]
fn four_threads_write_ten_letters_each(rt: HostRuntime) {
    assert_equal(&rt, letters(&rt, rt.alloc()), Ok(40));
}

#[test]
fn a_written_sheet_comes_home(rt: HostRuntime) {
    let alloc = rt.alloc();
    let pool = LinearObjectPool::with_limit(alloc, WithCapacity::new(alloc, 10), Clear, 1).expect(
        &rt,
        "a pool is made",
    );
    let pool = Arc::new(alloc, pool).expect(&rt, "memory is left");
    let sheet = pool.pull_owned().expect(&rt, "a sheet is free");
    assert_equal(&rt, written(sheet, b'a'), Ok(10));
    assert_equal(&rt, take_all(&pool), 32);
}
