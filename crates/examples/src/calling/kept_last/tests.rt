//! A 7 that is kept and pulled, with nobody in between and with somebody.
use super::*;
use crate::assert_equal::assert_equal;

#[test]
fn the_number_kept_last_comes_next(rt: HostRuntime) -> Result<(), PullError> {
    let numbers = Numbers::new(rt.alloc(), Copied::new(0), Keep)?;
    let note = keep_seven(&rt, &numbers)?;
    let number = *pull_next(&rt, &numbers, note)?;
    assert_equal(&rt, number, 7);
    Ok(())
}

#[test]
fn another_number_kept_meanwhile_comes_first(rt: HostRuntime) -> Result<(), PullError> {
    let numbers = Numbers::new(rt.alloc(), Copied::new(0), Keep)?;
    let note = keep_seven(&rt, &numbers)?;
    *numbers.pull(&rt)? = 8;
    let number = *pull_next(&rt, &numbers, note)?;
    assert_equal(&rt, number, 8);
    Ok(())
}
