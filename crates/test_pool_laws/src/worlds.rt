//! A world whose run is shown to be bounded.
use crate::run_bounded;
use linear_pools::closures::Keep;
use pool_world::interleave::{Event, Prepared, Seen, World};
use std::test::Fail;

#[test]
fn two_agents_of_a_limited_world(rt: HostRuntime) -> Result<(), Fail> {
    let alloc = rt.alloc();
    let first = Prepared::make(alloc, &|| Some(0u32))?;
    let mut world = World::with_limit(alloc, first, Keep, 1)?;
    let events = Vec::from_array(
        alloc,
        [
            Event::Begin,
            Event::Begin,
            Event::ReadMask(1),
            Event::ClearBit(1),
            Event::ReadMask(0),
        ],
    )?;
    let mut seen = Vec::new(alloc);
    run_bounded(&mut world, events, &mut seen)?;
    assert_eq!(rt; seen.pop(), Some(Seen::Word(0, 4294967294)));
    Ok(())
}
