use super::answers;
use pool_parts::closures::Keep;
use pool_world::interleave::{Event, Prepared, Seen};

/// Two agents read the word, and both find item 0 free: the second has to take another.
#[test]
fn two_agents_have_two_items(rt: HostRuntime) {
    let alloc = rt.alloc();
    let first = Prepared::make(alloc, &|| Some(0u32)).expect(&rt, "a page is made");
    let events = [
        Event::Begin,
        Event::Begin,
        Event::ReadMask(0),
        Event::ReadMask(1),
        Event::ClearBit(0),
        Event::ClearBit(1),
        Event::ClearBit(1),
    ];
    let events = Vec::from_array(alloc, events).expect(&rt, "memory is left");
    let seen = answers(alloc, first, Keep, events).expect(&rt, "memory is left");
    let pulled = [
        Seen::Pulled(0, 0),
        Seen::Found(1, 4294967294),
        Seen::Pulled(1, 1),
    ];
    assert!(rt; seen.as_slice().get(4..) == Some(pulled.as_slice()));
}
