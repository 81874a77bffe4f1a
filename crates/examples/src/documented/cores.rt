//! Sequential pools, players, worlds, the engine and the pool of buffers.
use crate::assert_equal::assert_equal;
use lockfree_object_pool::PullError;
use lockfree_object_pool::clean::AnyValue;
use lockfree_object_pool::closures::{Copied, Keep};
use object_pool_cores::buffers::{BufferPool, Clear, WithCapacity, clear, fresh};
use object_pool_cores::engine;
use object_pool_cores::engine::{EngineError, Kind, Reset};
use object_pool_cores::interleave::{Event, Prepared, Seen, World};
use object_pool_cores::sequential::{
    Command, CorePage, LinearCore, NoneCore, Player, Reply, RunError, SequentialPool, StackCore,
};
use std::alloc::{AllocError, Global};
use std::test::Fail;

#[test]
fn a_linear_core_gives_the_least_number(rt: HostRuntime) -> Result<(), PullError> {
    let alloc = rt.alloc();
    let mut core = LinearCore::<u32, _, _, AnyValue>::new(alloc, Copied::new(0), Keep)?;
    let item = core.pull()?;
    assert_eq!(rt; item.number(), Some(0));
    core.give(item); // a later pull gives it again
    drop(core);
    let core = LinearCore::<u32, _, _, AnyValue>::with_limit(alloc, Copied::new(0), Keep, 2)?;
    assert_eq!(rt; core.limit(), Some(2));
    Ok(())
}

#[test]
fn a_stack_core_gives_the_last_value(rt: HostRuntime) -> Result<(), Fail> {
    let alloc = rt.alloc();
    let mut core = StackCore::<u32, _, _, AnyValue>::new(alloc, Copied::new(0), Keep);
    let item = core.attach(5)?;
    core.give(item); // the next pull gives it
    assert_eq!(rt; *core.pull()?, 5);
    Ok(())
}

#[test]
fn a_none_core_makes_each_item(rt: HostRuntime) -> Result<(), PullError> {
    let mut core = NoneCore::<u32, _>::new(Copied::new(0));
    let item = core.pull()?;
    core.give(item); // drops it
    assert_equal(&rt, *core.pull().expect(&rt, "an item is made"), 0);
    Ok(())
}

#[test]
fn a_page_gives_the_least_id(rt: HostRuntime) -> Result<(), PullError> {
    let alloc = rt.alloc();
    let mut page: CorePage<u32, AnyValue> = CorePage::new(alloc, &|| Some(0))?;
    if let Some((id, value)) = page.alloc() {
        page.free(id, value);
    }
    assert_equal(&rt, page.get_mask(), 4294967295);
    Ok(())
}

#[test]
fn a_player_replies(rt: HostRuntime) -> Result<(), RunError> {
    let alloc = rt.alloc();
    let core = LinearCore::<u32, _, _, AnyValue>::new(alloc, Copied::new(0), Keep);
    let core = core.expect(&rt, "a core is made");
    let mut player = Player::new(alloc, core);
    let reply = player.play(Command::Pull)?; // item 0 is held at index 0
    assert_eq!(rt; reply, Reply::Pulled(0, Some(0)));
    player.play(Command::Write(0, 5))?;
    assert_eq!(rt; player.held(0), Some(&5));
    Ok(())
}

/// Makes a first page of zeros.
fn page_of_zeros(alloc: Global) -> Result<Prepared<u32>, PullError> {
    let first = Prepared::make(alloc, &|| Some(0u32))?;
    Ok(first)
}

#[test]
fn an_agent_steps(rt: HostRuntime) -> Result<(), PullError> {
    let alloc = rt.alloc();
    let first = page_of_zeros(alloc).expect(&rt, "a page is made");
    let mut world = World::new(alloc, first, Keep)?;
    world.step(Event::Begin); // agent 0
    world.step(Event::ReadMask(0));
    let seen = world.step(Event::ClearBit(0)); // it has pulled the item with number 0
    assert_eq!(rt; seen, Seen::Pulled(0, 0));
    Ok(())
}

#[test]
fn a_limited_world_runs_events(rt: HostRuntime) -> Result<(), Fail> {
    let alloc = rt.alloc();
    let first = page_of_zeros(alloc).expect(&rt, "a page is made");
    let mut world = World::with_limit(alloc, first, Keep, 1)?;
    let events = Vec::from_array(alloc, [Event::Begin, Event::ReadMask(0)])?;
    let mut seen = Vec::new(alloc);
    world.run(events, &mut seen)?;
    let expected = [Seen::Began(0), Seen::Word(0, 4294967295)];
    assert_equal(&rt, seen.as_slice(), expected.as_slice());
    Ok(())
}

#[test]
fn an_engine_replies_by_lines(rt: HostRuntime) -> Result<(), EngineError> {
    let alloc = rt.alloc();
    let mut input = "pull\n".as_bytes();
    let mut output = Vec::new(alloc);
    let (kind, reset) = (Kind::Linear, Reset::Keep);
    engine::run(&rt, alloc, kind, reset, &mut input, &mut output)?;
    let expected = b"pulled 0 number 0 value 0\n";
    assert_equal(&rt, output.as_slice(), expected.as_slice());
    Ok(())
}

#[test]
fn a_buffer_comes_empty(rt: HostRuntime) -> Result<(), PullError> {
    let alloc = rt.alloc();
    let pool = BufferPool::new(alloc, WithCapacity::new(alloc, 512), Clear, 4)?;
    let mut buffer = pool.pull()?;
    buffer.append(b"hello")?;
    assert_eq!(rt; buffer.as_slice(), b"hello".as_slice());
    Ok(())
}

#[test]
fn a_buffer_is_cleared(rt: HostRuntime) -> Result<(), AllocError> {
    let alloc = rt.alloc();
    let mut bytes = fresh(alloc, 512).expect(&rt, "memory is left");
    bytes.push(5)?;
    clear(&mut bytes);
    assert_equal(&rt, bytes.len(), 0);
    Ok(())
}
