//! The parts that the pools are made of.
use crate::assert_equal::assert_equal;
use lockfree_object_pool::PullError;
use lockfree_object_pool::clean::AnyValue;
use lockfree_object_pool::linear_page::Chain;
use lockfree_object_pool::page::{Allocated, Page, PullPass};
use lockfree_object_pool::spin_lock::SpinLock;
use lockfree_object_pool::stack::{Room, Stack};
use std::alloc::Global;
use std::test::Fail;

/// Makes a page of zeros.
pub(super) fn page_of_zeros(alloc: Global) -> Result<Page<u32, AnyValue>, PullError> {
    let page: Page<u32, AnyValue> = Page::new(alloc, &|| Some(0))?;
    Ok(page)
}

#[test]
fn a_page_hands_out_an_item(rt: HostRuntime) -> Result<(), PullError> {
    let page = page_of_zeros(rt.alloc()).expect(&rt, "a page is made");
    if let Some(slot) = page.alloc()? {
        Page::free(slot);
    }
    assert_equal(&rt, page.get_mask(), 4294967295);
    Ok(())
}

#[test]
fn a_pass_tells_a_full_page(rt: HostRuntime) -> Result<(), PullError> {
    let page = page_of_zeros(rt.alloc()).expect(&rt, "a page is made");
    let pass = PullPass::new();
    let pulled = match page.try_alloc(&pass)? {
        Allocated::Slot(mut slot) => {
            *slot = 5;
            Some(slot.id())
        }
        Allocated::Full(_) => None,
    };
    assert_equal(&rt, pulled, Some(0));
    Ok(())
}

/// Makes a chain of one page of zeros.
pub(super) fn chain_of_zeros(alloc: Global) -> Result<Chain<u32, AnyValue>, PullError> {
    let chain: Chain<u32, AnyValue> = Chain::new(alloc, &|| Some(0))?;
    Ok(chain)
}

#[test]
fn a_chain_hands_out_items(rt: HostRuntime) -> Result<(), PullError> {
    let chain = chain_of_zeros(rt.alloc()).expect(&rt, "a chain is made");
    let (slot, page_number) = chain.first().alloc(&|| Some(0))?;
    assert_eq!(rt; (slot.id(), page_number), (0, 0));
    free_elsewhere(&chain)?;
    assert_equal(&rt, chain.first().page().get_mask(), 4294967294);
    Ok(())
}

/// Frees a slot of a chain that owns its page with others.
fn free_elsewhere(chain: &Chain<u32, AnyValue>) -> Result<(), PullError> {
    let (slot, _) = chain.first().alloc_owned(&|| Some(0))?;
    slot.free(); // from any thread: it owns its page with others
    Ok(())
}

#[test]
fn a_stack_keeps_values(rt: HostRuntime) -> Result<(), PullError> {
    let alloc = rt.alloc();
    let mut stack: Stack<u32, AnyValue> = Stack::new();
    let room = Room::new(alloc)?;
    stack.put(room, 5); // takes no memory
    let taken = stack.take(); // 5, with its room
    let (value, _room) = taken.expect(&rt, "a value is kept");
    assert_equal(&rt, value, 5);
    Ok(())
}

#[test]
fn a_lock_has_one_guard(rt: HostRuntime) -> Result<(), Fail> {
    let alloc = rt.alloc();
    let lock = SpinLock::new(alloc, 5)?;
    *lock.lock(&rt) = 6; // the guard's drop frees the lock
    assert_eq!(rt; *lock.lock(&rt), 6);
    Ok(())
}
