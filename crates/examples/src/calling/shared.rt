use lockfree_object_pool::LinearReusable;
use lockfree_object_pool::clean::AnyValue;
use lockfree_object_pool::closures::{Copied, Keep};
use std::thread;
use std::thread::Threads;

/// Reads one item by two threads.
fn read_twice<R: Threads + Sync>(
    rt: &R,
    item: &LinearReusable<'_, u32, Copied<u32, AnyValue>, Keep>,
) -> (u32, u32) {
    thread::join(rt, || **item, || **item)
}

#[cfg(test)]
mod tests;
