//! Collections, boxes, options and pairs as items, and items that are made as their type's default.
ghost use Rattle.std.specs.Prelude.{⊤};

use lazy_pools::closures::{ByDefault, Keep};
use lazy_pools::recycling::{LazyPool, Recyclable};
use lazy_pools::{LazyObjectPool, PullError};
use std::alloc::{AllocError, Global};
use std::collections::{BTreeMap, HashMap, VecDeque};
use std::process::Abort;

/// A value with a part of each kind.
type Parts = (
    (VecDeque<u8>, HashMap<u8, u8>),
    (BTreeMap<u8, u8>, (Option<u8>, Box<String>)),
);

/// A value whose parts are measured and used.
trait HasParts: Recyclable + Drop {
    /// How much each part has.
    fn lengths(&self) -> [usize; 5];

    /// Puts something into each part.
    fn use_parts(&mut self) -> Result<(), AllocError>;
}

impl HasParts for Parts {
    fn lengths(&self) -> [usize; 5] {
        let ((deque, map), (tree, (option, text))) = self;
        [
            deque.len(),
            map.len(),
            tree.len(),
            option.iter().count(),
            text.len(),
        ]
    }

    fn use_parts(&mut self) -> Result<(), AllocError> {
        let ((deque, map), (tree, (option, text))) = self;
        deque.push_back(7)?;
        map.insert(7, 8)?;
        tree.insert(7, 8)?;
        *option = Some(7);
        text.push_str("seven")
    }
}

fn comes_back_clean<T: HasParts>(rt: &impl Abort, alloc: Global) {
    let pool = LazyPool::<T>::with_recycler(alloc, 1).expect(rt, "a pool is made");
    assert_eq!(*rt; pool.made(), 0);
    for _ in 0..3 {
        let mut item = pool.pull().expect(rt, "an item is free");
        assert_eq!(*rt; item.lengths(), [0; 5]);
        item.use_parts().expect(rt, "memory is left");
        assert_eq!(*rt; item.lengths(), [1, 1, 1, 1, 5]);
    }
    assert_eq!(*rt; pool.made(), 1);
}

#[test]
fn each_part_of_a_recyclable_value_comes_back_clean(rt: HostRuntime) {
    comes_back_clean::<Parts>(&rt, rt.alloc());
}

/// A value that can't be made.
#[derive(Drop)]
struct Never;

impl Recyclable for Never {
    ghost is_clean = { λ _. ⊤ };

    fn make(_alloc: Global) -> Option<Never> {
        None
    }

    fn reset(&mut self) {}
}

#[test]
fn a_value_with_a_part_that_refuses_is_not_made(rt: HostRuntime) {
    let pair = LazyPool::<(Vec<u8>, Never)>::with_recycler(rt.alloc(), 1).expect(&rt, "a pool");
    let boxed = LazyPool::<Box<Never>>::with_recycler(rt.alloc(), 1).expect(&rt, "a pool");
    let refusals = (pair.pull().err(), boxed.pull().err());
    assert_eq!(rt; refusals, (Some(PullError::Init), Some(PullError::Init)));
}

#[test]
fn an_item_is_made_as_its_types_default(rt: HostRuntime) {
    let pool: LazyObjectPool<(u32, bool), ByDefault, Keep> = LazyObjectPool::new(
        rt.alloc(),
        ByDefault,
        Keep,
        1,
    ).expect(&rt, "a pool is made");
    assert_eq!(rt; pool.pull().map(|item| *item), Ok((0, false)));
}
