//! The words and the numbers of the refusals, and what becomes of a value that memory was refused
//! for.
use pool_parts::PullError;
use std::alloc::AllocFailed;
use std::collections::HashSet;
use test_values::tally::Tally;

#[test]
fn each_refusal_has_its_own_words_and_hash(rt: HostRuntime) {
    let (memory, init, limit) = (PullError::Memory, PullError::Init, PullError::Limit);
    let told = format!(in rt.alloc();
        "{memory}; {init}; {limit}; {memory:?}, {init:?}, {limit:?}"
    ).expect(&rt, "memory is left");
    assert_eq!(rt;
        told.as_str(),
        "out of memory; init gave no item; the pool is at its limit; Memory, Init, Limit",
    );
    assert_eq!(rt; (memory as u8, init as u8, limit as u8), (1, 2, 3));
    let mut causes = HashSet::new(rt.alloc());
    for cause in [memory, init, limit, init] {
        causes.insert(cause).expect(&rt, "memory is left");
    }
    assert!(rt; causes.len() == 3);
}

#[test]
fn a_value_that_memory_was_refused_for_is_dropped(rt: HostRuntime) {
    let counts = Tally::new();
    let refused = AllocFailed {
        value: Some(counts.make()),
    };
    assert_eq!(rt;
        (PullError::from(refused), counts.now()),
        (PullError::Memory, (1, 1)),
    );
}
