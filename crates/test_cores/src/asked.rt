//! What the arguments ask for.
use std::env;
use std::rt::Env;

/// How much is done, and the seed of its random choices.
#[derive(Clone, Copy)]
pub struct Asked {
    pub seed: u64,
    pub count: u64,
}

/// Returns the calls and the schedules that are asked for, or `None` if the arguments aren't four
/// numbers.
pub fn arguments<R: Env + AllocGlobal>(rt: &R) -> Option<(Asked, Asked)> {
    let mut numbers = [0u64; 4];
    let mut arguments = env::args(rt).ok()?;
    let _name = arguments.next();
    for number in numbers.iter_mut() {
        *number = arguments.next()?.parse().ok()?;
    }
    let [seed, count, schedules_seed, schedules] = numbers;
    let calls = Asked { seed, count };
    let schedules = Asked {
        seed: schedules_seed,
        count: schedules,
    };
    Some((calls, schedules))
}
