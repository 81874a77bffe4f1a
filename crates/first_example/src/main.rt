//! A pool of buffers: each comes empty, however often it was used before.
#![tactic(auto)]

ghost use Rattle.std.specs.Prelude.{◌≡◌, IfOk};

use linear_pools::PullError;
use linear_pools::recycling::Pool;
use std::alloc::Global;
use std::io;

fn length_of_a_used_one(alloc: Global) -> Result<usize, PullError>
    ensures comes_empty { IfOk result (λ length. length ≡ 0) }
{
    let pool = Pool::<Vec<u8>>::with_recycler(alloc)?;
    pool.pull()?.extend_from_slice(b"hello")?; // its drop brings it back
    Ok(pool.pull()?.len())
}

fn main(rt: HostRuntime) -> io::Result<()> {
    let length = length_of_a_used_one(rt.alloc());
    println!(rt; "bytes in a used buffer: {length:?}")
}
