use lockfree_object_pool::closures::{InitBy, Makes, ResetBy, Resets};
use lockfree_object_pool::{LinearObjectPool, PullError};
use std::alloc::Global;

#[derive(Debug, Drop)]
struct Basket {
    products: Vec<u32>,
    price: u64,
}

/// Returns what is left of a use when the item comes again.
fn price_left<I: InitBy<Basket>, R: ResetBy<Basket>>(
    alloc: Global,
    init: I,
    reset: R,
) -> Result<u64, PullError>
    requires may_make { I.may_make init }
    requires may_reset { R.may_reset reset }
{
    let pool: LinearObjectPool<Basket, _, _> = LinearObjectPool::new(
        alloc,
        Makes::new(init),
        Resets::new(reset),
    )?;
    let mut basket = pool.pull()?;
    basket.products.push(3)?;
    basket.price = 5;
    drop(basket); // it is in the pool again
    Ok(pool.pull()?.price)
}

fn none_left(alloc: Global) -> Result<u64, PullError> {
    price_left(
        alloc,
        || {
            Some(Basket {
                products: Vec::with_capacity(alloc, 4).ok()?,
                price: 0,
            })
        },
        |basket: &mut Basket| {
            basket.products.clear();
            basket.price = 0;
        },
    )
}

#[cfg(test)]
mod tests;
