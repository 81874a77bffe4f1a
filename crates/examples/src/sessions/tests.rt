//! Sessions that are opened, filled and closed, by one thread and by several that share a pool.
ghost use Rattle.std.specs.Prelude.{◌≤◌};

use super::*;
use crate::assert_equal::assert_equal;
use crate::home::{all_went_well, take_all};
use std::process::Abort;
use std::thread;

/// Creates a pool of so many pages of baskets, each with room for so many products.
fn pool_of(alloc: Global, room: usize, pages: usize) -> Result<Arc<BasketPool>, PullError>
    requires { 1 ≤ pages }
{
    let pool = LinearObjectPool::with_limit(alloc, WithCapacity::new(alloc, room), Clear, pages)?;
    Ok(Arc::new(alloc, pool)?)
}

/// Creates a table of no sessions, over a pool of one page.
fn new_sessions(rt: &impl Abort, alloc: Global) -> Sessions {
    Sessions::new(alloc, pool_of(alloc, 4, 1).expect(rt, "a pool is made"))
}

fn holds(sessions: &Sessions, session: u64, products: &[u32]) -> bool {
    match sessions.products(session) {
        Some(gathered) => gathered == products,
        None => false,
    }
}

/// Opens a session, puts a product into its basket and closes it, a hundred times. Whether each
/// basket was empty at first and then held the product.
fn serve(alloc: Global, pool: Arc<BasketPool>, product: u32) -> bool {
    let mut sessions = Sessions::new(alloc, pool);
    for session in 0..100u64 {
        if sessions.open(session).is_err() || !holds(&sessions, session, &[]) {
            return false;
        }
        if sessions.add(session, product).is_err() || !holds(&sessions, session, &[product]) {
            return false;
        }
        sessions.close(session);
    }
    true
}

#[test]
fn threads_open_sessions_with_empty_baskets(rt: HostRuntime) {
    let alloc = rt.alloc();
    let pool = pool_of(alloc, 4, 1).expect(&rt, "a pool is made");
    let mut threads = Vec::with_capacity(alloc, 5).expect(&rt, "memory is left");
    for product in 1..6u32 {
        let pool = Arc::try_clone(&pool).expect(&rt, "memory is left");
        let thread = thread::spawn(&rt, move || serve(alloc, pool, product));
        threads
            .push(thread.expect(&rt, "a thread is made"))
            .expect(&rt, "memory is left");
    }
    assert!(rt; all_went_well(&rt, threads));
}

#[test]
fn a_closed_session_leaves_its_place_to_another(rt: HostRuntime) {
    let mut sessions = new_sessions(&rt, rt.alloc());
    for session in 0..32u64 {
        sessions.open(session).expect(&rt, "a basket is free");
    }
    assert_equal(&rt, sessions.open(32), Err(PullError::Limit));
    sessions.close(7);
    assert!(rt; sessions.products(7).is_none());
    sessions.open(32).expect(&rt, "a basket is free");
    assert!(rt; holds(&sessions, 32, &[]));
}

#[test]
fn a_session_that_is_opened_anew_gives_its_basket_back(rt: HostRuntime) {
    let mut sessions = new_sessions(&rt, rt.alloc());
    for _ in 0..100 {
        sessions.open(7).expect(&rt, "a basket is free");
        assert!(rt; holds(&sessions, 7, &[]));
        sessions.add(7, 1).expect(&rt, "nothing is refused");
    }
}

/// Opens a session, or opens it anew, and gathers as many products as are asked for. How many there
/// are then, and the last of them.
fn gather(
    sessions: &mut Sessions,
    session: u64,
    count: u32,
) -> Result<(usize, Option<u32>), PullError> {
    sessions.open(session)?;
    for product in 0..count {
        sessions.add(session, product)?;
    }
    match sessions.products(session) {
        Some(products) => Ok((products.len(), products.last().copied())),
        None => Ok((0, None)),
    }
}

#[test]
fn baskets_of_seventy_thousand_products_come_home(rt: HostRuntime) {
    let mut sessions = new_sessions(&rt, rt.alloc());
    for _ in 0..3 {
        let gathered = gather(&mut sessions, 7, 70_000).expect(&rt, "nothing is refused");
        assert_equal(&rt, gathered, (70_000, Some(69_999)));
    }
    sessions.close(7);
    assert!(rt; all_baskets_are_home(&mut sessions));
}

/// Opens ten pages of sessions, each of which gathers one product: what is asked for and its own
/// number together.
fn open_each(sessions: &mut Sessions, product: u32) -> Result<(), PullError> {
    for session in 0..320u32 {
        sessions.open(u64::from(session))?;
        sessions.add(u64::from(session), session.wrapping_add(product))?;
    }
    Ok(())
}

/// Closes each of them. Whether each held that product.
fn close_each(sessions: &mut Sessions, product: u32) -> bool {
    for session in 0..320u32 {
        let is_kept = holds(
            sessions,
            u64::from(session),
            &[session.wrapping_add(product)],
        );
        sessions.close(u64::from(session));
        if !is_kept {
            return false;
        }
    }
    true
}

#[test]
fn three_hundred_and_twenty_sessions_are_open_at_once(rt: HostRuntime) {
    let pool = pool_of(rt.alloc(), 4, 10).expect(&rt, "a pool is made");
    let mut sessions = Sessions::new(rt.alloc(), pool);
    for product in [1_000, 2_000] {
        open_each(&mut sessions, product).expect(&rt, "nothing is refused");
        assert_equal(&rt, sessions.open(320), Err(PullError::Limit));
        assert!(rt; close_each(&mut sessions, product));
    }
}

#[test]
fn the_greatest_session_can_be_opened(rt: HostRuntime) {
    let mut sessions = new_sessions(&rt, rt.alloc());
    sessions.open(u64::MAX).expect(&rt, "a basket is free");
    sessions.add(u64::MAX, 7).expect(&rt, "nothing is refused");
    assert!(rt; holds(&sessions, u64::MAX, &[7]));
}

#[test]
fn a_product_for_a_closed_session_is_let_go(rt: HostRuntime) {
    let mut sessions = new_sessions(&rt, rt.alloc());
    sessions.open(1).expect(&rt, "a basket is free");
    sessions.close(1);
    assert_equal(&rt, sessions.add(1, 7), Ok(()));
    assert!(rt; sessions.products(1).is_none());
}

/// Whether as many sessions can be opened as a page has baskets.
fn all_baskets_are_home(sessions: &mut Sessions) -> bool {
    for session in 1_000..1_032u64 {
        if sessions.open(session).is_err() {
            return false;
        }
    }
    true
}

#[test]
fn the_basket_of_a_session_opened_anew_comes_home(rt: HostRuntime) {
    let mut sessions = new_sessions(&rt, rt.alloc());
    for products in 0..100u32 {
        gather(&mut sessions, 1, products).expect(&rt, "nothing is refused");
    }
    sessions.close(1);
    assert!(rt; all_baskets_are_home(&mut sessions));
}

#[test]
fn the_basket_of_a_closed_session_comes_home(rt: HostRuntime) {
    let mut sessions = new_sessions(&rt, rt.alloc());
    for products in 0..100u32 {
        gather(&mut sessions, 1, products).expect(&rt, "nothing is refused");
        sessions.close(1);
    }
    assert!(rt; all_baskets_are_home(&mut sessions));
}

/// Opens sessions, opens one of them anew, and fills their baskets. Each call that is refused was
/// for memory, and changes nothing.
fn use_baskets(rt: &impl Abort, sessions: &mut Sessions) {
    for session in 0..16u64 {
        if let Err(cause) = gather(sessions, session % 15, 5) {
            assert_equal(rt, cause, PullError::Memory);
        }
    }
    sessions.close(3);
}

/// Whichever request is refused, the baskets of a table are home when it ends, also those of
/// sessions that are open.
#[test]
fn baskets_come_home_where_memory_was_refused(rt: HostRuntime) {
    let Ok(pool) = pool_of(rt.alloc(), 0, 1) else {
        return;
    };
    let owner = Arc::try_clone(&pool).expect(&rt, "an owner takes no memory");
    let mut sessions = Sessions::new(rt.alloc(), owner);
    use_baskets(&rt, &mut sessions);
    drop(sessions);
    assert_equal(&rt, take_all(&pool), 32);
}
