//! A reset that rejects values, which a lazy pool then doesn't keep.
ghost use Rattle.std.specs.Prelude.{◌≡◌, true};

use crate::assert_equal::assert_equal;
use lockfree_object_pool::clean::AnyValue;
use lockfree_object_pool::closures::{Init, Reset};
use lockfree_object_pool::{LazyObjectPool, PullError};

/// A session with a server.
#[derive(Drop)]
struct Session {
    sent: u64,
    is_broken: bool,
}

/// Opens sessions.
#[derive(Drop)]
struct OpenSession;

impl Init<Session, AnyValue> for OpenSession {
    fn make(&self) -> Option<Session> {
        Some(Session {
            sent: 0,
            is_broken: false,
        })
    }
}

/// Keeps sessions that aren't broken, as if nothing had been sent.
#[derive(Drop)]
struct KeepHealthy;

impl Reset<Session, AnyValue> for KeepHealthy {
    ghost leaves = { λ _ _ session. session.sent ≡ 0 };

    ghost rejects = { λ _ session. session.is_broken ≡ true };

    fn reset(&self, session: &mut Session) {
        session.sent = 0;
    }

    fn try_reset(&self, mut session: Session) -> Option<Session> {
        if session.is_broken {
            return None; // it is dropped, and a later pull makes another one
        }
        self.reset(&mut session);
        Some(session)
    }
}

/// What was sent by a session that is pulled, and comes back with more sent, or broken.
fn use_session(
    pool: &LazyObjectPool<Session, OpenSession, KeepHealthy>,
    breaks: bool,
) -> Result<u64, PullError> {
    let mut session = pool.pull()?;
    let before = session.sent;
    session.sent = 7;
    session.is_broken = breaks;
    Ok(before)
}

#[test]
fn a_broken_session_is_not_kept(rt: HostRuntime) -> Result<(), PullError> {
    let pool = LazyObjectPool::new(rt.alloc(), OpenSession, KeepHealthy, 8)?;
    for breaks in [false, true, false] {
        assert_equal(&rt, use_session(&pool, breaks), Ok(0));
    }
    assert_equal(&rt, pool.fill(1), Ok(()));
    Ok(())
}
