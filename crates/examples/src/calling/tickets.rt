ghost use Rattle.std.specs.Prelude.{◌≡◌, IfOk};

use lockfree_object_pool::clean::Clean;
use lockfree_object_pool::closures::{Init, Reset};
use lockfree_object_pool::{LinearObjectPool, PullError};
use std::alloc::Global;
use std::sync::atomic::AtomicUsize;
use std::sync::atomic::Ordering::SeqCst;

/// A ticket, which counts its uses.
#[derive(Drop)]
pub struct Ticket {
    uses: u32,
}

/// The condition that a ticket is unused.
pub struct Unused;

impl Clean<Ticket> for Unused {
    ghost meets = { λ ticket. ticket.uses ≡ 0 };
}

/// A press, which makes 40 tickets and refuses to make more.
#[derive(Drop)]
pub struct Press {
    made: AtomicUsize,
}

impl Init<Ticket, Unused> for Press {
    fn make(&self) -> Option<Ticket> {
        if self.made.fetch_add(1, SeqCst) < 40 {
            Some(Ticket { uses: 0 })
        } else {
            None
        }
    }
}

/// A reset that leaves a ticket as if it were new.
#[derive(Drop)]
pub struct Renew;

impl Reset<Ticket, Unused> for Renew {
    fn reset(&self, ticket: &mut Ticket) {
        ticket.uses = 0;
    }
}

/// A pool of tickets.
pub type Tickets = LinearObjectPool<Ticket, Press, Renew, Unused>;

/// Creates a pool of tickets.
pub fn new_tickets(alloc: Global) -> Result<Tickets, PullError> {
    let made = AtomicUsize::new(0);
    LinearObjectPool::new(alloc, Press { made }, Renew)
}

/// Pulls a ticket, which is unused, whoever had it before.
pub fn use_one(tickets: &Tickets) -> Result<u32, PullError>
    ensures { IfOk result (λ uses. uses ≡ 0) }
{
    let mut ticket = tickets.pull()?;
    let uses = ticket.uses;
    ticket.uses = 1;
    Ok(uses)
}

/// Returns why a pull is refused while 32 tickets are in use: `Init`, since no second page can be
/// filled.
pub fn past_a_page(alloc: Global, tickets: &Tickets) -> Result<Option<PullError>, PullError> {
    let mut held = Vec::with_capacity(alloc, 32)?;
    for _ in 0..32 {
        held.push(tickets.pull()?)?;
    }
    Ok(tickets.pull().err())
}

#[cfg(test)]
mod tests;
