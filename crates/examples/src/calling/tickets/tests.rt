//! Tickets that are used, and a page of them that is out.
use super::*;
use crate::assert_equal::assert_equal;
use std::thread;

#[test]
fn each_ticket_comes_unused_and_no_second_page_is_made(rt: HostRuntime) {
    let tickets = new_tickets(rt.alloc()).expect(&rt, "a pool is made");
    for _ in 0..2 {
        assert_equal(&rt, use_one(&tickets), Ok(0));
    }
    let refused = past_a_page(rt.alloc(), &tickets);
    assert_equal(&rt, refused, Ok(Some(PullError::Init)));
}

/// A press, and how many threads have come to it.
#[derive(Drop)]
struct Crowd {
    press: Press,
    here: AtomicUsize,
}

impl Crowd {
    /// How many tickets one thread has, which begins once both are here, or after so many turns.
    fn print(&self) -> usize {
        self.here.fetch_add(1, SeqCst);
        for _ in 0..100_000 {
            if self.here.load(SeqCst) > 1 {
                break;
            }
            thread::yield_now();
        }
        tickets_of(&self.press)
    }
}

/// How many of a hundred calls print a ticket.
fn tickets_of(press: &Press) -> usize {
    let mut printed = 0usize;
    for _ in 0..100 {
        printed = printed.saturating_add(usize::from(press.make().is_some()));
    }
    printed
}

/// How many tickets all have.
fn sum_of(printed: &[usize]) -> usize {
    let mut sum = 0usize;
    for tickets in printed {
        sum = sum.saturating_add(*tickets);
    }
    sum
}

/// A press prints 40 tickets and no more, however many threads ask for them.
#[test]
fn forty_tickets_are_printed(rt: HostRuntime) {
    for _ in 0..300 {
        let crowd = Crowd {
            press: Press {
                made: AtomicUsize::new(0),
            },
            here: AtomicUsize::new(0),
        };
        let printed = thread::map_indices(&rt, rt.alloc(), 2, &|_| crowd.print());
        let printed = printed.expect(&rt, "memory is left");
        assert_equal(&rt, (printed.len(), sum_of(&printed)), (2, 40));
    }
}

/// Whichever request is refused, each ticket comes back: else one of 32 would need a second page.
#[test]
fn tickets_come_back_where_memory_was_refused(rt: HostRuntime) {
    let Ok(tickets) = new_tickets(rt.alloc()) else {
        return;
    };
    let mut refused_by_init = 0usize;
    for _ in 0..4 {
        match past_a_page(rt.alloc(), &tickets) {
            Ok(Some(PullError::Init)) => refused_by_init = refused_by_init.saturating_add(1),
            Ok(cause) => assert_equal(&rt, cause, Some(PullError::Memory)),
            Err(cause) => assert_equal(&rt, cause, PullError::Memory),
        }
    }
    assert!(rt; refused_by_init >= 3);
}
