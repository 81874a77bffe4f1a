//! Links: a link is set once, whoever asks, and what two notes of one link say.
ghost use Rattle.std.specs.Prelude.{◌≡◌, IfSome};
ghost use Rattle.page_chain.specs.Walk.{shown_page};

use super::*;
use crate::assert_equal::assert_equal;
use crate::zero::{refused, zero};
use std::thread;

/// Two answers for one page are the same page, whichever threads asked: their notes are of one
/// link.
fn both_next<'c>(page: &ZeroPage<'c>) -> Option<(ZeroPage<'c>, ZeroPage<'c>)>
    ensures { IfSome result (λ both. (shown_page both.0).page ≡ (shown_page both.1).page) }
{
    let (first, mut note) = page.next()?;
    let (second, other) = page.next()?;
    note.compare(other);
    Some((first, second))
}

/// The page that a call links or finds is the page that a note of the same link knows, whichever
/// thread asked.
fn linked_and_found<'c>(page: &ZeroPage<'c>) -> Option<(ZeroPage<'c>, ZeroPage<'c>)>
    ensures { IfSome result (λ both. (shown_page both.0).page ≡ (shown_page both.1).page) }
{
    let pass = PullPass::new();
    let Allocated::Full(seen) = page.page().try_alloc(&pass).ok()? else {
        return None;
    };
    let (mut note, mut other) = (page.next_note().ok()?, page.next_note().ok()?);
    let linked = page.get_or_create_next_as(seen, &zero, &mut note).ok()?;
    let found = page.next_as(&mut other)?;
    note.compare(other);
    Some((linked, found))
}

/// The ids that two pages give first, in turn.
fn ids_of(both: Option<(ZeroPage<'_>, ZeroPage<'_>)>) -> Option<(Option<u8>, Option<u8>)> {
    let (one, other) = both?;
    Some((first_id(&one), first_id(&other)))
}

#[test]
fn a_link_is_set_once(rt: HostRuntime) {
    let chain = Zeros::new(rt.alloc(), &zero).expect(&rt, "a chain is made");
    let first = chain.first();
    assert!(rt; first.next().is_none());
    forget_all(&rt, &first);
    let linked = place_behind(&first, &zero);
    let again = place_behind(&first, &refused);
    assert_equal(
        &rt,
        (linked, again),
        (Some((1, Some(0))), Some((1, Some(1)))),
    );
    assert_equal(
        &rt,
        (ids_of(both_next(&first)), ids_of(linked_and_found(&first))),
        (Some((Some(2), Some(3))), Some((Some(4), Some(5)))),
    );
}

#[test]
fn two_threads_come_to_one_page(rt: HostRuntime) {
    let chain = Zeros::new(rt.alloc(), &zero).expect(&rt, "a chain is made");
    let first = chain.first();
    forget_all(&rt, &first);
    let come = || first_id(&behind_full(&first, &zero)?);
    let ids = thread::join(&rt, come, come);
    assert!(rt; ids == (Some(0), Some(1)) || ids == (Some(1), Some(0)));
}
