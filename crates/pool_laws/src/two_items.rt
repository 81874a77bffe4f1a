//! Two items of one linear pool: callers that put the laws to use.
ghost use Rattle.std.specs.Prelude.{◌≡◌, ◌≢◌, IfOk};
ghost use Rattle.pool_parts.specs.Answers.{IsMadeOrReset};
ghost use Rattle.pool_parts.specs.Page.{IsGivenBack};
ghost use Rattle.linear_pools.specs.LinearPool.{Pulls, linear_view};
ghost use Rattle.pool_laws.specs.Together.{StandTogether, known_by, noted};
ghost use Rattle.pool_laws.specs.Names.{pool_user};

use linear_pools::clean::Clean;
use linear_pools::closures::{Init, Reset};
use linear_pools::page::PageNote;
use linear_pools::{LinearObjectPool, LinearReusable, PullError};

/// Pulls two items of a pool. If they are of different pages, their pulls stand in one legal
/// history of one pool that grows, with all that was done on both pages before.
///
/// # Errors
///
/// As `pull`. An item that was pulled is returned.
pub fn pull_two<'p, T: Drop, I: Init<T, K>, R: Reset<T, K>, K: Clean<T>>(
    pool: &'p LinearObjectPool<T, I, R, K>,
) -> Result<
    (
        LinearReusable<'p, T, I, R, K>,
        LinearReusable<'p, T, I, R, K>,
    ),
    PullError,
>
    ensures of_pool { IfOk result (λ two. (two.0.pool ≡ pool.now) × (two.1.pool ≡ pool.now)) }
    ensures one { IfOk result (λ two. Pulls K.meets I.answers R.leaves pool.now two.0.number
        two.0.item) }
    ensures other { IfOk result (λ two. Pulls K.meets I.answers R.leaves pool.now two.1.number
        two.1.item) }
    ensures together { IfOk result (λ two. two.0.number.number ≢ two.1.number.number
        → StandTogether pool_user (linear_view pool.now).limit
        (λ value. K.meets value × IsMadeOrReset I.answers R.leaves value)
        (known_by two.0.number.number two.0.item) (known_by two.1.number.number two.1.item)) }
{
    let one = pool.pull()?;
    let other = pool.pull()?;
    Ok((one, other))
}

/// Returns two items of a pool, of different pages, the second before the first. Each note is that
/// of its item's return. The pulls and returns of both stand in one legal history of one pool that
/// grows, as the notes know.
pub fn return_two<T: Drop, I: Init<T, K>, R: Reset<T, K>, K: Clean<T>>(
    one: LinearReusable<'_, T, I, R, K>,
    other: LinearReusable<'_, T, I, R, K>,
) -> (PageNote<T>, PageNote<T>)
    requires one { Pulls K.meets I.answers R.leaves one.pool one.number one.item }
    requires other { Pulls K.meets I.answers R.leaves one.pool other.number other.item }
    requires apart { one.number.number ≢ other.number.number }
    ensures one_returned { IsGivenBack (R.leaves (linear_view one.entry.pool).reset) one.entry.item
        result.0 }
    ensures other_returned { IsGivenBack (R.leaves (linear_view other.entry.pool).reset)
        other.entry.item result.1 }
    ensures together { StandTogether pool_user (linear_view one.entry.pool).limit
        (λ value. K.meets value × IsMadeOrReset I.answers R.leaves value)
        (noted one.entry.number.number result.0) (noted other.entry.number.number result.1) }
{
    let of_other = other.give_back();
    let of_one = one.give_back();
    (of_one, of_other)
}

/// Ensures that two items of a pool, whose pages have one number, are two items of one page: their
/// ids differ. It changes neither item.
pub fn are_two<T: Drop, I: Init<T, K>, R: Reset<T, K>, K: Clean<T>>(
    one: &mut LinearReusable<'_, T, I, R, K>,
    other: &mut LinearReusable<'_, T, I, R, K>,
)
    requires of_pool { other.old.pool ≡ one.old.pool }
    requires one { Pulls K.meets I.answers R.leaves one.old.pool one.old.number one.old.item }
    requires other { Pulls K.meets I.answers R.leaves one.old.pool other.old.number
        other.old.item }
    requires number { other.old.number.number ≡ one.old.number.number }
    ensures page { other.old.item.page ≡ one.old.item.page }
    ensures differ { one.old.item.id ≢ other.old.item.id }
    ensures same { one.new ≡ one.old }
    ensures same_other { other.new ≡ other.old }
{
    one.same_page(other);
    one.differs_from(other);
}
