//! Two items that are held, as two rows of a table of one's own.
ghost use Rattle.std.specs.Prelude.{◌≡◌, ◌<◌, length, slice_get, Some};

use lockfree_object_pool::FixedReusable;
use lockfree_object_pool::clean::AnyValue;
use lockfree_object_pool::closures::{Copied, Keep};

/// The right to write at one row.
type Row<'p> = FixedReusable<'p, u32, Copied<u32, AnyValue>, Keep>;

/// Writes at the rows of two items: the second write leaves the first as it is.
fn write_both(rows: &mut [u32], one: &mut Row<'_>, other: &mut Row<'_>)
    requires pool { other.old.item.page ≡ one.old.item.page }
    requires one { one.old.item.id < length rows.old }
    requires other { other.old.item.id < length rows.old }
    ensures first { slice_get rows.new one.old.item.id ≡ Some 1 }
    ensures second { slice_get rows.new other.old.item.id ≡ Some 2 }
{
    one.differs_from(other);
    rows[one.number()] = 1;
    rows[other.number()] = 2;
}

#[cfg(test)]
mod tests;
