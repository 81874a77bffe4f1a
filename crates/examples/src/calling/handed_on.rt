//! A function of one's own that hands a pulled item on, and says what is known of it.
ghost use Rattle.std.specs.Prelude.{◌≡◌, [], IfOk};

use lockfree_object_pool::PullError;
use lockfree_object_pool::recycling::{OwnedReusable, Pool};
use std::sync::Arc;

/// A letter to be written, which any thread may send on.
type Letter = OwnedReusable<Vec<u8>>;

/// Pulls a letter, which comes empty.
fn new_letter(letters: &Arc<Pool<Vec<u8>>>) -> Result<Letter, PullError>
    ensures empty { IfOk result (λ letter. letter.item.value.items ≡ []) }
{
    letters.pull_owned()
}

/// Returns how long a letter is with only a greeting.
fn greeted(letters: &Arc<Pool<Vec<u8>>>) -> Result<usize, PullError>
    ensures greeting { IfOk result (λ length. length ≡ 5) }
{
    let mut letter = new_letter(letters)?;
    letter.extend_from_slice(b"hello")?;
    Ok(letter.len())
}

#[cfg(test)]
mod tests;
