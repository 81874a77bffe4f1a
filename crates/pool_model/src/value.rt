//! Values that are counted, and what makes and resets them.
ghost use Rattle.std.specs.Prelude.{⊤};

use crate::book::Book;
use pool_parts::PullError;
use pool_parts::clean::AnyValue;
use pool_parts::closures::{Init, Reset};
use std::sync::Arc;

/// A value that knows how many were made before it, and counts its drop.
pub struct Value {
    book: Arc<Book>,
    pub serial: usize,
}

impl Value {
    /// Makes a value, unless the book says that it is refused.
    pub fn new(book: &Arc<Book>) -> Option<Value> {
        if book.refuses() {
            return None;
        }
        let owner = Arc::try_clone(book).ok()?;
        let serial = book.count_value();
        Some(Value {
            book: owner,
            serial,
        })
    }
}

impl Drop for Value {
    fn drop(self) {
        let Value { book, serial } = self;
        book.count_drop(serial);
    }
}

/// What makes and resets values, as the book says.
#[derive(Drop)]
pub struct Closures {
    book: Arc<Book>,
}

impl Closures {
    /// Creates what makes and resets the values of a book.
    ///
    /// # Errors
    ///
    /// `Memory` if the book can have no more owners.
    pub fn new(book: &Arc<Book>) -> Result<Closures, PullError> {
        let book = Arc::try_clone(book)?;
        Ok(Closures { book })
    }
}

impl Init<Value, AnyValue> for Closures {
    ghost answers = { λ _ _. ⊤ };

    fn make(&self) -> Option<Value> {
        self.book.count_call();
        Value::new(&self.book)
    }
}

impl Reset<Value, AnyValue> for Closures {
    ghost rejects = { λ _ _. ⊤ };

    fn reset(&self, value: &mut Value) {
        let _ = value;
        self.book.count_reset();
    }

    fn try_reset(&self, value: Value) -> Option<Value> {
        self.book.count_reset();
        if self.book.rejects() {
            return None;
        }
        Some(value)
    }
}
