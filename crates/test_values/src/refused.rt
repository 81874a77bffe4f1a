//! Asking again where memory was refused.
pub use pool_parts::PullError;

/// What an expression answers. If memory was refused, it is what the same expression answers when
/// it is asked a second time.
#[macro_export]
macro_rules! again {
    ($ask:expr) => {
        match $ask {
            Err($crate::refused::PullError::Memory) => $ask,
            answer => answer,
        }
    };
}
