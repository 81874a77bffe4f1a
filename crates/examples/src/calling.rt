//! The callers that `CALLING.md` shows, word for word, a file each, and a test that runs each once:
//!
//! - [`scratch`]: a type that makes and resets itself.
//! - [`basket`]: closures that fill a pool.
//! - [`connections`]: items that several threads wait for, some made beforehand, and a fallback.
//! - [`emptied`]: closures whose values meet a condition.
//! - [`tickets`]: a condition of one's own, and a maker that refuses.
//! - [`writers`]: a limit, and owned items in threads.
//! - [`channel`]: owned items over a channel.
//! - [`attached`]: an item that was made elsewhere.
//! - [`handed_on`]: a function that hands a pulled item on.
//! - [`kept_last`]: the value that a spin lock pool kept last.
//! - [`stores`]: types that keep a pool.
//! - [`shared`]: two threads that read one item.
//! - [`defaults`]: values that are made by default, and a refusal as an `io::Error`.
//! - [`rows`]: two items that are held, as two rows of a table.
//! - [`counted`]: counts of pulls, and a value of one's own if none is free.
//! - [`waiting`]: items that are made when they are needed, and a pull that waits.

mod attached;
mod basket;
mod channel;
mod connections;
mod counted;
mod defaults;
mod emptied;
mod handed_on;
mod kept_last;
mod rows;
mod scratch;
mod shared;
mod stores;
mod tickets;
mod waiting;
mod writers;
