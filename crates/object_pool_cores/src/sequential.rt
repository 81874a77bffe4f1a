//! Sequential pools, each for one owner, and a player of commands on them.

mod attach_error;
mod command;
mod core_page;
mod held_items;
mod item;
mod linear_core;
mod none_core;
mod numbered_items;
mod player;
mod reply;
mod sequential_pool;
mod stack_core;

pub use attach_error::AttachError;
pub use command::Command;
pub use core_page::CorePage;
pub use item::Item;
pub use linear_core::LinearCore;
pub use none_core::NoneCore;
pub use player::Player;
pub use pool_world::RunError;
pub use reply::Reply;
pub use sequential_pool::SequentialPool;
pub use stack_core::StackCore;
