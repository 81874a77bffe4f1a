//! A player of commands on a sequential pool.
ghost use Rattle.std.specs.Prelude.{◌≡◌, ◌≤◌, ◌+◌, All, option_map, [], IfOk, IfErr, OnErr, IsOk, IsErr, if◌then◌else◌};
ghost use Rattle.std.specs.Prelude.{length, vec_capacity};
ghost use Rattle.std.specs.Option.{option_copied};
ghost use Rattle.object_pool_cores.specs.Held.{held_at};
ghost use Rattle.object_pool_cores.specs.Item.{item_value};
ghost use Rattle.object_pool_cores.specs.Replies.{Plays, Ran, MayTakeMemory};
ghost use Rattle.object_pool_cores.specs.declared.sequential.reply.Reply.TheVariants.{Written, Returned, Forgotten, NoSuchHolder};

use crate::sequential::held_items::HeldItems;
use crate::sequential::{AttachError, Command, Reply, RunError, SequentialPool};
use pool_parts::PullError;
use std::alloc::Global;
use std::marker::Model;

/// A pool with the table of the items that are held of it.
///
/// # Examples
///
/// ```rust
/// let mut player = Player::new(alloc, core);
/// let reply = player.play(Command::Pull)?; // item 0 is held at index 0
/// assert_eq!(rt; reply, Reply::Pulled(0, Some(0)));
/// player.play(Command::Write(0, 5))?;
/// assert_eq!(rt; player.held(0), Some(&5));
/// ```
pub struct Player<T, P: SequentialPool<T>> {
    pool: P,
    held: HeldItems<T>,
}

impl<T: Drop, P: SequentialPool<T> + Drop> Drop for Player<T, P> {
    fn drop(self) {
        let Player { pool: _, held: _ } = self;
    }
}

impl<T, P: SequentialPool<T>> Model for Player<T, P> {
    ghost use Rattle.object_pool_cores.specs.Held.{Playing};

    ghost Value = { Playing P T };

    ghost view = { λ player. record { pool = player.pool; held = player.held.items } };

    ghost invariant = { λ player. P.together player.pool player.held.items };
}

impl<T: Drop, P: SequentialPool<T>> Player<T, P> {
    /// Creates a player that holds nothing yet.
    ///
    /// # Examples
    ///
    /// ```rust
    /// let mut player = Player::new(alloc, core);
    /// ```
    pub fn new(alloc: Global, pool: P) -> Player<T, P>
        ensures pool { result.pool ≡ pool }
        ensures held { result.held ≡ [] }
    {
        Player {
            pool,
            held: HeldItems::new(alloc),
        }
    }

    /// Returns the value that is held at an index, if there is one.
    pub fn held(&self, index: usize) -> Option<&T>
        ensures { option_copied result ≡ option_map item_value (held_at self.now.held index) }
    {
        self.held.get(index)
    }

    /// Does one command.
    ///
    /// # Errors
    ///
    /// `Memory` if a pull or an attach finds no room in the player's table. Nothing changes then,
    /// and the value of an attach is dropped.
    pub fn play(&mut self, command: Command<T>) -> Result<Reply<T>, RunError>
        ensures ok { IfOk result
            (λ reply. Plays P.pulls P.gives P.attaches self.old command reply self.new) }
        ensures err { OnErr result (self.new ≡ self.old) }
        ensures memory { IsErr result → MayTakeMemory command }
    {
        match command {
            Command::Pull => match self.pull()? {
                Ok((index, number)) => Ok(Reply::Pulled(index, number)),
                Err(cause) => Ok(Reply::Refused(cause)),
            },
            Command::Write(index, value) => Ok(reply_of(self.write(index, value), Reply::Written)),
            Command::Return(index) => Ok(reply_of(self.give(index), Reply::Returned)),
            Command::Forget(index) => Ok(reply_of(self.forget(index), Reply::Forgotten)),
            Command::Attach(value) => match self.attach(value)? {
                Ok(index) => Ok(Reply::Attached(index)),
                Err(error) => Ok(Reply::AttachRefused(error)),
            },
        }
    }

    /// Does the commands in order, and puts each reply at the end of `replies`.
    ///
    /// # Errors
    ///
    /// `Memory` if the player's table or `replies` can't grow. The commands that were done stay
    /// done, with their replies, and the others are dropped. A pool's refusal is a reply and no
    /// error.
    pub fn run(
        &mut self,
        commands: Vec<Command<T>>,
        replies: &mut Vec<Reply<T>>,
    ) -> Result<(), RunError>
        ensures ran { Ran P.pulls P.gives P.attaches self.old commands.items
            replies.old.items result replies.new.items self.new }
        ensures room_is_there { All (λ command. MayTakeMemory command → ⊥) commands.items
            → length replies.old.items + length commands.items ≤ vec_capacity replies.old
            → IsOk result }
    {
        for command in commands {
            replies.reserve(1)?;
            let reply = self.play(command)?;
            if replies.push(reply).is_err() {
                unreachable!()
            }
        }
        Ok(())
    }

    /// Pulls an item, which is held from now on. Returns the index at which it is held, and its
    /// number.
    ///
    /// # Errors
    ///
    /// `Memory` if there is no room in the table. The inner error is the pool's.
    pub(crate) fn pull(&mut self) -> Result<Result<(usize, Option<u128>), PullError>, RunError>
        ensures pulled { IfOk result (λ answer. IfOk answer (λ pulled.
            Plays P.pulls P.gives P.attaches self.old Command.Pull
            (Reply.Pulled pulled.0 pulled.1) self.new)) }
        ensures refused { IfOk result (λ answer. IfErr answer (λ cause.
            Plays P.pulls P.gives P.attaches self.old Command.Pull (Reply.Refused cause)
            self.new)) }
        ensures err { OnErr result (self.new ≡ self.old) }
    {
        self.held.reserve()?;
        match self.pool.pull() {
            Ok(item) => {
                let number = item.number();
                Ok(Ok((self.held.hold(item), number)))
            }
            Err(cause) => Ok(Err(cause)),
        }
    }

    /// Attaches a value, which is held from now on. Returns the index at which it is held.
    ///
    /// # Errors
    ///
    /// `Memory` if there is no room in the table. The inner error is the pool's.
    pub(crate) fn attach(&mut self, value: T) -> Result<Result<usize, AttachError<T>>, RunError>
        ensures attached { IfOk result (λ answer. IfOk answer (λ index.
            Plays P.pulls P.gives P.attaches self.old (Command.Attach value)
            (Reply.Attached index) self.new)) }
        ensures refused { IfOk result (λ answer. IfErr answer (λ error.
            Plays P.pulls P.gives P.attaches self.old (Command.Attach value)
            (Reply.AttachRefused error) self.new)) }
        ensures err { OnErr result (self.new ≡ self.old) }
    {
        self.held.reserve()?;
        match self.pool.attach(value) {
            Ok(item) => Ok(Ok(self.held.hold(item))),
            Err(error) => Ok(Err(error)),
        }
    }

    /// Replaces the value that is held at an index, and returns whether there is one.
    pub(crate) fn write(&mut self, index: usize, value: T) -> bool
        ensures { Plays P.pulls P.gives P.attaches self.old (Command.Write index value)
            (if result then Written else NoSuchHolder) self.new }
    {
        self.held.replace(index, value)
    }

    /// Returns the item that is held at an index to the pool, and returns whether there is one.
    pub(crate) fn give(&mut self, index: usize) -> bool
        ensures { Plays P.pulls P.gives P.attaches self.old (Command.Return index)
            (if result then Returned else NoSuchHolder) self.new }
    {
        match self.held.take(index) {
            Some(item) => {
                self.pool.give(item);
                true
            }
            None => false,
        }
    }

    /// Takes the item that is held at an index out of the table, and returns whether there is one.
    /// It doesn't go back to the pool.
    pub(crate) fn forget(&mut self, index: usize) -> bool
        ensures { Plays P.pulls P.gives P.attaches self.old (Command.Forget index)
            (if result then Forgotten else NoSuchHolder) self.new }
    {
        self.held.take(index).is_some()
    }
}

/// Returns this reply, or `NoSuchHolder` if nothing is held there.
fn reply_of<T: Drop>(is_held: bool, reply: Reply<T>) -> Reply<T>
    ensures { result ≡ (if is_held then reply else NoSuchHolder) }
{
    if is_held { reply } else { Reply::NoSuchHolder }
}
