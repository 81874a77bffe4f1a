//! A player of each call of a mutex pool and of a spin lock pool.
use crate::values::{Book, Called, Part, Value};
use pool_parts::PullError;
use pool_parts::clean::AnyValue;
use pool_parts::closures::{Init, Reset};
use pool_parts::made_or_reset::MadeOrReset;
use rows::refusals::Refusals;
use rows::row::{Command, Difference, Row};
use rows::said::Said;
use rows::setting::refused;
use stack_pools::free_list::FreeList;
use stack_pools::kept_stack::KeptStack;
use stack_pools::stack::Stack;
use stack_pools::stack_object_pool::StackObjectPool;
use stack_pools::stack_reusable::{SharedStackPool, StackReusable};
use stack_pools::{MutexObjectPool, SpinLockObjectPool};
use std::alloc::Global;
use std::sync::{Arc, Mutex, Wait};

/// What a pool keeps.
type Kept<I, R> = MadeOrReset<I, R, AnyValue>;

pub type Pool<F> = StackObjectPool<Value, Part, Part, AnyValue, F>;

pub type UnderMutex = Mutex<Stack<Value, Kept<Part, Part>>>;

pub type UnderSpinLock = KeptStack<Value, Kept<Part, Part>>;

/// A kind of stack pool, by its list.
pub trait Kind<T, I: Init<T, AnyValue>, R: Reset<T, AnyValue>>: FreeList<T, Kept<I, R>> {
    fn new_pool(
        alloc: Global,
        init: I,
        reset: R,
    ) -> Result<StackObjectPool<T, I, R, AnyValue, Self>, PullError>;
}

impl<T: Drop, I: Init<T, AnyValue>, R: Reset<T, AnyValue>> Kind<T, I, R>
    for Mutex<Stack<T, Kept<I, R>>> {
    fn new_pool(
        alloc: Global,
        init: I,
        reset: R,
    ) -> Result<StackObjectPool<T, I, R, AnyValue, Self>, PullError> {
        Ok(MutexObjectPool::new(alloc, init, reset))
    }
}

impl<T: Drop, I: Init<T, AnyValue>, R: Reset<T, AnyValue>> Kind<T, I, R>
    for KeptStack<T, Kept<I, R>> {
    fn new_pool(
        alloc: Global,
        init: I,
        reset: R,
    ) -> Result<StackObjectPool<T, I, R, AnyValue, Self>, PullError> {
        SpinLockObjectPool::new(alloc, init, reset)
    }
}

/// A pool, and the book of its values.
#[derive(Drop)]
pub struct Opened<F: Kind<Value, Part, Part>> {
    pub pool: Arc<Pool<F>>,
    pub book: Arc<Book>,
}

impl<F: Kind<Value, Part, Part>> Opened<F> {
    /// Opens a pool, one of whose calls may meet another thread.
    ///
    /// # Errors
    ///
    /// `Memory`.
    pub fn new(alloc: Global, place: Option<Called>) -> Result<Opened<F>, PullError> {
        let book = Arc::new(alloc, Book::new(place))?;
        let init = Part {
            book: Arc::try_clone(&book)?,
        };
        let reset = Part {
            book: Arc::try_clone(&book)?,
        };
        let pool = Arc::new(alloc, F::new_pool(alloc, init, reset)?)?;
        Ok(Opened { pool, book })
    }
}

/// An item, borrowed or owned.
#[derive(Drop)]
enum Item<'p, F: Kind<Value, Part, Part>, W: Wait + Copy> {
    Borrowed(StackReusable<Value, &'p Pool<F>, W>),
    Owned(StackReusable<Value, Arc<Pool<F>>, W>),
}

impl<F: Kind<Value, Part, Part>, W: Wait + Copy> Item<'_, F, W> {
    fn value(&self) -> &Value {
        match self {
            Item::Borrowed(item) => item,
            Item::Owned(item) => item,
        }
    }

    fn write(&mut self, number: usize) {
        match self {
            Item::Borrowed(item) => item.written = number,
            Item::Owned(item) => item.written = number,
        }
    }

    /// Lets it go as a word says.
    fn leave(self, word: &'static str) -> Said {
        match self {
            Item::Borrowed(item) => leave(item, word),
            Item::Owned(item) => leave(item, word),
        }
    }
}

fn leave<P: SharedStackPool<Value>, W: Wait + Copy>(
    item: StackReusable<Value, P, W>,
    word: &'static str,
) -> Said {
    match word {
        "detach" => return item.detach().says("detached"),
        "give_back" => drop(item.give_back()),
        _ => drop(item),
    }
    Said::of("done")
}

/// Holds items of a pool, and makes its calls by commands.
///
/// - `pull`, `pull_owned`, `pull_after`, `renew` (a pull, its return, and a pull after that):
///   `pulled SERIAL WRITTEN`, or why not.
/// - `attach NUMBER`, `attach_owned NUMBER`: `attached SERIAL NUMBER`, or `came back ..`.
/// - Of the item that was held as the INDEX-th, from 0 on: `read INDEX` and `write INDEX NUMBER`
///   say `reads SERIAL WRITTEN`; `return`, `give_back`; `detach` drops what it takes, and says
///   `detached SERIAL WRITTEN`. `return_last` is of the item that was held last.
/// - `fill NUMBER`, `kept`, `clear`.
/// - `counts` says how many values were made, reset and dropped, `calls` how often `init` was
///   called, `owners` how many the pool has.
/// - `refuse CALL`: this call of `init`, from 0 on, makes nothing. `reject 1`, `zero 1`: `reset`
///   rejects what it gets, or leaves 0.
#[derive(Drop)]
pub struct StackPlayer<'p, F: Kind<Value, Part, Part>, W: Wait + Copy> {
    pub rt: W,
    pub opened: &'p Opened<F>,
    refusals: &'p Refusals,
    is_owned: bool,
    held: Vec<Option<Item<'p, F, W>>>,
}

impl<'p, F: Kind<Value, Part, Part>, W: Wait + Copy> StackPlayer<'p, F, W> {
    /// Creates a player that holds nothing. If it is owned, `pull` and `attach` are those of owned
    /// items.
    pub fn new(
        rt: W,
        alloc: Global,
        opened: &'p Opened<F>,
        refusals: &'p Refusals,
        is_owned: bool,
    ) -> StackPlayer<'p, F, W> {
        StackPlayer {
            rt,
            opened,
            refusals,
            is_owned,
            held: Vec::new(alloc),
        }
    }

    /// Takes room for 64 items, which asks for no memory then. Whether it was met.
    pub fn has_room(&mut self) -> bool {
        let is_met = self.held.reserve(64).is_ok();
        if !is_met {
            self.refusals.note();
        }
        is_met
    }

    /// Plays a row. Returns the first difference, or `None` if each answer is as the row says.
    pub fn first_difference(
        &mut self,
        commands: &'static str,
        answers: &'static str,
    ) -> Option<Difference> {
        let mut row = Row::new(commands, answers);
        for _ in 0..u64::MAX {
            let Some(command) = row.next_command() else {
                break;
            };
            let said = self.play_again(command);
            row.hear(said);
        }
        row.difference()
    }

    /// Plays a command. Where memory was refused, it is played once more, which a refusal has to
    /// leave undone: a filling goes on, and a value comes back.
    fn play_again(&mut self, command: Command) -> Said {
        let Command {
            word,
            numbers: [number, _, _],
        } = command;
        let opened = self.opened;
        let (calls, drops) = opened.book.tally.now();
        let said = self.play(command);
        let made = opened.book.tally.calls().saturating_sub(calls);
        let is_undone = match said.words() {
            "refused memory" => {
                opened.book.tally.drops() == drops && (made == 0 || word == "fill")
            }
            "came back" => said.number(1) == Some(number),
            _ => false,
        };
        if !is_undone {
            return said;
        }
        self.refusals.note();
        self.play(Command {
            word,
            numbers: [number.saturating_sub(made), 0, 0],
        })
    }

    /// Pulls an item as a word says.
    fn pulled(&self, word: &'static str) -> Result<Item<'p, F, W>, PullError> {
        let owner: &'p Arc<Pool<F>> = &self.opened.pool;
        let pool: &'p Pool<F> = owner;
        match word {
            "pull_after" => Ok(Item::Borrowed(pool.pull_after(&self.rt, pool.note())?)),
            "renew" => {
                let note = pool.pull(&self.rt)?.give_back();
                Ok(Item::Borrowed(pool.pull_after(&self.rt, note)?))
            }
            _ if self.is_owned || word == "pull_owned" => {
                Ok(Item::Owned(owner.pull_owned(&self.rt)?))
            }
            _ => Ok(Item::Borrowed(pool.pull(&self.rt)?)),
        }
    }

    /// Attaches a value as a word says. It comes back if there is no memory.
    fn attached(&self, word: &'static str, value: Value) -> Result<Item<'p, F, W>, Value> {
        let owner: &'p Arc<Pool<F>> = &self.opened.pool;
        if !self.is_owned && word == "attach" {
            let pool: &'p Pool<F> = owner;
            return Ok(Item::Borrowed(StackReusable::new(&self.rt, pool, value)?));
        }
        let Ok(owner) = Arc::try_clone(owner) else {
            return Err(value);
        };
        Ok(Item::Owned(StackReusable::new(&self.rt, owner, value)?))
    }

    /// Holds an item.
    fn hold(&mut self, words: &'static str, item: Item<'p, F, W>) -> Said {
        let said = item.value().says(words);
        match self.held.push(Some(item)) {
            Ok(()) => said,
            Err(_) => Said::of("no room"),
        }
    }

    /// Uses an item that is held.
    fn use_held(&mut self, command: Command) -> Said {
        let Command {
            word,
            numbers: [index, number, _],
        } = command;
        let Some(place) = self.held.get_mut(index) else {
            return Said::of("no such item");
        };
        let Some(mut item) = place.take() else {
            return Said::of("no such item");
        };
        if word != "read" && word != "write" {
            return item.leave(word);
        }
        if word == "write" {
            item.write(number);
        }
        let said = item.value().says("reads");
        *place = Some(item);
        said
    }

    /// Uses the pool as a whole.
    fn use_pool(&self, word: &'static str, number: usize) -> Said {
        let Opened { pool, book } = self.opened;
        match word {
            "kept" => Said::of("keeps").and(pool.kept(&self.rt)),
            "owners" => Said::of("owners").and(Arc::strong_count(pool)),
            "fill" => match pool.fill(&self.rt, number) {
                Ok(()) => Said::of("done"),
                Err(cause) => refused(cause),
            },
            "clear" => {
                pool.clear(&self.rt);
                Said::of("done")
            }
            _ => book.play(word, number),
        }
    }

    /// Plays a command.
    pub fn play(&mut self, command: Command) -> Said {
        let Command {
            word,
            numbers: [number, _, _],
        } = command;
        match word {
            "pull" | "pull_owned" | "pull_after" | "renew" => match self.pulled(word) {
                Ok(item) => self.hold("pulled", item),
                Err(cause) => refused(cause),
            },
            "attach" | "attach_owned" => {
                let Some(value) = Value::new(&self.opened.book, number) else {
                    return Said::of("no owner");
                };
                match self.attached(word, value) {
                    Ok(item) => self.hold("attached", item),
                    Err(value) => value.says("came back"),
                }
            }
            "return_last" => match self.held.pop() {
                Some(Some(item)) => item.leave("return"),
                _ => Said::of("no such item"),
            },
            "read" | "write" | "return" | "give_back" | "detach" => self.use_held(command),
            _ => self.use_pool(word, number),
        }
    }
}
