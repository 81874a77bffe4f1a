//! The plain model of workers: what each keeps and what is held, beside the model of their pool.
use crate::plays::{Kind, Room};
use pool_model::book::Counts;
use pool_model::model::Model;
use pool_parts::PullError;
use rows::row::Command;
use rows::said::Said;
use std::alloc::{AllocError, Global};

/// An item: its number in the pool, and how many values were made before its value.
#[derive(Clone, Copy)]
struct Item {
    number: usize,
    serial: usize,
}

/// What a worker keeps. What came back last stands last.
#[derive(Drop)]
struct Keeper {
    room: usize,
    /// The page at which its next pull begins.
    page: usize,
    kept: Vec<Item>,
}

/// An item that is held, and whose worker it is of.
#[derive(Clone, Copy)]
struct Held {
    worker: usize,
    item: Item,
}

/// All that can be asked of a pool and its values between two calls.
#[derive(Clone, Copy, Debug, PartialEq, Eq)]
pub struct Standing {
    /// The order of drops isn't told.
    pub counts: Counts,
    /// How many own the book.
    pub owners: usize,
    pub counted: Option<(usize, usize)>,
}

/// What a pool and its workers are to be.
#[derive(Drop)]
pub struct Workers {
    pool: Model,
    is_lazy: bool,
    /// How many pages a pull may begin at. In a linear pool each begins at the first one.
    pages: usize,
    /// How many own the book beside the values: the game, and what the pool has of its closures. A
    /// fixed pool has no `init` after its opening.
    others: usize,
    keepers: Vec<Keeper>,
    held: Vec<Held>,
    refuses: bool,
    rejects: bool,
}

impl Workers {
    /// Creates the model of a new pool without workers.
    ///
    /// # Errors
    ///
    /// If memory is refused.
    pub fn new(alloc: Global, kind: Kind) -> Result<Workers, AllocError> {
        let (batch, made, others, pages) = match kind {
            Kind::Fixed(items) => (1, items, 2, items.div_ceil(32)),
            Kind::Lazy(items) => (1, 0, 3, items.div_ceil(32)),
            Kind::Linear(_) => (32, 32, 3, 1),
        };
        let mut pool = Model::new(alloc, kind.items(), batch)?;
        pool.make_all(0, made);
        Ok(Workers {
            pool,
            is_lazy: matches!(kind, Kind::Lazy(_)),
            pages,
            others,
            keepers: Vec::new(alloc),
            held: Vec::new(alloc),
            refuses: false,
            rejects: false,
        })
    }

    /// Adds a worker whose first pull begins at this page.
    ///
    /// # Errors
    ///
    /// If memory is refused.
    pub fn add(&mut self, alloc: Global, room: Room, page: usize) -> Result<(), AllocError> {
        self.keepers.push(Keeper {
            room: room.unwrap_or(1),
            page,
            kept: Vec::new(alloc),
        })?;
        Ok(())
    }

    /// Returns how many items are held.
    pub fn held(&self) -> usize {
        self.held.len()
    }

    /// Returns whether the pool can be closed and reject values.
    pub fn is_lazy(&self) -> bool {
        self.is_lazy
    }

    /// Returns how the pool is to stand.
    pub fn standing(&self) -> Standing {
        let counts = self.pool.counts;
        Standing {
            counts: Counts { order: 0, ..counts },
            owners: self.pool.existing().saturating_add(self.others),
            counted: self.is_lazy.then_some((self.pool.most(), self.pool.held())),
        }
    }

    /// Whether this may be said to a command. The model goes on as it says.
    pub fn is_fair(&mut self, command: Command, said: Said) -> bool {
        let [index, _, _] = command.numbers;
        match command.word {
            "pull" => self.is_fair_pull(index, said),
            "return" => self.is_fair_return(index, said),
            "visit" => match self.taken(0, usize::MAX, said) {
                Ok(Some(item)) => {
                    self.pool.give_back(item.number, self.rejects);
                    said.words() == "visited"
                }
                answer => answer.is_ok(),
            },
            word => self.is_done(word, said),
        }
    }

    /// Whether a worker's pull may come to this.
    fn is_fair_pull(&mut self, worker: usize, said: Said) -> bool {
        if self.pool.is_closed() {
            self.give_back_all(worker);
        }
        let Some(keeper) = self.keepers.get_mut(worker) else {
            return said.words() == "no such worker";
        };
        let (kept, page) = (keeper.kept.pop(), keeper.page);
        if let Some(item) = kept {
            let is_same = said == Said::of("pulled").and(item.number).and(item.serial);
            return is_same && self.hold(worker, item);
        }
        let start = page.wrapping_mul(32);
        if self.pool.refusal().is_none() && !self.pool.has_free(start, 32) {
            self.go_on(worker);
        }
        match self.taken(start, 32, said) {
            Ok(Some(item)) => said.words() == "pulled" && self.hold(worker, item),
            answer => answer.is_ok(),
        }
    }

    /// If a worker's pull found a place of another page than that at which it began, the next one
    /// begins a page further.
    fn go_on(&mut self, worker: usize) {
        if let Some(keeper) = self.keepers.get_mut(worker) {
            let next = keeper.page.wrapping_add(1);
            keeper.page = next.checked_rem(self.pages).unwrap_or(0);
        }
    }

    fn hold(&mut self, worker: usize, item: Item) -> bool {
        self.held.push(Held { worker, item }).is_ok()
    }

    /// The item that the pool gives, which is one of these if one of these is free, or none if it
    /// refuses one. An error if it may not do so.
    fn taken(&mut self, start: usize, count: usize, said: Said) -> Result<Option<Item>, ()> {
        let refusal = self.pool.refusal();
        let has_near = self.pool.has_free(start, count);
        let is_fair = match (said.words(), said.number(0), said.number(1)) {
            (_, Some(number), Some(serial)) => {
                let is_near = !has_near || number.wrapping_sub(start) < count;
                let fits = self.pool.take(number, serial, true);
                if is_near && fits && refusal.is_none() {
                    return Ok(Some(Item { number, serial }));
                }
                false
            }
            ("refused init", None, None) => {
                self.pool.is_refused(true) && self.refuses && refusal.is_none()
            }
            ("refused limit", None, None) => refusal == Some(PullError::Limit),
            ("refused closed", None, None) => refusal == Some(PullError::Closed),
            _ => false,
        };
        if is_fair { Ok(None) } else { Err(()) }
    }

    /// Whether a return may come to this.
    fn is_fair_return(&mut self, index: usize, said: Said) -> bool {
        if self.held.len() <= index {
            return said.words() == "not held";
        }
        let Held { worker, item } = self.held.remove(index);
        if self.pool.reset(item.number, self.rejects) {
            self.keep(worker, item);
        }
        said.words() == "returned"
    }

    /// A worker keeps an item, or returns it to the pool.
    fn keep(&mut self, worker: usize, item: Item) {
        if self.pool.is_closed() {
            self.give_back_all(worker);
            self.pool.free(item.number);
            return;
        }
        let Some(keeper) = self.keepers.get_mut(worker) else {
            return;
        };
        if keeper.kept.len() == keeper.room || keeper.kept.push(item).is_err() {
            self.pool.free(item.number);
        }
    }

    /// What a worker keeps goes to the pool.
    fn give_back_all(&mut self, worker: usize) {
        if let Some(keeper) = self.keepers.get_mut(worker) {
            for item in &keeper.kept {
                self.pool.free(item.number);
            }
            keeper.kept.clear();
        }
    }

    fn is_done(&mut self, word: &str, said: Said) -> bool {
        match word {
            "close" => self.pool.close(),
            "refuse" => self.refuses = true,
            "allow" => self.refuses = false,
            "reject" => self.rejects = true,
            _ => self.rejects = false,
        }
        said.words() == "done"
    }
}
