//! Whether turns of some kind keep memory, and whether work of some kind takes much.
use anyhow::Result;
use std::alloc::Global;
use std::io;
use std::rt::Files;
use std::sync::Wait;
use test_values::peak_memory::{peak_kilobytes, peak_virtual_kilobytes};

/// How many are taken before, so that what is taken once is there.
const FIRST_TURNS: usize = 1_000;

/// What the process may take beside. A box of 16 bytes a turn is more than three times as much.
const KILOBYTES_BESIDE: u64 = 1_024;

/// A kind of turns.
pub trait Turns {
    /// Takes so many turns. `None` where a call answered what it should not.
    fn take<W: Wait + Copy>(&self, rt: &W, alloc: Global, turns: usize) -> Option<()>;
}

/// One who looks at the process's memory, and tells what was seen.
#[derive(Drop)]
pub struct Observer<R> {
    rt: R,
    turns: usize,
    saw_nothing_kept: bool,
}

impl<R: Files + AllocGlobal + Print + Wait + Copy> Observer<R> {
    /// Creates an observer of so many turns of each kind.
    pub fn new(rt: R, turns: usize) -> Observer<R> {
        Observer {
            rt,
            turns,
            saw_nothing_kept: true,
        }
    }

    /// Returns whether nothing was kept or taken in excess until now, and each call answered as it
    /// should.
    pub fn saw_nothing_kept(&self) -> bool {
        self.saw_nothing_kept
    }

    /// Takes turns of each kind, whose line begins with its name.
    ///
    /// # Errors
    ///
    /// If the process's figures can't be read, or a line can't be printed.
    pub fn observe_each<T: Turns>(&mut self, alloc: Global, kinds: &[(&str, T)]) -> Result<()> {
        for (name, turns) in kinds {
            self.observe(alloc, name, turns)?;
        }
        Ok(())
    }

    /// Takes turns, and prints whether the process has more memory then.
    fn observe<T: Turns>(&mut self, alloc: Global, name: &str, turns: &T) -> Result<()> {
        let first = turns.take(&self.rt, alloc, FIRST_TURNS);
        let before = peak_kilobytes(&self.rt)?;
        let observed = turns.take(&self.rt, alloc, self.turns);
        let kept = peak_kilobytes(&self.rt)?.saturating_sub(before);
        if first.is_none() || observed.is_none() {
            self.saw_nothing_kept = false;
            println!(self.rt; "{name}: a call answered what it should not")?;
        } else if kept > KILOBYTES_BESIDE {
            self.saw_nothing_kept = false;
            println!(self.rt; "{name}: {kept} kB are kept")?;
        } else {
            println!(self.rt; "{name}: nothing is kept")?;
        }
        Ok(())
    }

    /// Returns how many kilobytes the process ever had, before some work is done once.
    ///
    /// # Errors
    ///
    /// If the process's figures can't be read.
    pub fn before(&self) -> io::Result<u64> {
        peak_virtual_kilobytes(&self.rt)
    }

    /// Prints whether the process ever had so many kilobytes more than before such work. That is
    /// the most that the work held at once: what it made may be gone by now. `is_made` is false
    /// where a call answered what it should not.
    ///
    /// # Errors
    ///
    /// If the process's figures can't be read, or a line can't be printed.
    pub fn observe_growth(
        &mut self,
        name: &str,
        kilobytes: u64,
        before: u64,
        is_made: bool,
    ) -> Result<()> {
        let taken = peak_virtual_kilobytes(&self.rt)?.saturating_sub(before);
        if !is_made {
            self.saw_nothing_kept = false;
            println!(self.rt; "{name}: a call answered what it should not")?;
        } else if taken >= kilobytes {
            self.saw_nothing_kept = false;
            println!(self.rt; "{name}: {taken} kB")?;
        } else {
            println!(self.rt; "{name}: less than {kilobytes} kB")?;
        }
        Ok(())
    }
}
