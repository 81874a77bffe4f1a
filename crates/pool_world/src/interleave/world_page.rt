//! A page of a world: a word, and 32 places.
ghost use Rattle.pool_parts.specs.declared.page.word.TheConstants.{PAGE_ITEMS};
ghost use Rattle.std.specs.Prelude.{length, ◌≡◌, Some, None, option_copied, option_and_then};
ghost use Rattle.std.specs.Prelude.{slice_get, slice_set};
ghost use Rattle.pool_world.specs.World.State.{WorldPageState};
ghost use Rattle.pool_world.specs.World.Machine.{linked_page};

use crate::interleave::Prepared;
use pool_parts::page::PageId;
use std::marker::Model;

/// A page that is linked.
#[derive(Drop)]
pub struct WorldPage<T> {
    word: u32,
    places: Vec<Option<T>>,
}

impl<T> Model for WorldPage<T> {
    ghost use Rattle.pool_world.specs.World.State.{WorldPageState};

    ghost Value = { WorldPageState T };

    ghost view = { λ page. record { word = page.word; places = page.places.items } };
}

impl<T: Drop> WorldPage<T> {
    /// Creates the page of these values, all of whose items are free.
    pub fn new(values: Prepared<T>) -> WorldPage<T>
        ensures value { result ≡ linked_page values }
        ensures whole { length values ≡ PAGE_ITEMS }
    {
        WorldPage {
            word: u32::MAX,
            places: values.into_places(),
        }
    }

    /// Returns the word.
    pub fn word(&self) -> u32
        ensures { result ≡ self.now.word }
    {
        self.word
    }

    /// Sets the word.
    pub fn set_word(&mut self, word: u32)
        ensures { self.new ≡ record { word = word; places = self.old.places } }
    {
        self.word = word;
    }

    /// Returns the value at a place, if one lies there.
    pub fn value(&self, id: PageId) -> Option<&T>
        ensures { option_copied result ≡ option_and_then (λ place. place)
            (slice_get self.now.places id) }
    {
        match self.places.get(usize::from(id)) {
            Some(Some(value)) => Some(value),
            _ => None,
        }
    }

    /// Takes the value out of a place, if one lies there.
    pub fn take(&mut self, id: PageId) -> Option<T>
        ensures value { result ≡ option_and_then (λ place. place) (slice_get self.old.places id) }
        ensures left { self.new ≡
            record { word = self.old.word; places = slice_set self.old.places id None } }
    {
        match self.places.get_mut(usize::from(id)) {
            Some(place) => place.take(),
            None => None,
        }
    }

    /// Puts a value into a place.
    pub fn put(&mut self, id: PageId, value: T)
        ensures { self.new ≡
            record { word = self.old.word; places = slice_set self.old.places id (Some value) } }
    {
        if let Some(place) = self.places.get_mut(usize::from(id)) {
            *place = Some(value);
        }
    }
}
