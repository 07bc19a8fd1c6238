// The objects, with the words of all of them in one list.
ghost use Rattle.std.specs.Prelude.{◌≡◌, ◌+◌, ◌-◌, ◌<◌, ◌≤◌, IfOk, OnOk, OnErr, IsTrue, Some, option_map, length, not, nat_lt, slice_get};
ghost use Rattle.store_object.specs.Store.{Store, opening, Shape, shape_at, shape_of, is_object, is_place, heap_of, with_word, with_object};
ghost use Rattle.store_object.specs.declared.place.Place.TheVariants as at;
ghost use Rattle.store_object.specs.Held.{shape_in, HoldsObjects};

use crate::{HEAP_LIMIT, OBJECT_COST};
use std::alloc::{AllocError, Global};

/// An object, and where its words begin among the words of all objects.
#[derive(Clone, Copy)]
pub(crate) struct Object {
    pub kind: u32,
    pub length: u32,
    pub from: usize,
    pub words: usize,
}

/// The objects in order of allocation, and their words.
#[derive(Drop)]
pub(crate) struct Objects {
    pub table: Vec<Object>,
    pub words: Vec<u64>,
}

impl Objects {
    pub(crate) fn new(alloc: Global) -> Objects
        ensures { HoldsObjects result opening }
    {
        Objects {
            table: Vec::new(alloc),
            words: Vec::new(alloc),
        }
    }

    /// The object of a number from 1, if it was allocated.
    pub(crate) fn find(&self, number: u32) -> Option<Object>
        ghost store: { Store }
        requires { HoldsObjects self.now store }
        ensures { option_map shape_in result ≡ shape_at store number }
    {
        if number == 0 {
            return None;
        }
        self.table.get(number as usize - 1).copied()
    }

    /// The object of a number that was allocated.
    pub(crate) fn at(&self, number: u32) -> Object
        ghost store: { Store }
        requires held { HoldsObjects self.now store }
        requires there { IsTrue (is_object store number) }
        ensures shape { shape_in result ≡ shape_of store number }
        ensures stored { slice_get self.now.table.items (number - 1) ≡ Some result }
        ensures number { 0 < number }
    {
        self.table[number as usize - 1]
    }

    /// Whether there is heap for an object of this many words.
    pub(crate) fn has_heap(&self, words: u64) -> bool
        ghost store: { Store }
        requires { HoldsObjects self.now store }
        ensures { result ≡ not (nat_lt HEAP_LIMIT (heap_of store.shapes + (OBJECT_COST + words))) }
    {
        let taken = OBJECT_COST * self.table.len() as u64 + self.words.len() as u64;
        words <= HEAP_LIMIT && taken + (OBJECT_COST + words) <= HEAP_LIMIT
    }

    /// Adds an object whose words are all 0, and gives its number.
    pub(crate) fn add(&mut self, kind: u32, len: u32, words: u64) -> Result<u32, AllocError>
        ghost store: { Store }
        requires held { HoldsObjects self.old store }
        requires heap { heap_of store.shapes + (OBJECT_COST + words) ≤ HEAP_LIMIT }
        ensures number { IfOk result (λ number. number ≡ length store.shapes + 1) }
        ensures ok { OnOk result (HoldsObjects self.new (with_object store (record { kind = kind; length = len; words = words }))) }
        ensures err { OnErr result (HoldsObjects self.new store) }
    {
        let from = self.words.len();
        let words = words as usize;
        self.table.reserve(1)?;
        self.words.resize(from + words, 0)?;
        self.table.push_reserved(Object {
            kind,
            length: len,
            from,
            words,
        });
        Ok(self.table.len() as u32)
    }

    /// The word of an object at an index.
    pub(crate) fn load(&self, object: u32, index: u32) -> u64
        ghost store: { Store }
        requires held { HoldsObjects self.now store }
        requires there { IsTrue (is_place store (at.Object object index)) }
        ensures { result ≡ store.word object index }
    {
        self.words[self.at(object).from + index as usize]
    }

    /// Puts a word of an object at an index.
    pub(crate) fn save(&mut self, object: u32, index: u32, word: u64)
        ghost store: { Store }
        requires held { HoldsObjects self.old store }
        requires there { IsTrue (is_place store (at.Object object index)) }
        ensures { HoldsObjects self.new (with_word store (at.Object object index) word) }
    {
        let place = self.at(object).from + index as usize;
        self.words[place] = word;
    }
}
