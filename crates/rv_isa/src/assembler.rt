// The assembler: items in, code words out.
ghost use Rattle.std.specs.Prelude.{◌≡◌, ◌<◌, ◌≤◌, ◌↔◌, ◌++◌, ◌∷◌, [], length, IsErr, IfOk, OnOk, OnErr};
ghost use Rattle.rv_isa.specs.Assembly.{Assembly, IsPlaced, IsItem, with_label, with_place, with_item, word_count, assembled, item_len, Answers};

use crate::fault::{AsmFault, Placed};
use crate::item::Item;
use crate::placing::assemble;
use mn_outside::{Label, NoMemory, Refused};
use std::alloc::Global;
use std::marker::Model;

/// Code that is being assembled: items in order, and labels between them. Contracts see the items
/// and, for each label, the number of code words before it.
#[derive(Drop)]
pub struct Asm {
    items: Vec<Item>,
    places: Vec<Option<u32>>,
    count: u32,
}

impl Model for Asm {
    ghost use Rattle.std.specs.Prelude.{◌≡◌};
    ghost use Rattle.rv_isa.specs.Assembly.{Assembly, word_count};

    ghost Value = { Assembly };

    ghost view = { λ a. record { items = a.items.items; places = a.places.items } };

    ghost invariant = { λ a. a.count ≡ word_count a.items.items };
}

impl Asm {
    /// An assembler without items and labels.
    pub fn new(alloc: Global) -> Result<Self, NoMemory>
        ensures { IfOk result (λ asm. asm ≡ record { items = []; places = [] }) }
    {
        Ok(Asm {
            items: Vec::new(alloc),
            places: Vec::new(alloc),
            count: 0,
        })
    }

    /// Makes a label, which has no place yet. Labels count from 0.
    pub fn label(&mut self) -> Result<Label, NoMemory>
        ensures label { IfOk result (λ label. label.number ≡ length self.old.places) }
        ensures made { OnOk result (self.new ≡ with_label self.old) }
        ensures err { OnErr result (self.new ≡ self.old) }
    {
        let number = self.places.len();
        if number > u32::MAX as usize {
            return Err(NoMemory);
        }
        match self.places.push(None) {
            Ok(()) => Ok(Label {
                number: number as u32,
            }),
            Err(_) => Err(NoMemory),
        }
    }

    /// Puts a label at the end of the items so far. A label has one place: Placed comes exactly
    /// where it was placed before. No memory is taken.
    pub fn place(&mut self, label: Label) -> Result<(), Placed>
        requires made { label.number < length self.old.places }
        ensures placed { OnOk result (self.new ≡ with_place self.old label.number) }
        ensures twice { IsErr result ↔ IsPlaced self.old label.number }
        ensures err { OnErr result (self.new ≡ self.old) }
    {
        let number = label.number as usize;
        if self.places[number].is_some() {
            return Err(Placed);
        }
        self.places[number] = Some(self.count);
        Ok(())
    }

    /// Puts an item at the end.
    pub fn emit(&mut self, item: Item) -> Result<(), NoMemory>
        requires { IsItem item }
        ensures ok { OnOk result (self.new ≡ with_item self.old item) }
        ensures err { OnErr result (self.new ≡ self.old) }
    {
        if self.count > u32::MAX - 2 {
            return Err(NoMemory);
        }
        let words = len(&item);
        match self.items.extend_from_slice(&[item]) {
            Ok(()) => {
                self.count += words;
                Ok(())
            }
            Err(_) => Err(NoMemory),
        }
    }

    /// How many code words the items give together.
    pub fn word_count(&self) -> u32
        ensures { result ≡ word_count self.now.items }
    {
        self.count
    }

    /// The items' code words, each branch and far jump with its distance to its label.
    /// It needs items of at most 2^28 words. The first item that has a fault gives the refusal.
    pub fn finish(self, alloc: Global) -> Result<Vec<u32>, Refused<AsmFault>>
        requires { word_count self.items ≤ 268435456 }
        ensures { Answers (assembled self) result }
    {
        assemble(alloc, &self.items, &self.places)
    }
}

// How many code words an item gives.
fn len(item: &Item) -> u32
    ensures value { result ≡ item_len item.now }
    ensures bound { result ≤ 2 }
{
    match item {
        Item::Plain(_) => 1,
        Item::Branch(_, _) => 1,
        Item::Far(_) => 2,
    }
}
