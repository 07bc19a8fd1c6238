// The classes of a program by their names.
ghost use Rattle.std.specs.Prelude.{◌≡◌, ◌<◌, IfOk, IfSome, OnOk, [], ◌∷◌, ◌++◌, false, length, take, map, bytes_eq};
ghost use Rattle.std.specs.List.{IsDistinct, list_any};
ghost use Rattle.il_model.specs.Spellings.{plain_name};
ghost use Rattle.il_model.specs.Names.{place_of, plain_names, most_classes};

use crate::class::ClassDef;
use crate::front::front_of;
use crate::program::Program;
use indexmap::IndexSet;
use mn_outside::NoMemory;
use std::alloc::Global;
use std::marker::Model;

/// The classes of a program by their names. Contracts see the list of the names in order of the classes'
/// numbers, `object` and `string` in place of `System.Object` and `System.String`.
#[derive(Drop)]
pub struct Names {
    known: IndexSet<Vec<u8>>,
}

impl Model for Names {
    ghost use Rattle.std.specs.Prelude.{List, ℕ, ◌≤◌, length, map};

    ghost Value = { List (List ℕ) };

    ghost view = { λ n. map (λ k. k.items) n.known.keys };

    ghost invariant = { λ n. length n.known.keys ≤ 65536 };
}

impl Names {
    /// The names of the program's classes, of which the first 65,536 are looked at. No two classes have
    /// one name; nothing else is asked of the program.
    pub fn of(alloc: Global, program: &Program) -> Result<Names, NoMemory>
        requires distinct { IsDistinct bytes_eq (plain_names program.now.classes) }
        ensures { IfOk result (λ names. names ≡ plain_names (take most_classes program.now.classes)) }
    {
        let classes = front_of(program.classes.as_slice(), 65536);
        let known = known_names(alloc, classes)?;
        Ok(Names { known })
    }

    /// The number of the class with this name, or None where no class has it. `System.Object` and
    /// `System.String` are also names of `object` and `string`. No memory is taken.
    pub fn class(&self, name: &[u8]) -> Option<u16>
        ensures { result ≡ place_of self.now (plain_name name.now) }
    {
        match place(&self.known, plain_name(name)) {
            Some(number) => Some(number as u16),
            None => None,
        }
    }
}

// The name, or the short spelling of `object` or `string`.
fn plain_name(name: &[u8]) -> &[u8]
    ensures { result.now ≡ plain_name name.now }
{
    if name == b"System.Object".as_slice() {
        return b"object";
    }
    if name == b"System.String".as_slice() {
        return b"string";
    }
    name
}

// The names of these classes, in order.
fn known_names(alloc: Global, classes: &[ClassDef]) -> Result<IndexSet<Vec<u8>>, NoMemory>
    requires distinct { IsDistinct bytes_eq (plain_names classes.now) }
    ensures { IfOk result (λ known. map (λ k. k.items) known.keys ≡ plain_names classes.now) }
{
    let mut known = IndexSet::new(alloc);
    for class in classes {
        let name = bytes_of(alloc, plain_name(class.name.text().as_bytes()))?;
        add(&mut known, name)?;
    }
    Ok(known)
}

fn bytes_of(alloc: Global, bytes: &[u8]) -> Result<Vec<u8>, NoMemory>
    ensures { IfOk result (λ copy. copy.items ≡ bytes.now) }
{
    match Vec::from_slice(alloc, bytes) {
        Ok(copy) => Ok(copy),
        Err(_) => Err(NoMemory),
    }
}

// Adds a new name at the end.
fn add(known: &mut IndexSet<Vec<u8>>, name: Vec<u8>) -> Result<(), NoMemory>
    requires { list_any (bytes_eq name.items) (map (λ k. k.items) known.old.keys) ≡ false }
    ensures { OnOk result (map (λ k. k.items) known.new.keys ≡ map (λ k. k.items) known.old.keys ++ name.items ∷ []) }
{
    match known.insert(name) {
        Ok(_) => Ok(()),
        Err(_) => Err(NoMemory),
    }
}

// The place of a name.
fn place(known: &IndexSet<Vec<u8>>, name: &[u8]) -> Option<usize>
    ensures place { result ≡ place_of (map (λ k. k.items) known.now.keys) name.now }
    ensures within { IfSome result (λ at. at < length known.now.keys) }
{
    known.get_index_of(name)
}
