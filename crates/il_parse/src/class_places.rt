// The table of the classes' names.
ghost use Rattle.std.specs.Prelude.{◌≡◌, ◌++◌, ◌∷◌, [], ℕ, List, IfOk, OnOk, length, IfErr};
ghost use Rattle.il_model.specs.Spellings.{plain_name};
ghost use Rattle.il_parse.specs.declared.fault.ReadError.TheVariants as error;
ghost use Rattle.il_parse.specs.Scopes.{FindsPlaces, FindsClasses, library_names};

use crate::calls::plain_name;
use crate::fault::ReadError;
use il_model::WrittenClass;
use indexmap::IndexMap;
use std::alloc::Global;

/// The names of the library's classes, in order of their numbers.
#[rattlefmt::skip]
pub(crate) const LIBRARY_NAMES: [&[u8]; 13] = [
    b"object", b"string",
    b"System.Exception", b"System.SystemException", b"System.ArithmeticException",
    b"System.DivideByZeroException", b"System.OverflowException", b"System.NullReferenceException",
    b"System.IndexOutOfRangeException", b"System.InvalidCastException",
    b"System.ArrayTypeMismatchException", b"Rt.IRun", b"Rt.Threads",
];

// Adds the name of the class with this number, unless a class before it has the name.
fn add_name(
    alloc: Global,
    places: &mut IndexMap<Vec<u8>, usize>,
    name: &[u8],
    number: usize,
) -> Result<(), ReadError>
    ensures ok { OnOk result ((names : List (List ℕ)) → length names ≡ number → FindsPlaces (λ k. k.items) places.old names → FindsPlaces (λ k. k.items) places.new (names ++ plain_name name.now ∷ [])) }
    ensures memory { IfErr result (λ e. e ≡ error.Memory) }
{
    let name = plain_name(name);
    if places.contains_key(name) {
        return Ok(());
    }
    let key = Vec::from_slice(alloc, name)?;
    places.insert(key, number)?;
    Ok(())
}

// The table of the library's classes.
fn library_places(alloc: Global) -> Result<IndexMap<Vec<u8>, usize>, ReadError>
    ensures ok { IfOk result (λ places. FindsPlaces (λ k. k.items) places library_names) }
    ensures memory { IfErr result (λ e. e ≡ error.Memory) }
{
    let mut places = IndexMap::new(alloc);
    for i in 0..LIBRARY_NAMES.len() {
        add_name(alloc, &mut places, LIBRARY_NAMES[i], i)?;
    }
    Ok(places)
}

/// The number of each class by its name, for the library's classes and then those of the text. Of several
/// classes with one name the first has it.
pub(crate) fn class_places(
    alloc: Global,
    classes: &[WrittenClass],
) -> Result<IndexMap<Vec<u8>, usize>, ReadError>
    ensures ok { IfOk result (λ places. FindsClasses (λ k. k.items) places classes.now) }
    ensures memory { IfErr result (λ e. e ≡ error.Memory) }
{
    let mut places = library_places(alloc)?;
    for i in 0..classes.len() {
        let name = classes[i].name.name.text().as_bytes();
        add_name(alloc, &mut places, name, LIBRARY_NAMES.len() + i)?;
    }
    Ok(places)
}
