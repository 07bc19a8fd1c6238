// The classes and the methods of a program by their names.
ghost use Rattle.std.specs.Prelude.{◌≡◌, ◌<◌, ◌≤◌, ◌++◌, ◌∷◌, [], ℕ, List, IfOk, OnOk, length, map, count_by, string_bytes, unwrap_or, bytes_eq};
ghost use Rattle.std.specs.HashMap.{get_by};
ghost use Rattle.std.specs.Fmt.{decimal};
ghost use Rattle.il_model.specs.declared.method.MethodDef.{MethodDef};
ghost use Rattle.il_model.specs.Spellings.{plain_name};
ghost use Rattle.il_model.specs.Names.{plain_names};
ghost use Rattle.aot_image.specs.ChoosingMethods.{short_text, full_text, short_text_of, full_text_behind, owner_name, full_texts, method_with};
ghost use Rattle.aot_image.specs.ChoosingTypes.{class_named};
ghost use Rattle.aot_image.specs.ChoosingNames.{FindsPlaces, Counts, AreTablesOf};

use il_model::{ClassDef, MethodDef, Program};
use indexmap::IndexMap;
use mn_outside::NoMemory;
use std::alloc::Global;

/// The first place of each name.
pub(crate) type Places = IndexMap<Vec<u8>, usize>;

/// The numbers of the classes by their names, and those of the methods by their texts.
#[derive(Drop)]
pub(crate) struct Tables {
    pub(crate) classes: Places,
    pub(crate) methods: Places,
}

/// The tables of a program. Of several classes or methods with one text the first has it.
pub(crate) fn tables_of(alloc: Global, program: &Program) -> Result<Tables, NoMemory>
    requires classes { length program.now.classes ≤ 65536 }
    requires methods { length program.now.methods ≤ 65536 }
    ensures { IfOk result (λ tables. AreTablesOf program.now tables) }
{
    let classes = class_places(alloc, program.classes.as_slice())?;
    let methods = method_places(alloc, program)?;
    Ok(Tables { classes, methods })
}

/// A place as the number of a class or a method.
pub(crate) fn number_of(place: usize) -> u16
    requires { place < 65536 }
    ensures { result ≡ place }
{
    match u16::try_from(place) {
        Ok(number) => number,
        Err(_) => unreachable!(),
    }
}

/// The number of the class with this name. `System.Object` and `System.String` are also names of `object`
/// and `string`. No memory is taken.
pub(crate) fn class_named(program: &Program, tables: &Tables, name: &[u8]) -> Option<u16>
    requires { AreTablesOf program.now tables.now }
    ensures { result ≡ class_named program.now name.now }
{
    match tables.classes.get(plain_name(name)) {
        Some(number) => Some(number_of(*number)),
        None => None,
    }
}

/// The number of the method with this text. No memory is taken.
pub(crate) fn method_with(program: &Program, tables: &Tables, text: &[u8]) -> Option<u16>
    requires { AreTablesOf program.now tables.now }
    ensures { result ≡ method_with program.now text.now }
{
    match tables.methods.get(text) {
        Some(number) => Some(number_of(*number)),
        None => None,
    }
}

/// The name, or the short spelling of `object` or `string`.
pub(crate) fn plain_name(name: &[u8]) -> &[u8]
    ensures { result.now ≡ plain_name name.now }
{
    if name == b"System.Object".as_slice() {
        return b"object";
    }
    if name == b"System.String".as_slice() {
        return b"string";
    }
    name
}

// Adds the name with this number at the end, unless it is there.
fn add_name(places: &mut Places, name: Vec<u8>, number: usize) -> Result<(), NoMemory>
    ensures { OnOk result ((names : List (List ℕ)) → length names ≡ number → FindsPlaces (λ k. k.items) places.old names → FindsPlaces (λ k. k.items) places.new (names ++ name.items ∷ [])) }
{
    if places.contains_key(name.as_slice()) {
        return Ok(());
    }
    match places.insert(name, number) {
        Ok(_) => Ok(()),
        Err(_) => Err(NoMemory),
    }
}

fn bytes_of(alloc: Global, bytes: &[u8]) -> Result<Vec<u8>, NoMemory>
    ensures { IfOk result (λ copy. copy.items ≡ bytes.now) }
{
    match Vec::from_slice(alloc, bytes) {
        Ok(copy) => Ok(copy),
        Err(_) => Err(NoMemory),
    }
}

fn class_places(alloc: Global, classes: &[ClassDef]) -> Result<Places, NoMemory>
    ensures { IfOk result (λ places. FindsPlaces (λ k. k.items) places (plain_names classes.now)) }
{
    let mut places = IndexMap::new(alloc);
    for i in 0..classes.len() {
        let name = bytes_of(alloc, plain_name(classes[i].name.text().as_bytes()))?;
        add_name(&mut places, name, i)?;
    }
    Ok(places)
}

/// Puts bytes at the end.
pub(crate) fn put_bytes(text: &mut Vec<u8>, bytes: &[u8]) -> Result<(), NoMemory>
    ensures { OnOk result (text.new.items ≡ text.old.items ++ bytes.now) }
{
    text.extend_from_slice(bytes).map_err(|_| NoMemory)
}

/// The class and the name of a method.
pub(crate) fn short_text(alloc: Global, class: &[u8], name: &[u8]) -> Result<Vec<u8>, NoMemory>
    ensures { IfOk result (λ text. text.items ≡ short_text class.now name.now) }
{
    let mut text = bytes_of(alloc, plain_name(class))?;
    put_bytes(&mut text, b"::")?;
    put_bytes(&mut text, name)?;
    Ok(text)
}

/// The text of a method: its class and its name, and its place among those of this class and name.
pub(crate) fn full_text(
    alloc: Global,
    class: &[u8],
    name: &[u8],
    place: &[u8],
) -> Result<Vec<u8>, NoMemory>
    ensures { IfOk result (λ text. text.items ≡ full_text class.now name.now place.now) }
{
    let mut text = short_text(alloc, class, name)?;
    put_bytes(&mut text, b"/")?;
    put_bytes(&mut text, place)?;
    Ok(text)
}

fn owner_name<'a>(program: &'a Program, method: &MethodDef) -> &'a [u8]
    ensures { result.now ≡ owner_name program.now method.now }
{
    match program.classes.as_slice().get(method.owner as usize) {
        Some(class) => class.name.text().as_bytes(),
        None => &[],
    }
}

// How often the text was there.
fn count_of(counts: &Places, text: &Vec<u8>) -> usize
    ensures { result ≡ unwrap_or (get_by (λ other. bytes_eq text.now.items other.items) counts.now) 0 }
{
    match counts.get(text) {
        Some(count) => *count,
        None => 0,
    }
}

// How often the text was there, which is counted once more. No count passes what a number holds.
fn count_more(counts: &mut Places, text: Vec<u8>) -> Result<usize, NoMemory>
    ensures counts { OnOk result ((texts : List (List ℕ)) → Counts (λ k. k.items) counts.old texts → Counts (λ k. k.items) counts.new (texts ++ text.items ∷ [])) }
    ensures before { IfOk result (λ before. (texts : List (List ℕ)) → Counts (λ k. k.items) counts.old texts → before ≡ count_by (bytes_eq text.items) texts) }
{
    let before = count_of(counts, &text);
    if before == usize::MAX {
        return Err(NoMemory);
    }
    match counts.insert(text, before + 1) {
        Ok(_) => Ok(before),
        Err(_) => Err(NoMemory),
    }
}

// The text of the method with this number, which is counted.
fn next_text(
    alloc: Global,
    program: &Program,
    counts: &mut Places,
    method: &MethodDef,
) -> Result<Vec<u8>, NoMemory>
    ensures counts { OnOk result ((before : List MethodDef) → Counts (λ k. k.items) counts.old (map (short_text_of program.now) before) → Counts (λ k. k.items) counts.new (map (short_text_of program.now) (before ++ method.now ∷ []))) }
    ensures text { IfOk result (λ text. (before : List MethodDef) → Counts (λ k. k.items) counts.old (map (short_text_of program.now) before) → text.items ≡ full_text_behind program.now before method.now) }
{
    let class = owner_name(program, method);
    let name = method.name.text().as_bytes();
    let place = count_more(counts, short_text(alloc, class, name)?)?;
    let digits = digits_of(alloc, place)?;
    full_text(alloc, class, name, digits.as_bytes())
}

fn digits_of(alloc: Global, number: usize) -> Result<String, NoMemory>
    ensures { IfOk result (λ digits. string_bytes digits ≡ decimal number) }
{
    format!(in alloc; "{number}").map_err(|_| NoMemory)
}

fn method_places(alloc: Global, program: &Program) -> Result<Places, NoMemory>
    ensures { IfOk result (λ places. FindsPlaces (λ k. k.items) places (full_texts program.now)) }
{
    let mut places = IndexMap::new(alloc);
    let mut counts = IndexMap::new(alloc);
    let methods = program.methods.as_slice();
    for i in 0..methods.len() {
        let text = next_text(alloc, program, &mut counts, &methods[i])?;
        add_name(&mut places, text, i)?;
    }
    Ok(places)
}
