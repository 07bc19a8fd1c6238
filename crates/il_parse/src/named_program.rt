// The program that written classes stand for.
ghost use Rattle.std.specs.Prelude.{◌≡◌, ◌+◌, ◌++◌, length, IfOk, IfErr};
ghost use Rattle.il_model.specs.Bounds.{all_methods, methods_of};
ghost use Rattle.il_model.specs.Library.{library_classes, library_methods};
ghost use Rattle.il_model.specs.LookUp.{entries_from, known_of};
ghost use Rattle.il_parse.specs.declared.fault.ReadError.TheVariants as error;
ghost use Rattle.il_parse.specs.Looking.{Looks};
ghost use Rattle.il_parse.specs.NamedClasses as spec;
ghost use Rattle.il_parse.specs.EntryPoints.{entry_from};

use crate::class_places::class_places;
use crate::fault::{Fault, ParseCause, ReadError};
use crate::found::Gathered;
use crate::gathering::has_entry_point;
use crate::library::{library_classes, library_methods};
use crate::literal_table::{Literals, literals_of};
use crate::named_classes::{LIBRARY_METHODS, classes_named, number_of};
use crate::scope::Known;
use il_model::{Program, WrittenClass, WrittenMember};
use std::alloc::{AllocError, Global};

// How many of these members are methods.
fn count_methods(members: &[WrittenMember]) -> usize
    ensures { result ≡ length (methods_of members.now) }
{
    let mut count = 0usize;
    for member in members {
        match member {
            WrittenMember::Field(_) => {}
            WrittenMember::Method(_) => count += 1,
        }
    }
    count
}

// The first of these members' methods with an entry point, counted from 0.
fn entry_place(members: &[WrittenMember]) -> Option<usize>
    ensures { result ≡ entry_from 0 (methods_of members.now) }
{
    let mut count = 0usize;
    for member in members {
        match member {
            WrittenMember::Field(_) => {}
            WrittenMember::Method(m) => {
                if has_entry_point(m) {
                    return Some(count);
                }
                count += 1;
            }
        }
    }
    None
}

// The sum. No text has as many methods as such a number counts.
fn sum(first: usize, second: usize) -> Result<usize, AllocError>
    ensures { IfOk result (λ total. total ≡ first + second) }
{
    match first.checked_add(second) {
        Some(total) => Ok(total),
        None => Err(AllocError),
    }
}

// No method has an entry point.
fn no_entry() -> ReadError
    ensures { result ≡ error.Fault (record { at = None; cause = ParseCause.NoEntry }) }
{
    ReadError::Fault(Fault {
        at: None,
        cause: ParseCause::NoEntry,
    })
}

// The number of the first method with an entry point.
fn first_entry(classes: &[WrittenClass]) -> Result<u16, ReadError>
    ensures { Looks (spec.first_entry (entries_from 12 (all_methods classes.now))) result }
{
    let mut before = LIBRARY_METHODS;
    for class in classes {
        let members = class.members.as_slice();
        if let Some(place) = entry_place(members) {
            let number = number_of(sum(before, place)?)?;
            return Ok(number);
        }
        before = sum(before, count_methods(members))?;
    }
    Err(no_entry())
}

// The classes of a text that has these literals.
fn classes_found(
    alloc: Global,
    classes: &[WrittenClass],
    literals: &Literals,
) -> Result<Gathered, ReadError>
    requires { literals.now ≡ (known_of classes.now).literals }
    ensures { Looks (spec.classes_named (known_of classes.now) spec.gathered_first classes.now) result }
{
    let places = class_places(alloc, classes)?;
    let known = Known::new(classes, &places, literals);
    classes_named(alloc, &known, classes)
}

// The program of these classes and those of the library.
fn with_library(
    alloc: Global,
    gathered: Gathered,
    literals: Literals,
    main: u16,
) -> Result<Program, ReadError>
    ensures ok { IfOk result (λ p. p ≡ record { classes = library_classes ++ gathered.classes; methods = library_methods ++ gathered.methods; literals = literals; main = main }) }
    ensures memory { IfErr result (λ e. e ≡ error.Memory) }
{
    let mut classes = library_classes(alloc)?;
    classes.append(gathered.classes)?;
    let mut methods = library_methods(alloc)?;
    methods.append(gathered.methods)?;
    let literals = literals.into_items(alloc)?;
    Ok(Program {
        classes,
        methods,
        literals,
        main,
    })
}

/// The program that the written classes of a text stand for, or the first name that is refused.
#[tactic(auto, unfolding(crate::specs::NamedClasses::program_named))]
pub(crate) fn program_named(alloc: Global, classes: &[WrittenClass]) -> Result<Program, ReadError>
    ensures { Looks (spec.program_named classes.now) result }
{
    let literals = literals_of(alloc, classes)?;
    let gathered = classes_found(alloc, classes, &literals)?;
    let main = first_entry(classes)?;
    let program = with_library(alloc, gathered, literals, main)?;
    Ok(program)
}
