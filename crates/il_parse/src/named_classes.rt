// What written classes stand for.
ghost use Rattle.std.specs.Prelude.{◌≡◌, map, IfOk, OnOk, IfErr};
ghost use Rattle.il_model.specs.LookUp.{numbers_from};
ghost use Rattle.il_parse.specs.declared.fault.ReadError.TheVariants as error;
ghost use Rattle.il_parse.specs.Looking.{Looks};
ghost use Rattle.il_parse.specs.Scopes.{names_before};
ghost use Rattle.il_parse.specs.NamedClasses as spec;
ghost use Rattle.il_parse.specs.Gathering.{LooksInto};

use crate::class_places::LIBRARY_NAMES;
use crate::fault::ReadError;
use crate::found::Gathered;
use crate::gathering::members_named;
use crate::met::MetNames;
use crate::named_params::{copied, vars_named};
use crate::named_types::{type_named, types_named};
use crate::scope::{Known, Scope};
use il_model::{ClassDef, ClassKind, MethodDef, WrittenClass, WrittenType};
use sqlite_items::Items;
use std::alloc::{AllocError, Global};
use type_tree::{Head, TExpr};

// So many classes and methods are of the library.
const LIBRARY_CLASSES: usize = 13;

pub(crate) const LIBRARY_METHODS: usize = 12;

// The base where none is written.
fn base_of_kind(alloc: Global, kind: ClassKind) -> Option<TExpr>
    ensures { result ≡ spec.base_of_kind kind }
{
    match kind {
        ClassKind::Plain | ClassKind::Abstract => Some(TExpr::plain(alloc, Head::Class(0))),
        ClassKind::Interface | ClassKind::Struct | ClassKind::Delegate => None,
    }
}

// The base of a class of this kind.
#[tactic(auto, unfolding(crate::specs::NamedClasses::base_named))]
fn base_named(
    alloc: Global,
    scope: &Scope<'_>,
    kind: ClassKind,
    written: &Option<WrittenType>,
) -> Result<Option<TExpr>, ReadError>
    ensures { Looks (spec.base_named scope.now kind written.now) result }
{
    match written {
        Some(written) => {
            let base = type_named(alloc, scope, written)?;
            Ok(Some(base))
        }
        None => Ok(base_of_kind(alloc, kind)),
    }
}

/// A number as a program has it. No text has as many classes or methods as such numbers tell apart.
pub(crate) fn number_of(number: usize) -> Result<u16, AllocError>
    ensures { IfOk result (λ small. small ≡ number) }
{
    match u16::try_from(number) {
        Ok(small) => Ok(small),
        Err(_) => Err(AllocError),
    }
}

// The numbers of these methods from this one on.
fn numbers_of(alloc: Global, first: usize, methods: &[MethodDef]) -> Result<Items<u16>, AllocError>
    ensures { IfOk result (λ numbers. numbers ≡ numbers_from first methods.now) }
{
    let mut numbers = Items::new(alloc);
    let mut next = first;
    for _method in methods {
        let number = number_of(next)?;
        numbers.push(number)?;
        next = usize::from(number) + 1;
    }
    Ok(numbers)
}

// Adds a class behind these.
#[tactic(auto, unfolding(crate::specs::NamedClasses::class_named))]
fn add_class(
    alloc: Global,
    known: &Known<'_>,
    gathered: &mut Gathered,
    c: &WrittenClass,
) -> Result<(), ReadError>
    ensures { LooksInto (spec.class_named known.now gathered.old c.now) result gathered.new }
{
    let of_class = c.vars.len();
    let scope = known.scope(of_class, 0);
    gathered.names.meet_plain(alloc, &c.name)?;
    let vars = vars_named(alloc, &scope, c.vars.as_slice())?;
    let base = base_named(alloc, &scope, c.kind, &c.base)?;
    let interfaces = types_named(alloc, &scope, c.interfaces.as_slice())?;
    let owner = number_of(LIBRARY_CLASSES + gathered.classes.as_slice().len())?;
    let begun = gathered.begun;
    let members = c.members.as_slice();
    let found = members_named(alloc, known, owner, of_class, begun, members)?;
    let name = copied(alloc, &c.name.name)?;
    let methods = found.methods.into_items(alloc)?;
    let first = LIBRARY_METHODS + gathered.methods.as_slice().len();
    let numbers = numbers_of(alloc, first, methods.as_slice())?;
    let fields = found.fields.into_items(alloc)?;
    gathered.classes.push(ClassDef {
        name,
        kind: c.kind,
        vars,
        base,
        interfaces,
        fields,
        methods: numbers,
    })?;
    gathered.methods.append(methods)?;
    gathered.begun = found.begun;
    Ok(())
}

// Adds these names in front of those that were met.
fn add_names(alloc: Global, met: &mut MetNames, names: &[&[u8]]) -> Result<(), ReadError>
    ensures ok { OnOk result (met.new ≡ names_before (map (λ n. n.now) names.now) met.old) }
    ensures memory { IfErr result (λ e. e ≡ error.Memory) }
{
    let mut left = names.len();
    while left > 0 {
        left -= 1;
        met.add(alloc, names[left])?;
    }
    Ok(())
}

// Before the first class of a text there are the names of the library's.
fn gathered_first(alloc: Global) -> Result<Gathered, ReadError>
    ensures ok { IfOk result (λ gathered. gathered ≡ spec.gathered_first) }
    ensures memory { IfErr result (λ e. e ≡ error.Memory) }
{
    let mut names = MetNames::new(alloc);
    add_names(alloc, &mut names, &LIBRARY_NAMES)?;
    Ok(Gathered {
        names,
        classes: Items::new(alloc),
        methods: Items::new(alloc),
        begun: false,
    })
}

/// The classes of a text.
pub(crate) fn classes_named(
    alloc: Global,
    known: &Known<'_>,
    classes: &[WrittenClass],
) -> Result<Gathered, ReadError>
    ensures { Looks (spec.classes_named known.now spec.gathered_first classes.now) result }
{
    let mut gathered = gathered_first(alloc)?;
    for class in classes {
        add_class(alloc, known, &mut gathered, class)?;
    }
    Ok(gathered)
}
