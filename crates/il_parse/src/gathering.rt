// What the members of a class stand for.
ghost use Rattle.std.specs.Prelude.{◌≡◌, []};
ghost use Rattle.il_parse.specs.Looking.{Looks};
ghost use Rattle.il_parse.specs.NamedClasses.{has_entry_point, field_named, members_named};
ghost use Rattle.il_parse.specs.Gathering.{LooksInto, added, member_named};

use crate::fault::ReadError;
use crate::found::Found;
use crate::member_lists::{Fields, Methods};
use crate::named_methods::add_method;
use crate::named_params::copied;
use crate::named_types::type_named;
use crate::scope::{Known, Scope};
use il_model::{FieldDef, WrittenField, WrittenMember, WrittenMethod};
use std::alloc::Global;

// Adds a field behind those of its class.
#[tactic(auto, unfolding(crate::specs::NamedClasses::field_named))]
fn add_field(
    alloc: Global,
    scope: &Scope<'_>,
    fields: &mut Fields,
    f: &WrittenField,
) -> Result<(), ReadError>
    ensures { LooksInto (added fields.old (field_named scope.now fields.old f.now)) result fields.new }
{
    let kind = type_named(alloc, scope, &f.kind)?;
    let name = copied(alloc, &f.name.name)?;
    let field = FieldDef {
        name,
        fixed: f.fixed,
        kind,
    };
    fields.add(f.name.at, field)?;
    Ok(())
}

/// Whether a method has the entry point.
pub(crate) fn has_entry_point(m: &WrittenMethod) -> bool
    ensures { result ≡ has_entry_point m.now }
{
    match &m.body {
        Some(body) => body.entry.is_some(),
        None => false,
    }
}

// Adds a member of the class with this number and so many type variables behind those found.
#[tactic(auto, unfolding(crate::specs::Gathering::member_named))]
fn add_member(
    alloc: Global,
    known: &Known<'_>,
    owner: u16,
    of_class: usize,
    found: &mut Found,
    member: &WrittenMember,
) -> Result<(), ReadError>
    ensures { LooksInto (member_named known.now owner of_class found.old member.now) result found.new }
{
    match member {
        WrittenMember::Field(f) => {
            let scope = known.scope(of_class, 0);
            add_field(alloc, &scope, &mut found.fields, f)?;
            Ok(())
        }
        WrittenMember::Method(m) => {
            let begun = found.begun;
            add_method(alloc, known, owner, of_class, &mut found.methods, begun, m)?;
            found.begun = begun || has_entry_point(m);
            Ok(())
        }
    }
}

/// The members of the class with this number and so many type variables, where an entry point was met in
/// the classes before it or not.
pub(crate) fn members_named(
    alloc: Global,
    known: &Known<'_>,
    owner: u16,
    of_class: usize,
    begun: bool,
    members: &[WrittenMember],
) -> Result<Found, ReadError>
    ensures { Looks (members_named known.now owner of_class (record { fields = []; methods = []; begun = begun }) members.now) result }
{
    let mut found = Found {
        fields: Fields::new(alloc),
        methods: Methods::new(alloc),
        begun,
    };
    for member in members {
        add_member(alloc, known, owner, of_class, &mut found, member)?;
    }
    Ok(found)
}
