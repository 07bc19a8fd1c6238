// What written parameters and type variables stand for.
ghost use Rattle.std.specs.Prelude.{◌≡◌, IfOk};
ghost use Rattle.il_parse.specs.Looking.{Looks};
ghost use Rattle.il_parse.specs.NamedTypes as spec;

use crate::fault::ReadError;
use crate::met::MetNames;
use crate::named_types::{type_named, types_named};
use crate::scope::Scope;
use il_model::{PType, VarDef, WrittenParam, WrittenVar};
use mn_outside::Name;
use sqlite_items::Items;
use std::alloc::{AllocError, Global};

/// A name once more.
pub(crate) fn copied(alloc: Global, name: &Name) -> Result<Name, AllocError>
    ensures { IfOk result (λ copy. copy ≡ name.now) }
{
    Ok(Name::of(String::from_str(alloc, name.text())?))
}

#[tactic(auto, unfolding(crate::specs::NamedTypes::param_named))]
fn param_named(alloc: Global, scope: &Scope<'_>, written: &WrittenParam) -> Result<PType, ReadError>
    ensures { Looks (spec.param_named scope.now written.now) result }
{
    let kind = type_named(alloc, scope, &written.kind)?;
    if written.pointer {
        Ok(PType::Pointer(kind))
    } else {
        Ok(PType::Value(kind))
    }
}

/// The types of parameters or locals, in order.
pub(crate) fn params_named(
    alloc: Global,
    scope: &Scope<'_>,
    written: &[WrittenParam],
) -> Result<Items<PType>, ReadError>
    ensures { Looks (spec.params_named scope.now written.now) result }
{
    let mut found = Items::new(alloc);
    for each in written {
        found.push(param_named(alloc, scope, each)?)?;
    }
    Ok(found)
}

/// Type variables with their bounds, in order; their names differ.
pub(crate) fn vars_named(
    alloc: Global,
    scope: &Scope<'_>,
    written: &[WrittenVar],
) -> Result<Items<VarDef>, ReadError>
    ensures { Looks (spec.vars_named scope.now written.now) result }
{
    let mut met = MetNames::new(alloc);
    let mut found = Items::new(alloc);
    for each in written {
        met.meet(alloc, &each.name)?;
        let bounds = types_named(alloc, scope, each.bounds.as_slice())?;
        let name = copied(alloc, &each.name.name)?;
        found.push(VarDef { name, bounds })?;
    }
    Ok(found)
}
