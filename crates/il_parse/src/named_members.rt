// What members as instructions name them stand for.
ghost use Rattle.il_parse.specs.Looking.{Looks};
ghost use Rattle.il_parse.specs.NamedTypes as spec;

use crate::fault::ReadError;
use crate::named_params::{copied, params_named};
use crate::named_types::{result_named, type_named, types_named};
use crate::scope::Scope;
use il_model::{FRef, MRef, WrittenFieldRef, WrittenMethodRef};
use std::alloc::Global;

/// A method as an instruction names it: its result and its parameters among the variables of its class.
#[tactic(auto, unfolding(crate::specs::NamedTypes::method_ref_named))]
pub(crate) fn method_ref_named(
    alloc: Global,
    scope: &Scope<'_>,
    written: &WrittenMethodRef,
) -> Result<MRef, ReadError>
    ensures { Looks (spec.method_ref_named scope.now written.now) result }
{
    let of_member = scope.of_member(&written.class, written.args.len());
    let result = result_named(alloc, &of_member, &written.result)?;
    let class = type_named(alloc, scope, &written.class)?;
    let args = types_named(alloc, scope, written.args.as_slice())?;
    let params = params_named(alloc, &of_member, written.params.as_slice())?;
    let name = copied(alloc, &written.name)?;
    Ok(MRef {
        instance: written.instance,
        result,
        class,
        name,
        args,
        params,
    })
}

/// A field as an instruction names it: its type among the variables of its class.
#[tactic(auto, unfolding(crate::specs::NamedTypes::field_ref_named))]
pub(crate) fn field_ref_named(
    alloc: Global,
    scope: &Scope<'_>,
    written: &WrittenFieldRef,
) -> Result<FRef, ReadError>
    ensures { Looks (spec.field_ref_named scope.now written.now) result }
{
    let of_member = scope.of_member(&written.class, 0);
    let kind = type_named(alloc, &of_member, &written.kind)?;
    let class = type_named(alloc, scope, &written.class)?;
    let name = copied(alloc, &written.name)?;
    Ok(FRef { kind, class, name })
}
