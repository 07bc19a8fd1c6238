// Methods' signatures, with the arguments of the type put for the class's variables.
ghost use Rattle.std.specs.Prelude.{◌≡◌, IfOk, map, bytes_eq, option_map};
ghost use Rattle.std.specs.Cmp.Lexicographic.{pointwise};
ghost use Rattle.il_model.specs.Found.{same_param, same_result};
ghost use Rattle.il_model.specs.Bases.{with_args_of};
ghost use Rattle.il_model.specs.Signatures.{param_at, signature_at, same_signature};

use crate::classes::with_args_of;
use il_model::{MethodDef, PType, same_params, same_result};
use mn_outside::{Name, NoMemory};
use sqlite_items::Items;
use std::alloc::Global;
use type_tree::TExpr;

// Whether a method of the class of one type and one of another's have one name and signature.
pub(crate) fn same_signature(
    alloc: Global,
    kind: &TExpr,
    method: &MethodDef,
    other_kind: &TExpr,
    other: &MethodDef,
) -> Result<bool, NoMemory>
    ensures { IfOk result (λ same. same ≡
        same_signature (signature_at kind.now method.now) (signature_at other_kind.now other.now)) }
{
    if !same_name(&method.name, &other.name) {
        return Ok(false);
    }
    if method.vars.len() != other.vars.len() {
        return Ok(false);
    }
    let other_params = other.params.as_slice();
    if !same_params_at(
        alloc,
        kind,
        method.params.as_slice(),
        other_kind,
        other_params,
    )? {
        return Ok(false);
    }
    same_result_at(alloc, kind, &method.result, other_kind, &other.result)
}

fn same_name(first: &Name, second: &Name) -> bool
    ensures { result ≡ bytes_eq first.now second.now }
{
    first.text() == second.text()
}

fn same_params_at(
    alloc: Global,
    kind: &TExpr,
    params: &[PType],
    other_kind: &TExpr,
    others: &[PType],
) -> Result<bool, NoMemory>
    ensures { IfOk result (λ same. same ≡
        pointwise same_param (map (param_at kind.now) params.now) (map (param_at other_kind.now) others.now)) }
{
    let first = params_at(alloc, kind, params)?;
    let second = params_at(alloc, other_kind, others)?;
    Ok(same_params(first.as_slice(), second.as_slice()))
}

fn same_result_at(
    alloc: Global,
    kind: &TExpr,
    gives: &Option<TExpr>,
    other_kind: &TExpr,
    other: &Option<TExpr>,
) -> Result<bool, NoMemory>
    ensures { IfOk result (λ same. same ≡
        same_result (option_map (with_args_of kind.now) gives.now) (option_map (with_args_of other_kind.now) other.now)) }
{
    let first = result_at(alloc, kind, gives)?;
    let second = result_at(alloc, other_kind, other)?;
    Ok(same_result(&first, &second))
}

fn params_at(alloc: Global, kind: &TExpr, params: &[PType]) -> Result<Items<PType>, NoMemory>
    ensures { IfOk result (λ all. all ≡ map (param_at kind.now) params.now) }
{
    let mut all = Items::new(alloc);
    for param in params {
        all.push(param_at(alloc, kind, param)?)
            .map_err(|_| NoMemory)?;
    }
    Ok(all)
}

fn param_at(alloc: Global, kind: &TExpr, param: &PType) -> Result<PType, NoMemory>
    ensures { IfOk result (λ at. at ≡ param_at kind.now param.now) }
{
    match param {
        PType::Value(part) => Ok(PType::Value(with_args_of(alloc, kind, part)?)),
        PType::Pointer(part) => Ok(PType::Pointer(with_args_of(alloc, kind, part)?)),
        PType::Native => Ok(PType::Native),
    }
}

fn result_at(alloc: Global, kind: &TExpr, gives: &Option<TExpr>) -> Result<Option<TExpr>, NoMemory>
    ensures { IfOk result (λ at. at ≡ option_map (with_args_of kind.now) gives.now) }
{
    match gives {
        Some(part) => Ok(Some(with_args_of(alloc, kind, part)?)),
        None => Ok(None),
    }
}
