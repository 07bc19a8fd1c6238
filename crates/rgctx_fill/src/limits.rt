// The limit that a type or an instantiated method passes.
ghost use Rattle.std.specs.Prelude.{◌≡◌, ◌++◌, ◌∷◌, [], IfOk, OnOk, map, flat_map, nat_lt, option_to_list};
ghost use Rattle.il_model.specs.Found.{method_at};
ghost use Rattle.il_model.specs.Admission.{most_positions, limit_of};
ghost use Rattle.il_model.specs.Methods.{worse, worst, types_of_places, types_of_method, method_positions, limit_of_method};
ghost use Rattle.rgctx_fill.specs.Limits.{seen_at};

use il_model::{Limit, MethodDef, MethodTree, PType, Program};
use mn_outside::{NoMemory, Refused};
use sqlite_items::Items;
use std::alloc::Global;
use type_inst::{admitted, arguments_of};
use type_tree::{TExpr, Tree, positions, subst_whole};

// The limit that a type passes, if it does.
pub(crate) fn type_limit(
    alloc: Global,
    program: &Program,
    kind: &Tree,
) -> Result<Option<Limit>, NoMemory>
    ensures { IfOk result (λ limit. limit ≡ limit_of program.now kind.now) }
{
    match admitted(alloc, program, kind) {
        Ok(()) => Ok(None),
        Err(Refused::Fault(limit)) => Ok(Some(limit)),
        Err(Refused::NoMemory) => Err(NoMemory),
    }
}

// The limit that an instantiated method passes, if it does.
pub(crate) fn method_limit(
    alloc: Global,
    program: &Program,
    method: &MethodTree,
) -> Result<Option<Limit>, NoMemory>
    ensures { IfOk result (λ limit. limit ≡ limit_of_method program.now method.now) }
{
    if is_large(method) {
        return Ok(Some(Limit::Positions));
    }
    let class = type_limit(alloc, program, &method.class)?;
    let args = worst_limit(alloc, program, method.args.as_slice())?;
    let kinds = kinds_named(alloc, program, method)?;
    let rest = worst_limit(alloc, program, kinds.as_slice())?;
    Ok(worse(class, worse(args, rest)))
}

// Whether a method has too many positions with its class and its arguments, itself being one.
fn is_large(method: &MethodTree) -> bool
    ensures { result ≡ nat_lt most_positions (method_positions method.now.class method.now.args) }
{
    let class = positions(&method.class);
    if class >= 256 {
        return true;
    }
    let mut count = 1 + class;
    for arg in method.args.as_slice() {
        let more = positions(arg);
        if more > 256 - count {
            return true;
        }
        count += more;
    }
    false
}

// Of the limits of these types the one that counts.
fn worst_limit(alloc: Global, program: &Program, kinds: &[Tree]) -> Result<Option<Limit>, NoMemory>
    ensures { IfOk result (λ limit. limit ≡ worst (map (limit_of program.now) kinds.now)) }
{
    let mut limit = None;
    for kind in kinds {
        let more = type_limit(alloc, program, kind)?;
        limit = worse(limit, more);
    }
    Ok(limit)
}

fn worse(first: Option<Limit>, second: Option<Limit>) -> Option<Limit>
    ensures { result ≡ worse first second }
{
    match first {
        Some(Limit::Positions) => Some(Limit::Positions),
        Some(Limit::ValueWords) => match second {
            Some(Limit::Positions) => Some(Limit::Positions),
            Some(Limit::ValueWords) | None => Some(Limit::ValueWords),
        },
        None => second,
    }
}

// The types of the signature and the locals of an instantiated method.
fn kinds_named(
    alloc: Global,
    program: &Program,
    method: &MethodTree,
) -> Result<Items<Tree>, NoMemory>
    ensures { IfOk result (λ kinds. kinds ≡ map (seen_at method.now) (flat_map types_of_method (option_to_list (method_at program.now method.now.method)))) }
{
    match program.methods.as_slice().get(method.method as usize) {
        Some(definition) => kinds_of(alloc, method, definition),
        None => Ok(Items::new(alloc)),
    }
}

// The types of a definition's signature and locals, as an instantiated method sees them.
fn kinds_of(
    alloc: Global,
    method: &MethodTree,
    definition: &MethodDef,
) -> Result<Items<Tree>, NoMemory>
    ensures { IfOk result (λ kinds. kinds ≡ map (seen_at method.now) (types_of_method definition.now)) }
{
    let mut kinds = Items::new(alloc);
    add_kinds(alloc, &mut kinds, method, definition)?;
    Ok(kinds)
}

// Adds these types.
fn add_kinds(
    alloc: Global,
    kinds: &mut Items<Tree>,
    method: &MethodTree,
    definition: &MethodDef,
) -> Result<(), NoMemory>
    ensures { OnOk result (kinds.new ≡ kinds.old ++ map (seen_at method.now) (types_of_method definition.now)) }
{
    add_places(alloc, kinds, method, definition.params.as_slice())?;
    if let Some(result) = &definition.result {
        add_kind(alloc, kinds, method, result)?;
    }
    if let Some(body) = &definition.body {
        add_places(alloc, kinds, method, body.locals.as_slice())?;
    }
    Ok(())
}

fn add_places(
    alloc: Global,
    kinds: &mut Items<Tree>,
    method: &MethodTree,
    places: &[PType],
) -> Result<(), NoMemory>
    ensures { OnOk result (kinds.new ≡ kinds.old ++ map (seen_at method.now) (types_of_places places.now)) }
{
    for place in places {
        match place {
            PType::Value(kind) | PType::Pointer(kind) => add_kind(alloc, kinds, method, kind)?,
            PType::Native => {}
        }
    }
    Ok(())
}

// Adds a type as an instantiated method sees it.
fn add_kind(
    alloc: Global,
    kinds: &mut Items<Tree>,
    method: &MethodTree,
    kind: &TExpr,
) -> Result<(), NoMemory>
    ensures { OnOk result (kinds.new ≡ kinds.old ++ seen_at method.now kind.now ∷ []) }
{
    let seen = subst_whole(
        alloc,
        kind,
        arguments_of(&method.class),
        method.args.as_slice(),
    )?;
    put(kinds, seen)
}

fn put(kinds: &mut Items<Tree>, kind: Tree) -> Result<(), NoMemory>
    ensures { OnOk result (kinds.new ≡ kinds.old ++ kind ∷ []) }
{
    kinds.push(kind).map_err(|_| NoMemory)
}
