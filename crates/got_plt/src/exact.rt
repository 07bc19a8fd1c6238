// Exact keys, and the types that they give.
ghost use Rattle.std.specs.Prelude.{◌≡◌, ◌++◌, IfOk, OnOk, length, take, drop};
ghost use Rattle.std.specs.Option.{option_copied};
ghost use Rattle.il_model.specs.Found.{method_at};
ghost use Rattle.rgctx_template.specs.BodyRows.{exact_type, exact_types, vars_of_owner};
ghost use Rattle.got_plt.specs.Closed.{is_exact_key};

use il_model::{KeyPart, MethodDef, Program};
use mn_outside::NoMemory;
use sqlite_items::Items;
use std::alloc::Global;
use type_tree::Tree;

/// Whether a key serves one instantiation alone. No memory is taken.
pub(crate) fn is_exact_key(parts: &[KeyPart]) -> bool
    ensures { result ≡ is_exact_key parts.now }
{
    parts.iter().all(|part| matches!(part, KeyPart::Exact(_)))
}

// Puts the type of a part at the end, if it is exact.
fn push_exact(alloc: Global, types: &mut Items<Tree>, part: &KeyPart) -> Result<(), NoMemory>
    ensures { OnOk result (types.new ≡ types.old ++ exact_type part.now) }
{
    let KeyPart::Exact(tree) = part else {
        return Ok(());
    };
    let tree = tree.copy(alloc)?;
    match types.push(tree) {
        Ok(()) => Ok(()),
        Err(_) => Err(NoMemory),
    }
}

/// The types of the exact parts, in order.
pub(crate) fn exact_types(alloc: Global, parts: &[KeyPart]) -> Result<Items<Tree>, NoMemory>
    ensures { IfOk result (λ types. types ≡ exact_types parts.now) }
{
    let mut types = Items::new(alloc);
    for part in parts {
        push_exact(alloc, &mut types, part)?;
    }
    Ok(types)
}

/// The method with this number, if there is one. No memory is taken.
pub(crate) fn method_at(program: &Program, number: u16) -> Option<&MethodDef>
    ensures { option_copied result ≡ method_at program.now number }
{
    program.methods.as_slice().get(number as usize)
}

/// How many variables the class of a method has. No memory is taken.
pub(crate) fn count_of_owner(program: &Program, method: &MethodDef) -> usize
    ensures { result ≡ length (vars_of_owner program.now method.now) }
{
    match program.classes.as_slice().get(method.owner as usize) {
        Some(class) => class.vars.as_slice().len(),
        None => 0,
    }
}

/// The first so many types, and the others.
pub(crate) fn split(types: &[Tree], count: usize) -> (&[Tree], &[Tree])
    ensures first { result.0.now ≡ take count types.now }
    ensures rest { result.1.now ≡ drop count types.now }
{
    if count < types.len() {
        return (&types[..count], &types[count..]);
    }
    let none: &[Tree] = &[];
    (types, none)
}
