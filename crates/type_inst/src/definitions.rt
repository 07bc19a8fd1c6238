// The definition of a type: its class applied to its own variables.
ghost use Rattle.std.specs.Prelude.{◌≡◌, ◌<◌, IfOk, length, map, slice_get};
ghost use Rattle.std.specs.Option.{option_copied};
ghost use Rattle.type_tree.specs.Tree.{class_var};
ghost use Rattle.il_model.specs.LookUp.{numbers_from};
ghost use Rattle.il_model.specs.Bases.{own_of, definition_of};
ghost use Rattle.il_model.specs.ClassRules.{HasTypes};

use il_model::{ClassDef, Program};
use mn_outside::NoMemory;
use sqlite_items::Items;
use std::alloc::Global;
use type_tree::{Head, TExpr, TNode};

// The definition of a type; a type that names no class is its own.
pub(crate) fn definition_of(
    alloc: Global,
    program: &Program,
    kind: &TExpr,
) -> Result<TExpr, NoMemory>
    requires { HasTypes program.now }
    ensures { IfOk result (λ definition. definition ≡ definition_of program.now kind.now) }
{
    match kind.top() {
        TNode::Node(Head::Class(number), _) => own_of(alloc, program, *number),
        TNode::Node(Head::Int32 | Head::Int64 | Head::Bool | Head::Vector, _) => kind.copy(alloc),
        TNode::ClassVar(_) | TNode::MethodVar(_) => kind.copy(alloc),
    }
}

// The class with this number, applied to its own variables.
fn own_of(alloc: Global, program: &Program, number: u16) -> Result<TExpr, NoMemory>
    requires { HasTypes program.now }
    ensures { IfOk result (λ own. own ≡ own_of program.now number) }
{
    match class_at(program, number) {
        Some(class) => {
            let vars = variables(alloc, class)?;
            Ok(TExpr::node(Head::Class(number), vars))
        }
        None => Ok(TExpr::plain(alloc, Head::Class(number))),
    }
}

// The class with this number.
fn class_at(program: &Program, number: u16) -> Option<&ClassDef>
    ensures { option_copied result ≡ slice_get program.now.classes number }
{
    program.classes.as_slice().get(number as usize)
}

// The variables of a class as types, by their numbers.
fn variables(alloc: Global, class: &ClassDef) -> Result<Items<TExpr>, NoMemory>
    requires { length class.now.vars < 256 }
    ensures { IfOk result (λ all. all ≡ map class_var (numbers_from 0 class.now.vars)) }
{
    let mut all = Items::new(alloc);
    for i in 0..class.vars.len() {
        all.push(TExpr::class_var(i as u8)).map_err(|_| NoMemory)?;
    }
    Ok(all)
}
