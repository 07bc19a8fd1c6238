// One step from a type to another of its closure.
ghost use Rattle.std.specs.Prelude.{◌≡◌, [], ◌∷◌, ◌++◌, IfOk, OnOk, filter, map, option_to_list};
ghost use Rattle.std.specs.Option.{option_copied};
ghost use Rattle.il_model.specs.Find.{class_of};
ghost use Rattle.il_model.specs.Interfaces.{interfaces_in, own_interfaces_of};
ghost use Rattle.il_model.specs.Bases.{with_args_of, base_of};
ghost use Rattle.il_model.specs.Kinds.{is_struct_kind, is_struct_class, is_value};
ghost use Rattle.il_model.specs.Layouts.{fields_in, kinds_at};
ghost use Rattle.il_model.specs.Admission.{has_count_in, has_count, value_fields_of, steps_of};

use crate::classes::{base_of, with_args_of};
use il_model::{ClassDef, ClassKind, FieldDef, Program, class_of};
use mn_outside::NoMemory;
use sqlite_items::Items;
use std::alloc::Global;
use type_tree::{Head, TExpr, TNode};

/// The types one step from a type of its closure: its base, the interfaces that its class names, and its
/// fields of value types, static ones too, with the arguments put. Those with a wrong number of arguments
/// are passed over.
pub fn steps_of(alloc: Global, program: &Program, kind: &TExpr) -> Result<Items<TExpr>, NoMemory>
    ensures { IfOk result (λ steps. steps ≡ steps_of program.now kind.now) }
{
    let mut all = base_list(alloc, program, kind)?;
    let mut rest = own_interfaces_of(alloc, program, kind)?;
    rest.append(value_fields_of(alloc, program, kind)?)
        .map_err(|_| NoMemory)?;
    all.append(rest).map_err(|_| NoMemory)?;
    counted(alloc, program, all.as_slice())
}

// The base of a type, if it has one.
fn base_list(alloc: Global, program: &Program, kind: &TExpr) -> Result<Items<TExpr>, NoMemory>
    ensures { IfOk result (λ all. all ≡ option_to_list (base_of program.now kind.now)) }
{
    let mut all: Items<TExpr> = Items::new(alloc);
    match base_of(alloc, program, kind)? {
        Some(base) => {
            all.push(base).map_err(|_| NoMemory)?;
            Ok(all)
        }
        None => Ok(all),
    }
}

// The interfaces that the class of a type names.
fn own_interfaces_of(
    alloc: Global,
    program: &Program,
    kind: &TExpr,
) -> Result<Items<TExpr>, NoMemory>
    ensures { IfOk result (λ all. all ≡ own_interfaces_of program.now kind.now) }
{
    match class_of(program, kind) {
        Some(class) => with_args(alloc, kind, class.interfaces.as_slice()),
        None => Ok(Items::new(alloc)),
    }
}

// Puts a type at the end of a list.
pub(crate) fn put(all: &mut Items<TExpr>, kind: TExpr) -> Result<(), NoMemory>
    ensures { OnOk result (all.new ≡ all.old ++ kind ∷ []) }
{
    all.push(kind).map_err(|_| NoMemory)
}

// The types with the arguments of this type put for the class's variables.
fn with_args(alloc: Global, kind: &TExpr, parts: &[TExpr]) -> Result<Items<TExpr>, NoMemory>
    ensures { IfOk result (λ all. all ≡ map (with_args_of kind.now) parts.now) }
{
    let mut all: Items<TExpr> = Items::new(alloc);
    for part in parts {
        put(&mut all, with_args_of(alloc, kind, part)?)?;
    }
    Ok(all)
}

// The types of fields, static ones too, that are value types.
fn value_fields_of(alloc: Global, program: &Program, kind: &TExpr) -> Result<Items<TExpr>, NoMemory>
    ensures { IfOk result (λ all. all ≡ value_fields_of program.now kind.now) }
{
    match class_of(program, kind) {
        Some(class) => {
            let kinds = kinds_at(alloc, kind, class.fields.as_slice())?;
            values(alloc, program, kinds.as_slice())
        }
        None => Ok(Items::new(alloc)),
    }
}

// The types of the fields, with the arguments of this type.
pub(crate) fn kinds_at(
    alloc: Global,
    kind: &TExpr,
    fields: &[FieldDef],
) -> Result<Items<TExpr>, NoMemory>
    ensures { IfOk result (λ all. all ≡ kinds_at kind.now fields.now) }
{
    let mut all: Items<TExpr> = Items::new(alloc);
    for field in fields {
        put(&mut all, with_args_of(alloc, kind, &field.kind)?)?;
    }
    Ok(all)
}

// Those that are value types.
pub(crate) fn values(
    alloc: Global,
    program: &Program,
    kinds: &[TExpr],
) -> Result<Items<TExpr>, NoMemory>
    ensures { IfOk result (λ all. all ≡ filter (is_value program.now) kinds.now) }
{
    let mut all: Items<TExpr> = Items::new(alloc);
    for each in kinds {
        if is_value(program, each) {
            all.push(each.copy(alloc)?).map_err(|_| NoMemory)?;
        }
    }
    Ok(all)
}

// Those that have as many arguments as their heads want.
fn counted(alloc: Global, program: &Program, kinds: &[TExpr]) -> Result<Items<TExpr>, NoMemory>
    ensures { IfOk result (λ all. all ≡ filter (has_count program.now) kinds.now) }
{
    let mut all: Items<TExpr> = Items::new(alloc);
    for each in kinds {
        if has_count(program, each) {
            all.push(each.copy(alloc)?).map_err(|_| NoMemory)?;
        }
    }
    Ok(all)
}

/// Whether a type has as many arguments as its head wants, its class being one of the program.
pub fn has_count(program: &Program, kind: &TExpr) -> bool
    ensures { result ≡ has_count program.now kind.now }
{
    match kind.top() {
        TNode::Node(Head::Vector, parts) => parts.len() == 1,
        TNode::Node(Head::Class(number), parts) => {
            has_count_in(
                program.classes.as_slice().get(*number as usize),
                parts.as_slice(),
            )
        }
        TNode::Node(Head::Int32 | Head::Int64 | Head::Bool, parts) => parts.len() == 0,
        TNode::ClassVar(_) | TNode::MethodVar(_) => true,
    }
}

fn has_count_in(class: Option<&ClassDef>, parts: &[TExpr]) -> bool
    ensures { result ≡ has_count_in (option_copied class.entry) parts.now }
{
    match class {
        Some(class) => parts.len() == class.vars.len(),
        None => false,
    }
}

fn is_struct_kind(kind: ClassKind) -> bool
    ensures { result ≡ is_struct_kind kind }
{
    match kind {
        ClassKind::Struct => true,
        ClassKind::Plain | ClassKind::Abstract | ClassKind::Interface | ClassKind::Delegate =>
            false,
    }
}

/// Whether the class of a type is a struct.
pub fn is_struct(program: &Program, kind: &TExpr) -> bool
    ensures { result ≡ is_struct_class (class_of program.now kind.now) }
{
    match class_of(program, kind) {
        Some(class) => is_struct_kind(class.kind),
        None => false,
    }
}

/// Whether a type is a value type: a scalar or a struct. A variable is none.
pub fn is_value(program: &Program, kind: &TExpr) -> bool
    ensures { result ≡ is_value program.now kind.now }
{
    match kind.top() {
        TNode::Node(Head::Int32 | Head::Int64 | Head::Bool, _) => true,
        TNode::Node(Head::Class(_), _) => is_struct(program, kind),
        TNode::Node(Head::Vector, _) => false,
        TNode::ClassVar(_) | TNode::MethodVar(_) => false,
    }
}
