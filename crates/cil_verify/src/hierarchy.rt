// The rule on hierarchies.
ghost use Rattle.std.specs.Prelude.{◌≡◌, ◌<◌, ◌&&◌, not, [], ◌∷◌, ◌++◌, IfOk, OnOk, Some, length, map, slice_get, option_to_list};
ghost use Rattle.std.specs.List.{list_all};
ghost use Rattle.std.specs.Option.{option_copied};
ghost use Rattle.type_tree.specs.Tree.{class_var};
ghost use Rattle.il_model.specs.LookUp.{numbers_from};
ghost use Rattle.il_model.specs.Bases.{own_of_class, own_of};
ghost use Rattle.il_model.specs.Slots.{is_interface};
ghost use Rattle.il_model.specs.Find.{class_of, class_number_of};
ghost use Rattle.il_model.specs.ClassRules.{types_written, has_counts, bounds_written, kinds_written, is_base_class, is_number, may_be_base};
ghost use Rattle.cil_verify.specs.Heights.{AreHeights};
ghost use Rattle.cil_verify.specs.Hierarchies.{fits_head, Judged, ClosureOf};

use crate::bounds::{has_counts, have_counts};
use crate::class_kinds::{is_base_kind, is_delegate_kind, is_interface};
use crate::closing::closures;
use crate::heights::{class_number, meets_no_cycle};
use crate::type_set::TypeSet;
use il_model::{ClassDef, FieldDef, Program, VarDef, class_of};
use mn_outside::NoMemory;
use sqlite_items::Items;
use std::alloc::Global;
use type_tree::{Head, TExpr};

/// The closure of the class with this number, applied to its own variables; None where the rule on
/// hierarchies refuses the class. The heights that are known grow.
pub(crate) fn judged(
    alloc: Global,
    program: &Program,
    heights: &mut [usize],
    number: u16,
    class: &ClassDef,
) -> Result<Option<TypeSet>, NoMemory>
    requires at { slice_get program.now.classes number ≡ Some class.now }
    requires known { AreHeights program.now heights.old }
    ensures known { AreHeights program.now heights.new }
    ensures value { IfOk result (λ found. Judged program.now number class.now found) }
{
    if !fits_head(program, class) {
        return Ok(None);
    }
    if !meets_no_cycle(program, heights, number) {
        return Ok(None);
    }
    closure_of_class(alloc, program, number, class)
}

// The closure of a class, applied to its own variables; None where it has a tree of too many positions, or
// too many different trees.
fn closure_of_class(
    alloc: Global,
    program: &Program,
    number: u16,
    class: &ClassDef,
) -> Result<Option<TypeSet>, NoMemory>
    requires { slice_get program.now.classes number ≡ Some class.now }
    ensures { IfOk result (λ found. ClosureOf program.now (own_of program.now number) found) }
{
    if class.vars.len() > 255 {
        return Ok(None);
    }
    let own = own_of(alloc, number, class)?;
    closure_of(alloc, program, own)
}

// The closure of a type.
fn closure_of(alloc: Global, program: &Program, kind: TExpr) -> Result<Option<TypeSet>, NoMemory>
    ensures { IfOk result (λ found. ClosureOf program.now kind found) }
{
    let mut roots: Items<TExpr> = Items::new(alloc);
    put(&mut roots, kind)?;
    closures(alloc, program, roots.as_slice())
}

fn put(all: &mut Items<TExpr>, kind: TExpr) -> Result<(), NoMemory>
    ensures { OnOk result (all.new ≡ all.old ++ kind ∷ []) }
{
    all.push(kind).map_err(|_| NoMemory)
}

/// A class applied to its own variables.
pub(crate) fn own_of(alloc: Global, number: u16, class: &ClassDef) -> Result<TExpr, NoMemory>
    requires { length class.now.vars < 256 }
    ensures { IfOk result (λ own. own ≡ own_of_class number (Some class.now)) }
{
    let vars = variables(alloc, class.vars.as_slice())?;
    Ok(TExpr::node(Head::Class(number), vars))
}

// These variables as types, by their numbers.
fn variables(alloc: Global, vars: &[VarDef]) -> Result<Items<TExpr>, NoMemory>
    requires { length vars.now < 256 }
    ensures { IfOk result (λ all. all ≡ map class_var (numbers_from 0 vars.now)) }
{
    let mut all = Items::new(alloc);
    for i in 0..vars.len() {
        all.push(TExpr::class_var(i as u8)).map_err(|_| NoMemory)?;
    }
    Ok(all)
}

// Whether the kind and the head of a class are in order.
fn fits_head(program: &Program, class: &ClassDef) -> bool
    ensures { result ≡ fits_head program.now class.now }
{
    !is_delegate_kind(class.kind)
        && (have_counts_written(program, class)
            && (has_good_base(program, class)
                && are_interfaces(program, class.interfaces.as_slice())))
}

// Whether all types that a class writes have the right numbers of arguments.
fn have_counts_written(program: &Program, class: &ClassDef) -> bool
    ensures { result ≡ list_all (has_counts program.now) (types_written class.now) }
{
    if !has_base_counts(program, class) {
        return false;
    }
    if !have_counts(program, class.interfaces.as_slice()) {
        return false;
    }
    if !have_bound_counts(program, class.vars.as_slice()) {
        return false;
    }
    have_field_counts(program, class.fields.as_slice())
}

fn has_base_counts(program: &Program, class: &ClassDef) -> bool
    ensures { result ≡ list_all (has_counts program.now) (option_to_list class.now.base) }
{
    match &class.base {
        Some(base) => has_counts(program, base),
        None => true,
    }
}

fn have_bound_counts(program: &Program, vars: &[VarDef]) -> bool
    ensures { result ≡ list_all (has_counts program.now) (bounds_written vars.now) }
{
    for var in vars {
        if !have_counts(program, var.bounds.as_slice()) {
            return false;
        }
    }
    true
}

fn have_field_counts(program: &Program, fields: &[FieldDef]) -> bool
    ensures { result ≡ list_all (has_counts program.now) (map (λ f. f.kind) fields.now) }
{
    for field in fields {
        if !has_counts(program, &field.kind) {
            return false;
        }
    }
    true
}

// Whether the base, if there is one, may stand as a base.
fn has_good_base(program: &Program, class: &ClassDef) -> bool
    ensures { result ≡ list_all (may_be_base program.now) (option_to_list class.now.base) }
{
    match &class.base {
        Some(base) => may_be_base(program, base),
        None => true,
    }
}

fn may_be_base(program: &Program, kind: &TExpr) -> bool
    ensures { result ≡ may_be_base program.now kind.now }
{
    is_base_class(program, kind) && !is_number(1, class_number(kind))
}

fn is_base_class(program: &Program, kind: &TExpr) -> bool
    ensures { result ≡ is_base_class (class_of program.now kind.now) }
{
    match class_of(program, kind) {
        Some(class) => is_base_kind(class.kind),
        None => false,
    }
}

/// Whether it is this number.
pub(crate) fn is_number(number: u16, found: Option<u16>) -> bool
    ensures { result ≡ is_number number found }
{
    match found {
        Some(other) => other == number,
        None => false,
    }
}

// Whether all of these are interfaces.
fn are_interfaces(program: &Program, kinds: &[TExpr]) -> bool
    ensures { result ≡ list_all (is_interface program.now) kinds.now }
{
    for each in kinds {
        if !is_interface(program, each) {
            return false;
        }
    }
    true
}
