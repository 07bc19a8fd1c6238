// Whether written types have the right numbers of arguments, and whether these meet their bounds.
ghost use Rattle.std.specs.Prelude.{◌≡◌, ◌&&◌, ◌||◌, IfOk, zip};
ghost use Rattle.std.specs.List.{list_all};
ghost use Rattle.std.specs.Option.{option_copied};
ghost use Rattle.il_model.specs.Find.{class_of};
ghost use Rattle.il_model.specs.Kinds.{is_value};
ghost use Rattle.il_model.specs.Trees.{is_variable};
ghost use Rattle.il_model.specs.Entries.{arguments_of};
ghost use Rattle.il_model.specs.Bases.{with_args_of};
ghost use Rattle.il_model.specs.Assignable.{bounds_of, is_object, is_box_assignable, meets_bound};
ghost use Rattle.il_model.specs.Admission.{has_count_in, has_count};
ghost use Rattle.il_model.specs.ClassRules.{HasTypes, vars_in, has_counts, meets_bounds_of, meets_own_bounds, meets_bounds, bounds_written};

use crate::equality::is_among;
use crate::fitting::{bounds_in, is_object_class};
use crate::objects::is_struct;
use il_model::{ClassDef, Program, VarDef, class_of};
use mn_outside::NoMemory;
use std::alloc::Global;
use type_inst::{assignable, interfaces};
use type_tree::{Head, TExpr, TNode, subst_whole};

/// Whether a type and each argument in it has as many arguments as its head wants, its class being one of
/// the program. No memory is taken.
#[cycle(has_counts)]
pub(crate) fn has_counts(program: &Program, kind: &TExpr) -> bool
    ensures { result ≡ has_counts program.now kind.now }
{
    if !has_count(program, kind) {
        return false;
    }
    match kind.top() {
        TNode::Node(_, parts) => have_counts(program, parts.as_slice()),
        TNode::ClassVar(_) | TNode::MethodVar(_) => true,
    }
}

/// Whether all of these do.
#[cycle(has_counts)]
pub(crate) fn have_counts(program: &Program, kinds: &[TExpr]) -> bool
    ensures { result ≡ list_all (has_counts program.now) kinds.now }
{
    for each in kinds {
        if !has_counts(program, each) {
            return false;
        }
    }
    true
}

// Whether a type has as many arguments as its head wants.
pub(crate) fn has_count(program: &Program, kind: &TExpr) -> bool
    ensures { result ≡ has_count program.now kind.now }
{
    match kind.top() {
        TNode::Node(Head::Vector, parts) => parts.len() == 1,
        TNode::Node(Head::Class(number), parts) => {
            has_count_in(
                program.classes.as_slice().get(*number as usize),
                parts.as_slice(),
            )
        }
        TNode::Node(Head::Int32 | Head::Int64 | Head::Bool, parts) => parts.len() == 0,
        TNode::ClassVar(_) | TNode::MethodVar(_) => true,
    }
}

fn has_count_in(class: Option<&ClassDef>, parts: &[TExpr]) -> bool
    ensures { result ≡ has_count_in (option_copied class.entry) parts.now }
{
    match class {
        Some(class) => parts.len() == class.vars.len(),
        None => false,
    }
}

/// Whether a written type and each argument in it has the right number of arguments, which meet their
/// bounds. The type is read among the variables of a class and of a method.
#[cycle(meets_bounds)]
pub(crate) fn meets_bounds(
    alloc: Global,
    program: &Program,
    of_class: &[VarDef],
    of_method: &[VarDef],
    kind: &TExpr,
) -> Result<bool, NoMemory>
    requires { HasTypes program.now }
    ensures { IfOk result (λ answer. answer ≡
        meets_bounds program.now (record { of_class = of_class.now; of_method = of_method.now }) kind.now) }
{
    if !meets_own_bounds(alloc, program, of_class, of_method, kind)? {
        return Ok(false);
    }
    match kind.top() {
        TNode::Node(_, parts) => all_meet(alloc, program, of_class, of_method, parts.as_slice()),
        TNode::ClassVar(_) | TNode::MethodVar(_) => Ok(true),
    }
}

/// Whether all of these do.
#[cycle(meets_bounds)]
pub(crate) fn all_meet(
    alloc: Global,
    program: &Program,
    of_class: &[VarDef],
    of_method: &[VarDef],
    kinds: &[TExpr],
) -> Result<bool, NoMemory>
    requires { HasTypes program.now }
    ensures { IfOk result (λ answer. answer ≡
        list_all (meets_bounds program.now (record { of_class = of_class.now; of_method = of_method.now })) kinds.now) }
{
    for each in kinds {
        if !meets_bounds(alloc, program, of_class, of_method, each)? {
            return Ok(false);
        }
    }
    Ok(true)
}

/// Whether all bounds that these variables are declared with do.
pub(crate) fn all_bounds_meet(
    alloc: Global,
    program: &Program,
    of_class: &[VarDef],
    of_method: &[VarDef],
    vars: &[VarDef],
) -> Result<bool, NoMemory>
    requires { HasTypes program.now }
    ensures { IfOk result (λ answer. answer ≡
        list_all (meets_bounds program.now (record { of_class = of_class.now; of_method = of_method.now })) (bounds_written vars.now)) }
{
    for var in vars {
        if !all_meet(alloc, program, of_class, of_method, var.bounds.as_slice())? {
            return Ok(false);
        }
    }
    Ok(true)
}

/// Whether a type has the right number of arguments, which meet their bounds.
pub fn meets_own_bounds(
    alloc: Global,
    program: &Program,
    of_class: &[VarDef],
    of_method: &[VarDef],
    kind: &TExpr,
) -> Result<bool, NoMemory>
    requires { HasTypes program.now }
    ensures { IfOk result (λ answer. answer ≡
        meets_own_bounds program.now (record { of_class = of_class.now; of_method = of_method.now }) kind.now) }
{
    if !has_count(program, kind) {
        return Ok(false);
    }
    let vars = vars_of(program, kind);
    let parts = arguments_of(kind);
    arguments_meet(alloc, program, of_class, of_method, kind, vars, parts)
}

// Whether each argument meets the bounds of its variable.
fn arguments_meet(
    alloc: Global,
    program: &Program,
    of_class: &[VarDef],
    of_method: &[VarDef],
    kind: &TExpr,
    vars: &[VarDef],
    parts: &[TExpr],
) -> Result<bool, NoMemory>
    requires { HasTypes program.now }
    ensures { IfOk result (λ answer. answer ≡
        list_all (meets_bounds_of program.now (record { of_class = of_class.now; of_method = of_method.now }) kind.now) (zip vars.now parts.now)) }
{
    for i in 0..vars.len() {
        if i >= parts.len() {
            return Ok(true);
        }
        if !meets_bounds_of(
            alloc, program, of_class, of_method, kind, &vars[i], &parts[i],
        )? {
            return Ok(false);
        }
    }
    Ok(true)
}

// Whether an argument meets each bound of its variable, with the arguments of this type put for the bounds'
// variables.
fn meets_bounds_of(
    alloc: Global,
    program: &Program,
    of_class: &[VarDef],
    of_method: &[VarDef],
    kind: &TExpr,
    var: &VarDef,
    part: &TExpr,
) -> Result<bool, NoMemory>
    requires { HasTypes program.now }
    ensures { IfOk result (λ answer. answer ≡
        meets_bounds_of program.now (record { of_class = of_class.now; of_method = of_method.now }) kind.now (var.now, part.now)) }
{
    for bound in var.bounds.as_slice() {
        let at = with_args_of(alloc, kind, bound)?;
        if !meets_bound(alloc, program, of_class, of_method, part, &at)? {
            return Ok(false);
        }
    }
    Ok(true)
}

/// Whether an argument meets a bound: it is assignable to it or, being a value type or a variable, its boxed
/// form is. The argument is read among the variables of a class and of a method.
pub fn meets_bound(
    alloc: Global,
    program: &Program,
    of_class: &[VarDef],
    of_method: &[VarDef],
    part: &TExpr,
    bound: &TExpr,
) -> Result<bool, NoMemory>
    requires { HasTypes program.now }
    ensures { IfOk result (λ answer. answer ≡
        meets_bound program.now (record { of_class = of_class.now; of_method = of_method.now }) part.now bound.now) }
{
    if assignable(alloc, program, part, bound)? {
        return Ok(true);
    }
    if !is_boxed_to_refer(program, part) {
        return Ok(false);
    }
    is_box_assignable(alloc, program, of_class, of_method, part, bound)
}

// Whether a type is a value type or a variable.
fn is_boxed_to_refer(program: &Program, kind: &TExpr) -> bool
    ensures { result ≡ (is_value program.now kind.now || is_variable kind.now) }
{
    is_value(program, kind) || is_variable(kind)
}

// Whether the boxed form of the first is assignable to the second.
fn is_box_assignable(
    alloc: Global,
    program: &Program,
    of_class: &[VarDef],
    of_method: &[VarDef],
    from: &TExpr,
    to: &TExpr,
) -> Result<bool, NoMemory>
    requires { HasTypes program.now }
    ensures { IfOk result (λ answer. answer ≡
        is_box_assignable program.now (record { of_class = of_class.now; of_method = of_method.now }) from.now to.now) }
{
    if is_object_class(alloc, to) {
        return Ok(true);
    }
    if is_among(interfaces(alloc, program, from)?.as_slice(), to) {
        return Ok(true);
    }
    Ok(is_among(bounds_among(of_class, of_method, from), to))
}

// The bounds of a variable; any other type has none.
fn bounds_among<'a>(of_class: &'a [VarDef], of_method: &'a [VarDef], kind: &TExpr) -> &'a [TExpr]
    ensures { result.now ≡ bounds_of (record { of_class = of_class.now; of_method = of_method.now }) kind.now }
{
    match kind.top() {
        TNode::Node(_, _) => &[],
        TNode::ClassVar(number) => bounds_in(of_class.get(*number as usize)),
        TNode::MethodVar(number) => bounds_in(of_method.get(*number as usize)),
    }
}

fn is_value(program: &Program, kind: &TExpr) -> bool
    ensures { result ≡ is_value program.now kind.now }
{
    match kind.top() {
        TNode::Node(Head::Int32 | Head::Int64 | Head::Bool, _) => true,
        TNode::Node(Head::Class(_), _) => is_struct(program, kind),
        TNode::Node(Head::Vector, _) => false,
        TNode::ClassVar(_) | TNode::MethodVar(_) => false,
    }
}

fn is_variable(kind: &TExpr) -> bool
    ensures { result ≡ is_variable kind.now }
{
    match kind.top() {
        TNode::Node(_, _) => false,
        TNode::ClassVar(_) | TNode::MethodVar(_) => true,
    }
}

// The arguments of a type; a variable has none.
pub(crate) fn arguments_of(kind: &TExpr) -> &[TExpr]
    ensures { result.now ≡ arguments_of kind.now }
{
    match kind.top() {
        TNode::Node(_, parts) => parts.as_slice(),
        TNode::ClassVar(_) | TNode::MethodVar(_) => &[],
    }
}

// A type of a class's definition, with the arguments of this type of the class.
fn with_args_of(alloc: Global, kind: &TExpr, part: &TExpr) -> Result<TExpr, NoMemory>
    ensures { IfOk result (λ whole. whole ≡ with_args_of kind.now part.now) }
{
    subst_whole(alloc, part, arguments_of(kind), &[])
}

// The variables of the class that a type names.
fn vars_of<'a>(program: &'a Program, kind: &TExpr) -> &'a [VarDef]
    ensures { result.now ≡ vars_in (class_of program.now kind.now) }
{
    match class_of(program, kind) {
        Some(class) => class.vars.as_slice(),
        None => &[],
    }
}
