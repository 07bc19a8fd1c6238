// The first place of a program that has a form that is not built yet.
ghost use Rattle.std.specs.Prelude.{◌≡◌, ◌≤◌, ◌&&◌, ◌||◌, ℕ, Some, map, flat_map, length, slice_get, option_to_list};
ghost use Rattle.std.specs.List.{list_any};
ghost use Rattle.il_model.specs.declared.method.MethodDef.{MethodDef};
ghost use Rattle.il_model.specs.ClassRules.{types_written, bounds_written};
ghost use Rattle.il_model.specs.Methods.{type_of_place, types_of_places};
ghost use Rattle.rgctx_template.specs.Written.{types_of_method_ref, types_of_field_ref};
ghost use Rattle.cil_verify.specs.Places.{locals_of, code_of, clauses_of};
ghost use Rattle.cil_verify.specs.WellTyped.{types_of_method, type_of_sort};
ghost use Rattle.cil_verify.specs.Sizes.{FitsNumbers};
ghost use Rattle.cil_verify.specs.Forms.{has_some, is_class_head, is_generic, is_unbuilt_class, is_catch, is_unbuilt_method, is_unbuilt_instr, unbuilt_instr, unbuilt_in, unbuilt_method, unbuilt_class, first_unbuilt};

use crate::fault::Where;
use il_model::{
    Body, ClassDef, Clause, FRef, FieldDef, MRef, MethodDef, Op, PType, Program, Sort, VarDef,
};
use type_tree::{Head, TExpr, TNode};

/// The first place of a program that has a form that is not built: of its classes, then of its methods and,
/// method by method, their instructions. No memory is taken.
pub(crate) fn first_unbuilt(program: &Program) -> Option<Where>
    requires { FitsNumbers program.now }
    ensures { result ≡ first_unbuilt program.now }
{
    let class = unbuilt_class(program.classes.as_slice());
    if class.is_some() {
        return class;
    }
    unbuilt_method(program.methods.as_slice())
}

fn unbuilt_class(classes: &[ClassDef]) -> Option<Where>
    requires { length classes.now ≤ 65536 }
    ensures { result ≡ unbuilt_class 0 classes.now }
{
    for i in 0..classes.len() {
        if is_unbuilt_class(&classes[i]) {
            return Some(Where::Class(i as u16));
        }
    }
    None
}

// Of methods the method itself comes before its instructions.
fn unbuilt_method(methods: &[MethodDef]) -> Option<Where>
    requires count { length methods.now ≤ 65536 }
    requires code { (number : ℕ) (m : MethodDef) → slice_get methods.now number ≡ Some m → length (code_of m.body) ≤ 16384 }
    ensures { result ≡ unbuilt_method 0 methods.now }
{
    for i in 0..methods.len() {
        let found = unbuilt_in(i as u16, &methods[i]);
        if found.is_some() {
            return found;
        }
    }
    None
}

fn unbuilt_in(number: u16, method: &MethodDef) -> Option<Where>
    requires { length (code_of method.now.body) ≤ 16384 }
    ensures { result ≡ unbuilt_in number method.now }
{
    if is_unbuilt_method(method) {
        return Some(Where::Method(number));
    }
    match &method.body {
        Some(body) => unbuilt_instr(number, body.code.as_slice()),
        None => None,
    }
}

fn unbuilt_instr(number: u16, code: &[Op]) -> Option<Where>
    requires { length code.now ≤ 16384 }
    ensures { result ≡ unbuilt_instr number 0 code.now }
{
    for i in 0..code.len() {
        if is_unbuilt_instr(&code[i]) {
            return Some(Where::Instr(number, i as u32));
        }
    }
    None
}

// Whether a class has type variables, or a generic type in its head or its fields.
fn is_unbuilt_class(class: &ClassDef) -> bool
    ensures { result ≡ is_unbuilt_class class.now }
{
    has_vars(class.vars.as_slice()) || writes_generic(class)
}

fn has_vars(vars: &[VarDef]) -> bool
    ensures { result ≡ has_some vars.now }
{
    match vars {
        [] => false,
        _ => true,
    }
}

fn has_args(kinds: &[TExpr]) -> bool
    ensures { result ≡ has_some kinds.now }
{
    match kinds {
        [] => false,
        _ => true,
    }
}

fn writes_generic(class: &ClassDef) -> bool
    ensures { result ≡ list_any is_generic (types_written class.now) }
{
    if is_some_generic(&class.base) {
        return true;
    }
    if is_any_generic(class.interfaces.as_slice()) {
        return true;
    }
    if is_any_bound_generic(class.vars.as_slice()) {
        return true;
    }
    is_any_field_generic(class.fields.as_slice())
}

fn is_some_generic(kind: &Option<TExpr>) -> bool
    ensures { result ≡ list_any is_generic (option_to_list kind.now) }
{
    match kind {
        Some(kind) => is_generic(kind),
        None => false,
    }
}

// Whether a type has a type variable or a class with arguments in it.
#[cycle(is_generic)]
fn is_generic(kind: &TExpr) -> bool
    ensures { result ≡ is_generic kind.now }
{
    match kind.top() {
        TNode::Node(head, parts) => is_generic_node(*head, parts.as_slice()),
        TNode::ClassVar(_) | TNode::MethodVar(_) => true,
    }
}

#[cycle(is_generic)]
fn is_generic_node(head: Head, parts: &[TExpr]) -> bool
    ensures { result ≡ ((is_class_head head && has_some parts.now) || list_any is_generic parts.now) }
{
    if is_class_head(head) {
        if has_args(parts) {
            return true;
        }
    }
    is_any_generic(parts)
}

#[cycle(is_generic)]
fn is_any_generic(kinds: &[TExpr]) -> bool
    ensures { result ≡ list_any is_generic kinds.now }
{
    for each in kinds {
        if is_generic(each) {
            return true;
        }
    }
    false
}

fn is_class_head(head: Head) -> bool
    ensures { result ≡ is_class_head head }
{
    match head {
        Head::Class(_) => true,
        Head::Int32 | Head::Int64 | Head::Bool | Head::Vector => false,
    }
}

fn is_any_bound_generic(vars: &[VarDef]) -> bool
    ensures { result ≡ list_any is_generic (bounds_written vars.now) }
{
    for var in vars {
        if is_any_generic(var.bounds.as_slice()) {
            return true;
        }
    }
    false
}

fn is_any_field_generic(fields: &[FieldDef]) -> bool
    ensures { result ≡ list_any is_generic (map (λ f. f.kind) fields.now) }
{
    for field in fields {
        if is_generic(&field.kind) {
            return true;
        }
    }
    false
}

fn is_any_place_generic(places: &[PType]) -> bool
    ensures { result ≡ list_any is_generic (types_of_places places.now) }
{
    for place in places {
        if is_place_generic(place) {
            return true;
        }
    }
    false
}

fn is_place_generic(place: &PType) -> bool
    ensures { result ≡ list_any is_generic (type_of_place place.now) }
{
    match place {
        PType::Value(kind) | PType::Pointer(kind) => is_generic(kind),
        PType::Native => false,
    }
}

// Whether a method has type variables, a generic type in its head, its locals or its clauses, or a catch
// clause.
fn is_unbuilt_method(method: &MethodDef) -> bool
    ensures { result ≡ is_unbuilt_method method.now }
{
    has_vars(method.vars.as_slice()) || (writes_generic_types(method) || catches(&method.body))
}

fn writes_generic_types(method: &MethodDef) -> bool
    ensures { result ≡ list_any is_generic (types_of_method method.now) }
{
    if is_any_bound_generic(method.vars.as_slice()) {
        return true;
    }
    if is_any_place_generic(method.params.as_slice()) {
        return true;
    }
    if is_some_generic(&method.result) {
        return true;
    }
    if has_generic_locals(&method.body) {
        return true;
    }
    has_generic_clauses(&method.body)
}

fn has_generic_locals(body: &Option<Body>) -> bool
    ensures { result ≡ list_any is_generic (types_of_places (locals_of body.now)) }
{
    match body {
        Some(body) => is_any_place_generic(body.locals.as_slice()),
        None => false,
    }
}

fn has_generic_clauses(body: &Option<Body>) -> bool
    ensures { result ≡ list_any is_generic (flat_map (λ c. type_of_sort c.sort) (clauses_of body.now)) }
{
    match body {
        Some(body) => is_any_clause_generic(body.clauses.as_slice()),
        None => false,
    }
}

fn is_any_clause_generic(clauses: &[Clause]) -> bool
    ensures { result ≡ list_any is_generic (flat_map (λ c. type_of_sort c.sort) clauses.now) }
{
    for clause in clauses {
        if is_sort_generic(&clause.sort) {
            return true;
        }
    }
    false
}

fn is_sort_generic(sort: &Sort) -> bool
    ensures { result ≡ list_any is_generic (type_of_sort sort.now) }
{
    match sort {
        Sort::Catch(kind) => is_generic(kind),
        Sort::Finally => false,
    }
}

fn catches(body: &Option<Body>) -> bool
    ensures { result ≡ list_any (λ c. is_catch c.sort) (clauses_of body.now) }
{
    match body {
        Some(body) => is_any_catch(body.clauses.as_slice()),
        None => false,
    }
}

fn is_any_catch(clauses: &[Clause]) -> bool
    ensures { result ≡ list_any (λ c. is_catch c.sort) clauses.now }
{
    for clause in clauses {
        if is_catch(&clause.sort) {
            return true;
        }
    }
    false
}

fn is_catch(sort: &Sort) -> bool
    ensures { result ≡ is_catch sort.now }
{
    match sort {
        Sort::Catch(_) => true,
        Sort::Finally => false,
    }
}

// Whether an instruction is not built: by its form, or by a generic type or a generic method that it names.
fn is_unbuilt_instr(op: &Op) -> bool
    ensures { result ≡ is_unbuilt_instr op.now }
{
    match op {
        Op::Leave(_) | Op::Constrained(_, _) | Op::NameOf(_) | Op::Start | Op::Join => true,
        Op::Call(m) | Op::Callvirt(m) | Op::Newobj(m) | Op::Ldftn(m) | Op::Ldvirtftn(m) => {
            is_generic_method(m)
        }
        Op::Ldfld(f)
        | Op::Stfld(f)
        | Op::Ldflda(f)
        | Op::Ldsfld(f)
        | Op::Stsfld(f)
        | Op::Ldsflda(f) => is_generic_field(f),
        Op::Ldobj(t)
        | Op::Stobj(t)
        | Op::Initobj(t)
        | Op::Newarr(t)
        | Op::Ldelem(t)
        | Op::Stelem(t)
        | Op::Box(t)
        | Op::UnboxAny(t)
        | Op::Castclass(t)
        | Op::Isinst(t) => is_generic(t),
        _ => false,
    }
}

fn is_generic_method(named: &MRef) -> bool
    ensures { result ≡ (has_some named.now.args || list_any is_generic (types_of_method_ref named.now)) }
{
    if has_args(named.args.as_slice()) {
        return true;
    }
    if is_some_generic(&named.result) {
        return true;
    }
    if is_generic(&named.class) {
        return true;
    }
    if is_any_generic(named.args.as_slice()) {
        return true;
    }
    is_any_place_generic(named.params.as_slice())
}

fn is_generic_field(named: &FRef) -> bool
    ensures { result ≡ list_any is_generic (types_of_field_ref named.now) }
{
    if is_generic(&named.kind) {
        return true;
    }
    is_generic(&named.class)
}
