// What is asked of types, on the classes of a small program. A program is shown to meet the rules on classes by
// the verifier, which accepts none with type variables yet.
ghost use Rattle.std.specs.Prelude.{IfOk};
ghost use Rattle.cil_verify.specs.Sizes.{FitsNumbers};
ghost use Rattle.il_model.specs.ClassRules.{EachClass, HasFewSlots, HasTypes};

use cil_verify::{Verified, VerifyFault, fits_numbers, verify};
use il_model::Program;
use il_parse::parse;
use mn_outside::{NoMemory, Refused};
use sqlite_items::Items;
use std::alloc::Global;
use std::test::Fail;
use type_inst::{assignable, bases, implementation, interfaces, own_methods_of, slots};
use type_tree::{Head, TExpr, TNode};

const TEXT: &[u8] = b"
.class A {
  .method virtual void f() { ret }
  .method virtual void g() { ret }
}
.class B extends A {
  .method virtual void f() { ret }
  .method newslot virtual void g() { ret }
}
.class C extends B {
  .method virtual void g() { ret }
  .method virtual void f() { ret }
}
.class interface I {
  .method abstract void g();
  .method abstract void f();
}
.class interface J implements I {
  .method abstract void h();
}
.class D implements I {
  .method virtual void f() { ret }
  .method virtual void g() { ret }
}
.class E extends D implements J, I {
  .method virtual void g() { ret }
  .method virtual void h() { ret }
}
.class P {
  .method static void Main() { .entrypoint ret }
}
";

// The classes by their numbers: thirteen are predefined, and so are twelve methods.
const OBJECT: u16 = 0;

const A: u16 = 13;

const B: u16 = 14;

const C: u16 = 15;

const I: u16 = 16;

const J: u16 = 17;

const D: u16 = 18;

const E: u16 = 19;

// The verifier's answer, as what calls on types need of it.
fn judged(alloc: Global, program: Program) -> Result<Verified, Refused<VerifyFault>>
    requires { FitsNumbers program }
    ensures types { IfOk result (λ v. HasTypes v.program) }
    ensures few { IfOk result (λ v. EachClass HasFewSlots v.program) }
{
    verify(alloc, program)
}

// The program of the text, which is accepted.
fn accepted(alloc: Global) -> Result<Verified, Fail>
    ensures types { IfOk result (λ v. HasTypes v.program) }
    ensures few { IfOk result (λ v. EachClass HasFewSlots v.program) }
{
    let program = parse(alloc, TEXT)?.program;
    if !fits_numbers(&program) {
        return Err(NoMemory.into());
    }
    match judged(alloc, program) {
        Ok(accepted) => Ok(accepted),
        Err(refused) => Err(refused.into()),
    }
}

fn plain(alloc: Global, class: u16) -> TExpr {
    TExpr::plain(alloc, Head::Class(class))
}

fn vector_of(alloc: Global, part: TExpr) -> Result<TExpr, Fail> {
    let mut parts = Items::new(alloc);
    parts.push(part)?;
    Ok(TExpr::node(Head::Vector, parts))
}

fn vector(alloc: Global, class: u16) -> Result<TExpr, Fail> {
    vector_of(alloc, plain(alloc, class))
}

// The methods in the slots of a class.
fn in_slots(alloc: Global, accepted: &Verified, class: u16) -> Result<Vec<u16>, Fail>
    requires { HasTypes accepted.now.program }
{
    let found = slots(alloc, accepted.program(), &plain(alloc, class))?;
    let mut methods = Vec::new(alloc);
    for slot in found.as_slice() {
        methods.push(slot.method)?;
    }
    Ok(methods)
}

// The slot in which a class has a method of an interface, which is one of its own by its place among them.
fn slot_of(
    alloc: Global,
    accepted: &Verified,
    class: u16,
    interface: u16,
    ordinal: u16,
) -> Result<Option<u16>, Fail>
    requires types { HasTypes accepted.now.program }
    requires few { EachClass HasFewSlots accepted.now.program }
{
    let program = accepted.program();
    let interface = plain(alloc, interface);
    if own_methods_of(program, &interface).len() <= ordinal as usize {
        return Ok(None);
    }
    let exact = plain(alloc, class);
    Ok(implementation(alloc, program, &exact, &interface, ordinal)?)
}

// The classes of a list of types.
fn classes(alloc: Global, kinds: &[TExpr]) -> Result<Vec<u16>, Fail> {
    let mut numbers = Vec::new(alloc);
    for kind in kinds {
        if let TNode::Node(Head::Class(number), _) = kind.top() {
            numbers.push(*number)?;
        }
    }
    Ok(numbers)
}

#[test]
fn newslot_takes_a_slot_of_its_own(rt: HostRuntime) -> Result<(), Fail> {
    let alloc = rt.alloc();
    let accepted = accepted(alloc)?;
    let a = in_slots(alloc, &accepted, A)?;
    let b = in_slots(alloc, &accepted, B)?;
    let c = in_slots(alloc, &accepted, C)?;
    assert_eq!(rt; a.as_slice(), [12u16, 13].as_slice());
    assert_eq!(rt; b.as_slice(), [14u16, 13, 15].as_slice());
    assert_eq!(rt; c.as_slice(), [17u16, 13, 16].as_slice());
    let int32 = slots(alloc, accepted.program(), &TExpr::plain(alloc, Head::Int32))?;
    assert_eq!(rt; int32.len(), 0);
    Ok(())
}

#[test]
fn places_of_interfaces_hold_the_nearest_methods(rt: HostRuntime) -> Result<(), Fail> {
    let alloc = rt.alloc();
    let accepted = accepted(alloc)?;
    let d = in_slots(alloc, &accepted, D)?;
    let e = in_slots(alloc, &accepted, E)?;
    assert_eq!(rt; d.as_slice(), [21u16, 22, 22, 21].as_slice());
    assert_eq!(rt; e.as_slice(), [21u16, 23, 24, 23, 21, 24].as_slice());
    assert_eq!(rt; slot_of(alloc, &accepted, E, J, 0)?, Some(5));
    assert_eq!(rt; slot_of(alloc, &accepted, E, I, 1)?, Some(4));
    assert_eq!(rt; slot_of(alloc, &accepted, D, I, 0)?, Some(2));
    assert_eq!(rt; slot_of(alloc, &accepted, D, J, 0)?, None);
    assert_eq!(rt; slot_of(alloc, &accepted, A, I, 0)?, None);
    Ok(())
}

#[test]
fn interfaces_come_once_and_those_of_the_base_first(rt: HostRuntime) -> Result<(), Fail> {
    let alloc = rt.alloc();
    let accepted = accepted(alloc)?;
    let found = interfaces(alloc, accepted.program(), &plain(alloc, E))?;
    let found = classes(alloc, found.as_slice())?;
    assert_eq!(rt; found.as_slice(), [I, J].as_slice());
    let found = interfaces(alloc, accepted.program(), &TExpr::plain(alloc, Head::Int32))?;
    assert_eq!(rt; found.len(), 0);
    let found = bases(alloc, accepted.program(), &plain(alloc, E))?;
    let found = classes(alloc, found.as_slice())?;
    assert_eq!(rt; found.as_slice(), [E, D, OBJECT].as_slice());
    Ok(())
}

#[test]
fn classes_are_assigned_upwards(rt: HostRuntime) -> Result<(), Fail> {
    let alloc = rt.alloc();
    let accepted = accepted(alloc)?;
    let program = accepted.program();
    let d = plain(alloc, D);
    let e = plain(alloc, E);
    assert!(rt; assignable(alloc, program, &e, &d)?);
    assert!(rt; !assignable(alloc, program, &d, &e)?);
    assert!(rt; assignable(alloc, program, &e, &plain(alloc, J))?);
    assert!(rt; !assignable(alloc, program, &d, &plain(alloc, J))?);
    assert!(rt; assignable(alloc, program, &d, &plain(alloc, OBJECT))?);
    assert!(rt; assignable(alloc, program, &vector(alloc, E)?, &vector(alloc, I)?)?);
    assert!(rt; !assignable(alloc, program, &vector(alloc, I)?, &vector(alloc, E)?)?);
    Ok(())
}

#[test]
fn vectors_of_numbers_are_objects(rt: HostRuntime) -> Result<(), Fail> {
    let alloc = rt.alloc();
    let accepted = accepted(alloc)?;
    let program = accepted.program();
    let object = plain(alloc, OBJECT);
    let int32 = TExpr::plain(alloc, Head::Int32);
    let numbers = vector_of(alloc, int32.copy(alloc)?)?;
    let rows = vector_of(alloc, numbers.copy(alloc)?)?;
    assert!(rt; assignable(alloc, program, &numbers, &object)?);
    assert!(rt; assignable(alloc, program, &rows, &rows)?);
    assert!(rt; !assignable(alloc, program, &int32, &object)?);
    assert!(rt; !assignable(alloc, program, &rows, &numbers)?);
    Ok(())
}
