// Choices of bodies for a small program: what they leave, and the first bad line of others.
use aot_image::ChoiceCause::{NoBody, Syntax, UnknownMethod, WrongArity};
use aot_image::{ChoiceCause, ChoiceFault, choice};
use cil_verify::{Verified, fits_numbers, verify};
use il_parse::parse;
use mn_outside::Refused;
use share_canon::Choice;
use std::alloc::Global;
use std::process::Abort;
use std::test::Fail;

// Behind the library's methods, 0 to 11, the methods are 12 to 15 in this order.
const TEXT: &[u8] = b".class abstract A { .method abstract void g(); }
.class P {
  .method static void f() { ret }
  .method static void f(int32) { ret }
  .method static void Main() { .entrypoint ret }
}";

// The methods of the library and of the program that may have a body.
const ALL: &[u16] = &[1, 2, 3, 4, 5, 6, 7, 8, 9, 10, 13, 14, 15];

const PICKS: [(&[u8], &[u16]); 12] = [
    (b"", &[]),
    (b"\n\n", &[]),
    (b"*", ALL),
    (b"*\n*\nP::f/1\n", ALL),
    (b"P::Main", &[15]),
    (b"P::f/1\nP::f\nP::f/0", &[14, 13]),
    (b"P::f\nP::Main\n!P::f\nP::f", &[15, 13]),
    (b"P::f\nP::Main\nP::f", &[13, 15]),
    (b"!P::Main", &[]),
    (b"// any \xff bytes\n\nP::Main\n", &[15]),
    (b"System.Object::.ctor\nobject::.ctor/0", &[1]),
    (
        b"*\n!P::Main\n!P::f/1",
        &[1, 2, 3, 4, 5, 6, 7, 8, 9, 10, 13],
    ),
];

const REFUSALS: [(&[u8], u64, ChoiceCause); 24] = [
    (b" ", 1, Syntax),
    (b"*\n \n*", 2, Syntax),
    (b"/ P::Main", 1, Syntax),
    (b"* P::Main", 1, Syntax),
    (b"P:Main", 1, Syntax),
    (b"P::Main ", 1, Syntax),
    (b"P::Main  int32", 1, Syntax),
    (b"P::Main int32[", 1, Syntax),
    (b"P::Main Nope", 1, Syntax),
    (b"P::Main P<int32>", 1, Syntax),
    (b"P::Main int32<int32>", 1, Syntax),
    (b"P::Nope int32]", 1, Syntax),
    (b"P::f/01", 1, Syntax),
    (b"P::f/", 1, Syntax),
    (b"!P::Main int32", 1, Syntax),
    (b"*\nP::Nope", 2, UnknownMethod),
    (b"P::f/2", 1, UnknownMethod),
    (b"!Q::f", 1, UnknownMethod),
    (b"A::g int32", 1, NoBody),
    (b"!A::g", 1, NoBody),
    (b"Rt.Threads::Entry", 1, NoBody),
    (b"P::Main int32", 1, WrongArity),
    (b"P::Main !0[]", 1, WrongArity),
    (b"\n//\nP::f any ref", 3, WrongArity),
];

// What a choice answers on the program of a text.
fn answer(
    alloc: Global,
    program: &[u8],
    text: &[u8],
) -> Option<Result<Choice, Refused<ChoiceFault>>> {
    let Ok(parsed) = parse(alloc, program) else {
        return None;
    };
    if !fits_numbers(&parsed.program) {
        return None;
    }
    match verify(alloc, parsed.program) {
        Ok(verified) => Some(choice(alloc, text, &verified)),
        Err(_) => None,
    }
}

fn check_picks(rt: &impl Abort, alloc: Global, text: &[u8], methods: &[u16]) {
    match answer(alloc, TEXT, text) {
        Some(Ok(choice)) => {
            let picks = choice.picks.as_slice();
            assert_eq!(rt; picks.len(), methods.len());
            for i in 0..methods.len() {
                if let Some(pick) = picks.get(i) {
                    assert_eq!(rt; pick.0, methods[i]);
                    assert_eq!(rt; pick.1.parts.len(), 0);
                }
            }
        }
        _ => assert!(rt; false, "no choice"),
    }
}

fn check_refusal(rt: &impl Abort, alloc: Global, text: &[u8], line: u64, cause: ChoiceCause) {
    match answer(alloc, TEXT, text) {
        Some(Err(Refused::Fault(fault))) => assert_eq!(rt; fault, ChoiceFault { line, cause }),
        _ => assert!(rt; false, "not refused at {line}"),
    }
}

#[test]
fn lines_leave_their_picks(rt: HostRuntime) -> Result<(), Fail> {
    for (text, methods) in &PICKS {
        check_picks(&rt, rt.alloc(), *text, *methods);
    }
    Ok(())
}

#[test]
fn the_first_bad_line_is_named(rt: HostRuntime) -> Result<(), Fail> {
    for (text, line, cause) in &REFUSALS {
        check_refusal(&rt, rt.alloc(), *text, *line, *cause);
    }
    Ok(())
}

// The key of a type with so many vectors in one another, and these bytes behind it.
fn long_key(alloc: Global, count: u32, end: &str) -> Result<String, Fail> {
    let mut line = String::from_str(alloc, "P::Main int32")?;
    for _ in 0..count {
        line.push_str("[]")?;
    }
    line.push_str(end)?;
    Ok(line)
}

// A type of too many positions is read to its end.
#[test]
fn long_types_are_read_whole(rt: HostRuntime) -> Result<(), Fail> {
    let whole = long_key(rt.alloc(), 70_000, "")?;
    check_refusal(&rt, rt.alloc(), whole.as_bytes(), 1, WrongArity);
    let cut = long_key(rt.alloc(), 70_000, "]")?;
    check_refusal(&rt, rt.alloc(), cut.as_bytes(), 1, Syntax);
    Ok(())
}

// A program of so many methods, and a choice of each of them twice.
fn long_texts(alloc: Global, count: u32) -> Result<(String, String), Fail> {
    let mut program = String::from_str(alloc, ".class P {\n")?;
    let mut lines = String::from_str(alloc, "")?;
    for i in 0..count {
        program.push_str(format!(in alloc; ".method static void f{i}() {{ ret }}\n")?.as_str())?;
        lines.push_str(format!(in alloc; "P::f{i}\nP::f{i}/0\n")?.as_str())?;
    }
    program.push_str(".method static void Main() { .entrypoint ret }\n}")?;
    Ok((program, lines))
}

#[test]
fn each_of_4096_methods_is_picked_once(rt: HostRuntime) -> Result<(), Fail> {
    let (program, lines) = long_texts(rt.alloc(), 4096)?;
    match answer(rt.alloc(), program.as_bytes(), lines.as_bytes()) {
        Some(Ok(choice)) => {
            let picks = choice.picks.as_slice();
            assert_eq!(rt; picks.len(), 4096);
            if let Some(pick) = picks.get(4095) {
                assert_eq!(rt; pick.0, 4107);
            }
        }
        _ => assert!(rt; false, "no choice"),
    }
    Ok(())
}
