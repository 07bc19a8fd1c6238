// What compiled code prints and gives back, against what the process of the same program prints.
use crate::branches::{BRANCHES, CHOICES, NUMBERS, long_body, wide_switch};
use crate::compiling::verified;
use crate::edges::{
    branches_of_32_bits, branches_of_64_bits, calculations_of_32_bits, calculations_of_64_bits,
};
use crate::numbers::{COMPARISONS, NARROW, WIDE};
use crate::places::{far_class, numbers, put_often, split, sum_class};
use crate::running::{Ran, run};
use crate::strings::BODY;
use crate::texts::{FIRST, put, put_main, rows_text, with_main};
use std::alloc::Global;
use std::process::Abort;
use std::test::Fail;
use store_object::{Chooser, Ending, Form, Request};
use unshared::mean;

// Each run here has fewer turns.
const TURNS: u32 = 100_000;

fn number_of(form: Form) -> u64 {
    match form {
        Form::Number => 0,
        Form::String => 1,
    }
}

// The words that the process of a text prints up to its end, each with its form.
fn meant(rt: &impl Abort, alloc: Global, text: &[u8]) -> Result<Vec<(u64, u64)>, Fail> {
    let program = verified(alloc, text)?;
    let meant = mean(alloc, &program, Chooser::Seed(0), TURNS)?;
    assert_eq!(rt; meant.ending, Ending::Done);
    let mut words: Vec<(u64, u64)> = Vec::new(alloc);
    for event in meant.history.as_slice() {
        if let Request::Print { form, word } = event.request {
            words.push((word, number_of(form)))?;
        }
    }
    Ok(words)
}

// That these words are printed, and that there are some.
fn check_words(rt: &impl Abort, printed: &[(u64, u64)], meant: &[(u64, u64)]) {
    assert!(rt; !meant.is_empty());
    assert_eq!(rt; printed.len(), meant.len());
    for at in 0..meant.len() {
        assert_eq!(rt; printed.get(at), meant.get(at), "word {at}");
    }
}

// That the code of `Main` prints what the process prints.
fn check_main(rt: &impl Abort, alloc: Global, text: &[u8]) -> Result<(), Fail> {
    let meant = meant(rt, alloc, text)?;
    let ran = run(alloc, text, FIRST, &[])?;
    check_words(rt, ran.printed.as_slice(), meant.as_slice());
    Ok(())
}

fn check_body(rt: &impl Abort, alloc: Global, body: &[u8]) -> Result<(), Fail> {
    let text = with_main(alloc, body)?;
    check_main(rt, alloc, text.as_slice())
}

fn check_rows(
    rt: &impl Abort,
    alloc: Global,
    rows: &[(&str, i64)],
    kind: &str,
) -> Result<(), Fail> {
    let text = rows_text(alloc, rows, kind)?;
    check_main(rt, alloc, text.as_slice())
}

#[test]
fn rows_print_what_is_meant(rt: HostRuntime) -> Result<(), Fail> {
    let alloc = rt.alloc();
    check_rows(&rt, alloc, &NARROW, "int32")?;
    check_rows(&rt, alloc, &WIDE, "int64")?;
    check_rows(&rt, alloc, &COMPARISONS, "int32")?;
    check_rows(&rt, alloc, &BRANCHES, "int32")?;
    check_rows(&rt, alloc, &CHOICES, "int32")?;
    check_body(&rt, alloc, BODY)
}

#[test]
fn calculations_are_as_meant(rt: HostRuntime) -> Result<(), Fail> {
    let alloc = rt.alloc();
    let narrow = calculations_of_32_bits(alloc)?;
    check_main(&rt, alloc, narrow.as_slice())?;
    let wide = calculations_of_64_bits(alloc)?;
    check_main(&rt, alloc, wide.as_slice())
}

#[test]
fn branches_are_as_meant(rt: HostRuntime) -> Result<(), Fail> {
    let alloc = rt.alloc();
    let narrow = branches_of_32_bits(alloc)?;
    check_main(&rt, alloc, narrow.as_slice())?;
    let wide = branches_of_64_bits(alloc)?;
    check_main(&rt, alloc, wide.as_slice())?;
    let long = long_body(alloc)?;
    check_body(&rt, alloc, long.as_slice())
}

#[test]
fn wide_switches_are_as_meant(rt: HostRuntime) -> Result<(), Fail> {
    let alloc = rt.alloc();
    for (number, _) in NUMBERS {
        let body = wide_switch(alloc, number)?;
        check_body(&rt, alloc, body.as_slice())?;
    }
    Ok(())
}

// Static methods of `P`, with what `Main` does to call each, the type of the number that is then left, and the
// method's arguments, a word each.
#[rattlefmt::skip]
const CALLS: [(&str, &str, &str, &[u64]); 22] = [
    ("int32 F(int32, int32) { again: ldarg.0 ldarg.1 add starg 1 ldarg.0 ldc.i4 1 sub starg 0 ldarg.0 brtrue again ldarg.1 ret }", "ldc.i4 5 ldc.i4 0 call int32 P::F(int32, int32)", "int32", &[5, 0]),
    ("int32 F(int32) { ldarg.0 ret }", "ldc.i4 -2147483648 call int32 P::F(int32)", "int32", &[18_446_744_071_562_067_968]),
    ("int64 F(int64) { ldarg.0 ret }", "ldc.i8 -9223372036854775808 call int64 P::F(int64)", "int64", &[9_223_372_036_854_775_808]),
    ("int32 F(bool) { ldarg.0 ret }", "ldc.i4 511 call int32 P::F(bool)", "int32", &[511]),
    ("int32 F(bool) { ldarg.0 ret }", "ldc.i4 -256 call int32 P::F(bool)", "int32", &[18_446_744_073_709_551_360]),
    ("bool F(int32) { ldarg.0 ret }", "ldc.i4 257 call bool P::F(int32)", "int32", &[257]),
    ("bool F(int32) { ldarg.0 ret }", "ldc.i4 256 call bool P::F(int32)", "int32", &[256]),
    ("bool F(int32) { ldarg.0 ret }", "ldc.i4 -1 call bool P::F(int32)", "int32", &[18_446_744_073_709_551_615]),
    ("int64 F(int64, int64, int64) { ldarg.0 ret }", "ldc.i8 1 ldc.i8 -2 ldc.i8 3 call int64 P::F(int64, int64, int64)", "int64", &[1, 18_446_744_073_709_551_614, 3]),
    ("int64 F(int64, int64, int64) { ldarg.1 ret }", "ldc.i8 1 ldc.i8 -2 ldc.i8 3 call int64 P::F(int64, int64, int64)", "int64", &[1, 18_446_744_073_709_551_614, 3]),
    ("int64 F(int64, int64, int64) { ldarg.2 ret }", "ldc.i8 1 ldc.i8 -2 ldc.i8 3 call int64 P::F(int64, int64, int64)", "int64", &[1, 18_446_744_073_709_551_614, 3]),
    ("int64 F(int64, int64, int64) { ldarga 1 pop ldarg.0 starg 1 ldarg.1 ldarg.2 add ret }", "ldc.i8 1 ldc.i8 -2 ldc.i8 3 call int64 P::F(int64, int64, int64)", "int64", &[1, 18_446_744_073_709_551_614, 3]),
    ("int32 F(int32) { .locals init (bool) ldarg.0 stloc.0 ldloc.0 ret }", "ldc.i4 511 call int32 P::F(int32)", "int32", &[511]),
    ("int32 F(bool, int32) { ldarg.1 starg 0 ldarg.0 ret }", "ldc.i4 1 ldc.i4 263 call int32 P::F(bool, int32)", "int32", &[1, 263]),
    ("int64 F() { .locals init (int32, int64) ldloc.1 ret }", "call int64 P::F()", "int64", &[]),
    ("int32 F(bool) { .locals init (bool) ldc.i4 1 stloc.0 ldloc.0 ldarg.0 add ret }", "ldc.i4 2 call int32 P::F(bool)", "int32", &[2]),
    ("int32 F(string) { ldarg.0 ldnull ceq ret }", "ldnull call int32 P::F(string)", "int32", &[0]),
    ("int32 F(string) { ldarg.0 ldnull cgt.un ret }", "ldstr \"a\" call int32 P::F(string)", "int32", &[4_294_967_296]),
    ("int32 F(string) { ldarg.0 call void System.Console::WriteLine(string) ldc.i4 4 ret }", "ldstr \"a\" call int32 P::F(string)", "int32", &[4_294_967_296]),
    ("One F(One) { .locals init (One) ldarg.0 stloc.0 ldloc.0 dup stloc.0 ret }", ".locals init (One) ldloca 0 ldc.i8 9 stfld int64 One::a ldloc 0 call One P::F(One) ldfld int64 One::a", "int64", &[9]),
    ("int32 F(int32) { ldarg.0 call void System.Console::WriteLine(int32) ldc.i4 7 ret }", "ldc.i4 -3 call int32 P::F(int32)", "int32", &[18_446_744_073_709_551_613]),
    ("int32 F(None, int32) { .locals init (None) ldarg.0 stloc.0 ldloc.0 dup stloc.0 pop ldarg.1 ret }", ".locals init (None) ldloc 0 ldc.i4 6 call int32 P::F(None, int32)", "int32", &[0, 6]),
];

fn call_text(alloc: Global, method: &str, call: &str, kind: &str) -> Result<Vec<u8>, Fail> {
    let mut text: Vec<u8> = Vec::new(alloc);
    let more = format!(in alloc;
        ".class struct None {{ }} .class struct One {{ .field int64 a }} .class P {{ .method static {method} .method static void Main() {{ .entrypoint {call} call void System.Console::WriteLine({kind}) ret }} }}"
    )?;
    put(&mut text, more.as_str())?;
    Ok(text)
}

// What a body printed, and behind that so many words of its result, as numbers.
fn told(ran: &Ran, alloc: Global, count: usize) -> Result<Vec<(u64, u64)>, Fail> {
    let mut words = ran.printed.clone()?;
    for word in ran.result.as_slice().iter().take(count) {
        words.push((*word, 0))?;
    }
    Ok(words)
}

// That the code of the first method prints and gives back what the process prints, in as many words.
fn check_call(
    rt: &impl Abort,
    alloc: Global,
    text: &[u8],
    arguments: &[&[u64]],
) -> Result<(), Fail> {
    let meant = meant(rt, alloc, text)?;
    let ran = run(alloc, text, FIRST, arguments)?;
    let count = meant.len().saturating_sub(ran.printed.len());
    let told = told(&ran, alloc, count)?;
    check_words(rt, told.as_slice(), meant.as_slice());
    Ok(())
}

#[test]
fn calls_are_as_meant(rt: HostRuntime) -> Result<(), Fail> {
    let alloc = rt.alloc();
    for (method, call, kind, words) in CALLS {
        let text = call_text(alloc, method, call, kind)?;
        let arguments = split(alloc, words, 1)?;
        check_call(&rt, alloc, text.as_slice(), arguments.as_slice())?;
    }
    Ok(())
}

// What `Main` does to call `Sum`, of which the arguments are the numbers from 1 on.
fn sum_call(alloc: Global) -> Result<Vec<u8>, Fail> {
    let mut body: Vec<u8> = Vec::new(alloc);
    for number in 1..119_u32 {
        let more = format!(in alloc; "ldc.i8 {number} ")?;
        put(&mut body, more.as_str())?;
    }
    put(&mut body, "call int64 P::Sum(")?;
    put_often(&mut body, "int64", 118)?;
    put(&mut body, ") call void System.Console::WriteLine(int64)")?;
    Ok(body)
}

#[test]
fn a_hundred_and_twenty_near_places_are_as_meant(rt: HostRuntime) -> Result<(), Fail> {
    let alloc = rt.alloc();
    let mut text = sum_class(alloc)?;
    let call = sum_call(alloc)?;
    put_main(&mut text, call.as_slice())?;
    let words = numbers(alloc, 1, 118)?;
    let arguments = split(alloc, words.as_slice(), 1)?;
    check_call(&rt, alloc, text.as_slice(), arguments.as_slice())
}

// Pushes a struct whose fields are the numbers from the first on.
fn put_struct(alloc: Global, body: &mut Vec<u8>, first: u32) -> Result<(), Fail> {
    for number in 0..16_u32 {
        let word = first.wrapping_add(number);
        let more = format!(in alloc; "ldloca 0 ldc.i8 {word} stfld int64 Full::f{number} ")?;
        put(body, more.as_str())?;
    }
    put(body, "ldloc 0 ")
}

// Prints the fields of the struct.
fn put_fields(alloc: Global, body: &mut Vec<u8>) -> Result<(), Fail> {
    for number in 0..16_u32 {
        let more = format!(in alloc;
            "ldloc 0 ldfld int64 Full::f{number} call void System.Console::WriteLine(int64) "
        )?;
        put(body, more.as_str())?;
    }
    Ok(())
}

// What `Main` does to call `Last`, of which the arguments' words are the numbers from 1,000 on.
fn far_call(alloc: Global) -> Result<Vec<u8>, Fail> {
    let mut body: Vec<u8> = Vec::new(alloc);
    put(&mut body, ".locals init (Full) ")?;
    for number in 0..20_u32 {
        put_struct(alloc, &mut body, 1_000 + 16 * number)?;
    }
    put(&mut body, "call Full P::Last(")?;
    put_often(&mut body, "Full", 20)?;
    put(&mut body, ") stloc 0 ")?;
    put_fields(alloc, &mut body)?;
    Ok(body)
}

#[test]
fn a_hundred_and_twenty_far_places_are_as_meant(rt: HostRuntime) -> Result<(), Fail> {
    let alloc = rt.alloc();
    let mut text = far_class(alloc)?;
    let call = far_call(alloc)?;
    put_main(&mut text, call.as_slice())?;
    let words = numbers(alloc, 1_000, 320)?;
    let arguments = split(alloc, words.as_slice(), 16)?;
    check_call(&rt, alloc, text.as_slice(), arguments.as_slice())
}
