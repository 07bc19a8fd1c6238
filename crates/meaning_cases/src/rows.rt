// What programs mean, by their written texts.
ghost use Rattle.std.specs.Prelude.{IfOk};
ghost use Rattle.cil_verify.specs.Verifies.{IsVerified};

use cil_verify::{Verified, fits_numbers, verify};
use il_parse::parse;
use std::alloc::{AllocError, Global};
use std::process::Abort;
use std::test::Fail;
use store_object::{Cause, Chooser, Ending, Form, Request};
use type_tree::name_of;
use unshared::{Meant, mean};

// A program with these instructions in Main.
fn main_text(alloc: Global, instrs: &str) -> Result<String, AllocError> {
    format!(in alloc; ".class P {{ .method static void Main() {{ .entrypoint {instrs} ret }} }}")
}

pub(crate) fn verified(alloc: Global, text: &str) -> Result<Verified, Fail>
    ensures { IfOk result IsVerified }
{
    let parsed = match parse(alloc, text.as_bytes()) {
        Ok(parsed) => parsed,
        Err(_) => return Err(Fail::new("the text is refused")),
    };
    if !fits_numbers(&parsed.program) {
        return Err(Fail::new("the program is too large"));
    }
    match verify(alloc, parsed.program) {
        Ok(verified) => Ok(verified),
        Err(_) => Err(Fail::new("the program is refused")),
    }
}

// What a word prints.
fn write_word(
    alloc: Global,
    program: &Verified,
    meant: &Meant,
    form: Form,
    word: u64,
    text: &mut String,
) -> Result<(), Fail> {
    match form {
        Form::Number => {
            let number = word.cast_signed().to_string(alloc)?;
            text.push_str(number.as_str())?;
        }
        Form::String => {
            if word >= 8589934592 {
                let Some(kind) = meant.trees.as_slice().get((word - 8589934592) as usize) else {
                    return Err(Fail::new("no such type"));
                };
                write_name(alloc, program, kind, text)?;
            } else if word >= 4294967296 {
                let literals = program.program().literals.as_slice();
                let Some(literal) = literals.get((word - 4294967296) as usize) else {
                    return Err(Fail::new("no such literal"));
                };
                for byte in literal.list() {
                    text.push(*byte as char)?;
                }
            }
        }
    }
    text.push_str("\n")?;
    Ok(())
}

pub(crate) fn write_name(
    alloc: Global,
    program: &Verified,
    kind: &type_tree::TExpr,
    text: &mut String,
) -> Result<(), Fail> {
    let mut names = Vec::new(alloc);
    for class in program.program().classes.as_slice() {
        names.push(mn_outside::Name::of(String::from_str(alloc, class.name.text())?))?;
    }
    let name = name_of(alloc, kind, names.as_slice())?;
    for byte in name.as_slice() {
        text.push(*byte as char)?;
    }
    Ok(())
}

pub(crate) fn cause_name(cause: Cause) -> &'static str {
    match cause {
        Cause::Depth => "Depth",
        Cause::Positions => "Positions",
        Cause::ValueWords => "ValueWords",
        Cause::Heap => "Heap",
        Cause::Threads => "Threads",
    }
}

// The lines that a run shows.
fn shown(alloc: Global, program: &Verified, meant: &Meant) -> Result<String, Fail> {
    let mut text = String::new(alloc);
    for event in meant.history.as_slice() {
        if let Request::Print { form, word } = event.request {
            write_word(alloc, program, meant, form, word, &mut text)?;
        }
    }
    match meant.ending {
        Ending::Done => {}
        Ending::Turns => text.push_str("Stopped: Turns\n")?,
        Ending::Stopped { cause } => {
            text.push_str("Stopped: ")?;
            text.push_str(cause_name(cause))?;
            text.push_str("\n")?;
        }
        Ending::Uncaught { kind } => {
            text.push_str("Unhandled exception: ")?;
            let Some(kind) = meant.trees.as_slice().get(kind as usize) else {
                return Err(Fail::new("no such type"));
            };
            write_name(alloc, program, kind, &mut text)?;
            text.push_str("\n")?;
        }
        Ending::Fault { .. } => text.push_str("No rule\n")?,
        Ending::Full { .. } => text.push_str("Full\n")?,
    }
    Ok(text)
}

fn ran(alloc: Global, text: &str, turns: u32) -> Result<String, Fail> {
    let program = verified(alloc, text)?;
    let meant = mean(alloc, &program, Chooser::Seed(0), turns)?;
    shown(alloc, &program, &meant)
}

const W: &str = "call void System.Console::WriteLine(int32)";

const L: &str = "call void System.Console::WriteLine(int64)";

/// A text or its instructions, and what it gives.
pub(crate) type Row = (&'static str, &'static str);

// Rows on one method's instructions, of which `W` and `L` print: what int32 gives.
const INT32: [Row; 18] = [
    ("ldc.i4 2 ldc.i4 3 add W", "5\n"),
    ("ldc.i4 2147483647 ldc.i4 1 add W", "-2147483648\n"),
    ("ldc.i4 -7 ldc.i4 2 rem W", "-1\n"),
    ("ldc.i4 -7 ldc.i4 2 div W", "-3\n"),
    (
        "ldc.i4 1 ldc.i4 33 shl W ldc.i4 -8 ldc.i4 33 shr W",
        "2\n-4\n",
    ),
    ("ldc.i4 -8 ldc.i4 1 shr.un W", "2147483644\n"),
    (
        "ldc.i4 10 ldc.i4 3 sub W ldc.i4 3 ldc.i4 10 sub W",
        "7\n-7\n",
    ),
    (
        "ldc.i4 65536 dup mul W ldc.i4 -3 ldc.i4 7 mul W",
        "0\n-21\n",
    ),
    (
        "ldc.i4 12 ldc.i4 10 and W ldc.i4 12 ldc.i4 10 or W ldc.i4 12 ldc.i4 10 xor W",
        "8\n14\n6\n",
    ),
    ("ldc.i4 5 neg W ldc.i4 5 not W", "-5\n-6\n"),
    ("ldc.i4 -2147483648 neg W", "-2147483648\n"),
    (
        "ldc.i4 -1 ldc.i4 2 div.un W ldc.i4 -1 ldc.i4 10 rem.un W",
        "2147483647\n5\n",
    ),
    ("ldc.i4 0 ldc.i4 1 sub.ovf W", "-1\n"),
    ("ldc.i4 -1 ldc.i4 0 add.ovf.un W", "-1\n"),
    ("ldc.i4 65535 dup mul.ovf.un W", "-131071\n"),
    (
        "ldc.i4 1 ldc.i4 -1 clt W ldc.i4 1 ldc.i4 -1 clt.un W",
        "0\n1\n",
    ),
    (
        "ldc.i4 1 ldc.i4 -1 cgt W ldc.i4 1 ldc.i4 -1 cgt.un W",
        "1\n0\n",
    ),
    (
        "ldc.i4 4 ldc.i4 4 ceq W ldnull ldnull ceq W ldstr \"a\" ldnull cgt.un W",
        "1\n1\n1\n",
    ),
];

// Where int32 throws.
const INT32_THROWS: [Row; 8] = [
    (
        "ldc.i4 2147483647 ldc.i4 1 add.ovf W",
        "Unhandled exception: System.OverflowException\n",
    ),
    (
        "ldc.i4 -2147483648 ldc.i4 -1 div W",
        "Unhandled exception: System.OverflowException\n",
    ),
    (
        "ldc.i4 -2147483648 ldc.i4 -1 rem W",
        "Unhandled exception: System.OverflowException\n",
    ),
    (
        "ldc.i4 1 ldc.i4 0 rem W",
        "Unhandled exception: System.DivideByZeroException\n",
    ),
    (
        "ldc.i4 0 ldc.i4 1 sub.ovf.un W",
        "Unhandled exception: System.OverflowException\n",
    ),
    (
        "ldc.i4 -1 ldc.i4 1 add.ovf.un W",
        "Unhandled exception: System.OverflowException\n",
    ),
    (
        "ldc.i4 65535 dup mul.ovf W",
        "Unhandled exception: System.OverflowException\n",
    ),
    (
        "ldc.i4 5 ldc.i4 0 div.un W",
        "Unhandled exception: System.DivideByZeroException\n",
    ),
];

// What int64 and conversions give.
const INT64: [Row; 11] = [
    (
        "ldc.i8 9223372036854775807 ldc.i8 1 add L",
        "-9223372036854775808\n",
    ),
    (
        "ldc.i4 -1 conv.u8 L ldc.i4 -1 conv.i8 L",
        "4294967295\n-1\n",
    ),
    (
        "ldc.i8 4294967297 conv.i4 W ldc.i8 2147483648 conv.i4 W",
        "1\n-2147483648\n",
    ),
    (
        "ldc.i8 7 ldc.i8 -2 div L ldc.i8 7 ldc.i8 -2 rem L",
        "-3\n1\n",
    ),
    (
        "ldc.i8 1 ldc.i4 65 shl L ldc.i8 -8 ldc.i4 65 shr L ldc.i8 -8 ldc.i4 1 shr.un L",
        "2\n-4\n9223372036854775804\n",
    ),
    (
        "ldc.i8 -1 ldc.i8 10 div.un L ldc.i8 -1 ldc.i8 10 rem.un L",
        "1844674407370955161\n5\n",
    ),
    (
        "ldc.i8 12 ldc.i8 10 and L ldc.i8 12 ldc.i8 10 or L ldc.i8 12 ldc.i8 10 xor L",
        "8\n14\n6\n",
    ),
    (
        "ldc.i8 5 neg L ldc.i8 5 not L ldc.i8 3 ldc.i8 4 sub L ldc.i8 3 ldc.i8 4 mul L",
        "-5\n-6\n-1\n12\n",
    ),
    (
        "ldc.i8 4294967296 ldc.i8 4294967295 mul.ovf.un L",
        "-4294967296\n",
    ),
    (
        "ldc.i8 1 ldc.i8 -1 clt W ldc.i8 1 ldc.i8 -1 clt.un W ldc.i8 3 ldc.i8 3 ceq W",
        "0\n1\n1\n",
    ),
    ("ldc.i8 -1 conv.ovf.i4 W", "-1\n"),
];

// Where int64 and conversions throw.
const INT64_THROWS: [Row; 7] = [
    (
        "ldc.i8 9223372036854775807 ldc.i8 1 add.ovf L",
        "Unhandled exception: System.OverflowException\n",
    ),
    (
        "ldc.i8 -9223372036854775808 ldc.i8 -1 div L",
        "Unhandled exception: System.OverflowException\n",
    ),
    (
        "ldc.i8 2147483648 conv.ovf.i4 W",
        "Unhandled exception: System.OverflowException\n",
    ),
    (
        "ldc.i8 0 ldc.i8 1 sub.ovf.un L",
        "Unhandled exception: System.OverflowException\n",
    ),
    (
        "ldc.i8 -9223372036854775808 ldc.i8 1 sub.ovf L",
        "Unhandled exception: System.OverflowException\n",
    ),
    (
        "ldc.i8 4294967296 dup mul.ovf L",
        "Unhandled exception: System.OverflowException\n",
    ),
    (
        "ldc.i8 5 ldc.i8 0 div L",
        "Unhandled exception: System.DivideByZeroException\n",
    ),
];

// Branches.
const BRANCHES: [Row; 8] = [
    (
        "ldc.i4 1 brtrue a ldc.i4 9 W a: ldc.i4 1 brfalse b ldc.i4 8 W b: nop",
        "8\n",
    ),
    (
        "ldc.i4 -1 ldc.i4 1 blt a ldc.i4 9 W a: ldc.i4 -1 ldc.i4 1 blt.un b ldc.i4 8 W b: nop",
        "8\n",
    ),
    (
        "ldc.i4 1 switch (a, b) ldc.i4 9 W a: ldc.i4 8 W b: ldc.i4 -1 switch (a, b) ldc.i4 7 W",
        "7\n",
    ),
    (
        "ldc.i4 1 ldc.i4 1 beq a ldc.i4 9 W a: ldc.i4 1 ldc.i4 2 beq b ldc.i4 8 W b: nop",
        "8\n",
    ),
    (
        "ldc.i4 1 ldc.i4 2 bne.un a ldc.i4 9 W a: ldc.i4 1 ldc.i4 1 bne.un b ldc.i4 8 W b: nop",
        "8\n",
    ),
    (
        "ldc.i4 1 ldc.i4 1 bge a ldc.i4 9 W a: ldc.i4 1 ldc.i4 1 bgt b ldc.i4 8 W b: ldc.i4 1 ldc.i4 1 ble c ldc.i4 7 W c: nop",
        "8\n",
    ),
    (
        "ldc.i4 -1 ldc.i4 1 bge.un a ldc.i4 9 W a: ldc.i4 -1 ldc.i4 1 bgt.un b ldc.i4 8 W b: ldc.i4 -1 ldc.i4 1 ble.un c ldc.i4 7 W c: nop",
        "7\n",
    ),
    ("br a ldc.i4 9 W a: ldc.i4 1 ldc.i4 2 pop W", "1\n"),
];

// Vectors.
const VECTORS: [Row; 10] = [
    ("ldc.i4 4194302 newarr int64 ldlen conv.i4 W", "4194302\n"),
    (
        "ldc.i4 4194303 newarr int64 ldlen conv.i4 W",
        "Stopped: Heap\n",
    ),
    (
        "ldc.i4 -1 newarr int64 ldlen conv.i4 W",
        "Unhandled exception: System.OverflowException\n",
    ),
    (
        "ldnull ldlen conv.i4 W",
        "Unhandled exception: System.NullReferenceException\n",
    ),
    (
        "ldc.i4 1 newarr int32 ldc.i4 1 ldelem int32 W",
        "Unhandled exception: System.IndexOutOfRangeException\n",
    ),
    (
        "ldc.i4 1 newarr bool dup ldc.i4 0 ldc.i4 257 stelem bool ldc.i4 0 ldelem bool W",
        "1\n",
    ),
    (
        "ldc.i4 3 newarr int32 ldlen conv.i8 L ldc.i4 3 newarr int32 ldlen conv.u8 L ldc.i4 3 newarr int32 ldlen conv.ovf.i4 W",
        "3\n3\n3\n",
    ),
    (
        "ldc.i4 2 newarr int32 ldlen newarr int32 ldlen conv.i4 W",
        "2\n",
    ),
    (
        "ldc.i4 1 newarr int32 ldc.i4 -1 ldelem int32 W",
        "Unhandled exception: System.IndexOutOfRangeException\n",
    ),
    (
        "ldnull ldc.i4 0 ldelem int32 W",
        "Unhandled exception: System.NullReferenceException\n",
    ),
];

// Boxes, casts, strings and exceptions.
const OBJECTS: [Row; 7] = [
    ("ldc.i4 6 box int32 unbox.any int32 W", "6\n"),
    (
        "ldc.i4 6 box int32 unbox.any int64 L",
        "Unhandled exception: System.InvalidCastException\n",
    ),
    (
        "ldstr \"hello\" call void System.Console::WriteLine(string) ldnull call void System.Console::WriteLine(string)",
        "hello\n\n",
    ),
    (
        "ldnull throw",
        "Unhandled exception: System.NullReferenceException\n",
    ),
    (
        "ldnull isinst string ldnull ceq W ldnull castclass string pop ldc.i4 2 W",
        "1\n2\n",
    ),
    (
        "ldnull unbox.any int32 W",
        "Unhandled exception: System.NullReferenceException\n",
    ),
    (
        "newobj instance void System.OverflowException::.ctor() throw",
        "Unhandled exception: System.OverflowException\n",
    ),
];

// The instructions with the calls written out.
fn written_out(alloc: Global, instrs: &str) -> Result<String, AllocError> {
    let mut text = String::new(alloc);
    for word in instrs.split_whitespace() {
        if word == "W" {
            text.push_str(W)?;
        } else if word == "L" {
            text.push_str(L)?;
        } else {
            text.push_str(word)?;
        }
        text.push_str(" ")?;
    }
    Ok(text)
}

fn check_rows(rt: &impl Abort, alloc: Global, rows: &[Row]) -> Result<(), Fail> {
    for (instrs, wanted) in rows {
        let instrs = written_out(alloc, *instrs)?;
        let text = main_text(alloc, instrs.as_str())?;
        let shown = ran(alloc, text.as_str(), 4000000)?;
        assert!(rt; shown.as_str() == *wanted, "{instrs} gives {shown}");
    }
    Ok(())
}

#[test]
fn int32_gives(rt: HostRuntime) -> Result<(), Fail> {
    check_rows(&rt, rt.alloc(), &INT32)
}

#[test]
fn int32_throws(rt: HostRuntime) -> Result<(), Fail> {
    check_rows(&rt, rt.alloc(), &INT32_THROWS)
}

#[test]
fn int64_gives(rt: HostRuntime) -> Result<(), Fail> {
    check_rows(&rt, rt.alloc(), &INT64)
}

#[test]
fn int64_throws(rt: HostRuntime) -> Result<(), Fail> {
    check_rows(&rt, rt.alloc(), &INT64_THROWS)
}

#[test]
fn branches_go(rt: HostRuntime) -> Result<(), Fail> {
    check_rows(&rt, rt.alloc(), &BRANCHES)
}

#[test]
fn vectors_hold(rt: HostRuntime) -> Result<(), Fail> {
    check_rows(&rt, rt.alloc(), &VECTORS)
}

#[test]
fn objects_are_tested_and_thrown(rt: HostRuntime) -> Result<(), Fail> {
    check_rows(&rt, rt.alloc(), &OBJECTS)
}

// A text whose Main calls R with a number; R calls itself until it is 0.
fn recursion(alloc: Global, depth: u32) -> Result<String, AllocError> {
    format!(in alloc;
        ".class P {{ .method static void R(int32) {{ ldarg 0 brfalse done ldarg 0 ldc.i4 1 sub call void P::R(int32) done: ret }} .method static void Main() {{ .entrypoint ldc.i4 {depth} call void P::R(int32) ret }} }}"
    )
}

#[test]
fn frames_are_at_most_1024(rt: HostRuntime) -> Result<(), Fail> {
    let alloc = rt.alloc();
    for (depth, wanted) in [(1022, ""), (1023, "Stopped: Depth\n")] {
        let text = recursion(alloc, depth)?;
        let shown = ran(alloc, text.as_str(), 4000000)?;
        assert!(rt; shown.as_str() == wanted, "{depth} gives {shown}");
    }
    Ok(())
}

#[test]
fn the_last_turn_is_finish(rt: HostRuntime) -> Result<(), Fail> {
    let alloc = rt.alloc();
    let instrs = written_out(alloc, "ldc.i4 2 ldc.i4 3 add W")?;
    let text = main_text(alloc, instrs.as_str())?;
    let program = verified(alloc, text.as_str())?;
    for (turns, wanted, taken) in [
        (5, "5\n", 5),
        (4, "5\nStopped: Turns\n", 4),
        (3, "Stopped: Turns\n", 3),
    ] {
        let meant = mean(alloc, &program, Chooser::Seed(0), turns)?;
        let shown = shown(alloc, &program, &meant)?;
        assert!(rt; shown.as_str() == wanted, "{turns} gives {shown}");
        assert_eq!(rt; meant.order.len(), taken);
        assert_eq!(rt; meant.schedule.len(), taken);
        assert_eq!(rt; meant.schedule[0], 167951807);
    }
    Ok(())
}

// Whole texts, with objects.
const WITH_OBJECTS: [Row; 4] = [
    // Covariant vectors.
    (
        ".class P { .method static void Put(object[]) { ldarg 0 ldc.i4 0 newobj instance void object::.ctor() stelem object ret } .method static void Main() { .entrypoint ldc.i4 1 newarr string call void P::Put(object[]) ret } }",
        "Unhandled exception: System.ArrayTypeMismatchException\n",
    ),
    // Virtual calls, fields, statics and casts.
    (
        ".class A { .field int32 n .field static int32 made .method void .ctor() { ldarg 0 call instance void object::.ctor() ldarg 0 ldc.i4 3 stfld int32 A::n ldsfld int32 A::made ldc.i4 1 add stsfld int32 A::made ret } .method newslot virtual int32 F() { ldarg 0 ldfld int32 A::n ret } } .class B extends A { .method void .ctor() { ldarg 0 call instance void A::.ctor() ret } .method virtual int32 F() { ldc.i4 4 ret } } .class P { .method static void Main() { .entrypoint newobj instance void A::.ctor() callvirt instance int32 A::F() call void System.Console::WriteLine(int32) newobj instance void B::.ctor() callvirt instance int32 A::F() call void System.Console::WriteLine(int32) ldsfld int32 A::made call void System.Console::WriteLine(int32) newobj instance void A::.ctor() isinst B ldnull ceq call void System.Console::WriteLine(int32) newobj instance void A::.ctor() castclass B pop ret } }",
        "3\n4\n2\n1\nUnhandled exception: System.InvalidCastException\n",
    ),
    // An interface of a boxed struct.
    (
        ".class interface I { .method abstract void F(); } .class struct S implements I { .field int32 a .method virtual void F() { ldarg 0 ldfld int32 S::a call void System.Console::WriteLine(int32) ret } } .class P { .method static void Main() { .entrypoint .locals init (S) ldloca 0 ldc.i4 6 stfld int32 S::a ldloc 0 box S castclass I callvirt instance void I::F() ret } }",
        "6\n",
    ),
    // Interlocked, on a static field and on a local.
    (
        ".class P { .field static int32 s .method static void Main() { .entrypoint .locals init (int32) ldc.i4 3 stsfld int32 P::s ldsflda int32 P::s ldc.i4 4 call int32 System.Threading.Interlocked::Exchange(int32&, int32) call void System.Console::WriteLine(int32) ldsfld int32 P::s call void System.Console::WriteLine(int32) ldloca 0 ldc.i4 2 call int32 System.Threading.Interlocked::Add(int32&, int32) call void System.Console::WriteLine(int32) ldloca 0 ldc.i4 9 ldc.i4 2 call int32 System.Threading.Interlocked::CompareExchange(int32&, int32, int32) call void System.Console::WriteLine(int32) ldloc 0 call void System.Console::WriteLine(int32) ret } }",
        "3\n4\n2\n2\n9\n",
    ),
];

// Whole texts, with structs and bools.
const WITH_VALUES: [Row; 4] = [
    // Structs by value and by pointer.
    (
        ".class struct S { .field int32 a .field int64 b .method void .ctor(int32) { ldarg 0 ldarg 1 stfld int32 S::a ldarg 0 ldc.i8 5 stfld int64 S::b ret } .method int32 A() { ldarg 0 ldfld int32 S::a ret } } .class P { .method static S Same(S) { ldarg 0 ret } .method static void Main() { .entrypoint .locals init (S) ldc.i4 7 newobj instance void S::.ctor(int32) call S P::Same(S) stloc 0 ldloca 0 call instance int32 S::A() call void System.Console::WriteLine(int32) ldloc 0 ldfld int64 S::b call void System.Console::WriteLine(int64) ldloca 0 initobj S ldloca 0 ldfld int32 S::a call void System.Console::WriteLine(int32) ret } }",
        "7\n5\n0\n",
    ),
    // An argument of type bool keeps eight bits.
    (
        ".class P { .method static int32 F(bool) { ldarg 0 ret } .method static void Main() { .entrypoint ldc.i4 258 call int32 P::F(bool) call void System.Console::WriteLine(int32) ret } }",
        "2\n",
    ),
    // So do a local, a static field and a result.
    (
        ".class P { .field static bool s .method static bool R() { ldc.i4 258 ret } .method static void Main() { .entrypoint .locals init (bool) ldc.i4 259 stloc 0 ldloc 0 call void System.Console::WriteLine(int32) ldc.i4 260 stsfld bool P::s ldsfld bool P::s call void System.Console::WriteLine(int32) call bool P::R() call void System.Console::WriteLine(int32) ret } }",
        "3\n4\n2\n",
    ),
    // A vector of a struct of 17 words.
    (
        ".class struct Wide { .field int64 a .field int64 b .field int64 c .field int64 d .field int64 e .field int64 f .field int64 g .field int64 h .field int64 i .field int64 j .field int64 k .field int64 l .field int64 m .field int64 n .field int64 o .field int64 p .field int64 q } .class P { .method static void Main() { .entrypoint ldc.i4 0 newarr Wide pop ret } }",
        "Stopped: ValueWords\n",
    ),
];

// A type of so many positions has one more as a vector's element.
#[test]
fn types_have_at_most_256_positions(rt: HostRuntime) -> Result<(), Fail> {
    let alloc = rt.alloc();
    for (brackets, wanted) in [(254, ""), (255, "Stopped: Positions\n")] {
        let mut kind = String::from_str(alloc, "int32")?;
        for _bracket in 0..brackets {
            kind.push_str("[]")?;
        }
        let instrs = format!(in alloc; "ldc.i4 0 newarr {kind} pop")?;
        let text = main_text(alloc, instrs.as_str())?;
        let shown = ran(alloc, text.as_str(), 4000000)?;
        assert!(rt; shown.as_str() == wanted, "{brackets} gives {shown}");
    }
    Ok(())
}

fn check_programs(rt: &impl Abort, alloc: Global, rows: &[Row]) -> Result<(), Fail> {
    for (text, wanted) in rows {
        let shown = ran(alloc, *text, 4000000)?;
        assert!(rt; shown.as_str() == *wanted, "{text} gives {shown}");
    }
    Ok(())
}

#[test]
fn programs_with_objects(rt: HostRuntime) -> Result<(), Fail> {
    check_programs(&rt, rt.alloc(), &WITH_OBJECTS)
}

#[test]
fn programs_with_values(rt: HostRuntime) -> Result<(), Fail> {
    check_programs(&rt, rt.alloc(), &WITH_VALUES)
}
