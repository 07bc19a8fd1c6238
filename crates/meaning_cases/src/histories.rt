// Which requests small programs make, and what the store replies, by hand.
use crate::rows::{Row, cause_name, verified, write_name};
use cil_verify::Verified;
use std::alloc::Global;
use std::process::Abort;
use std::test::Fail;
use store_object::{Chooser, Event, Form, Place, Reply, Request};
use unshared::{Meant, mean};

// Puts the name of the type with a number.
fn write_kind(
    alloc: Global,
    program: &Verified,
    meant: &Meant,
    kind: u32,
    text: &mut String,
) -> Result<(), Fail> {
    let Some(kind) = meant.trees.as_slice().get(kind as usize) else {
        return Err(Fail::new("no such type"));
    };
    write_name(alloc, program, kind, text)
}

fn write_number(alloc: Global, number: u64, text: &mut String) -> Result<(), Fail> {
    let number = number.to_string(alloc)?;
    text.push_str(" ")?;
    text.push_str(number.as_str())?;
    Ok(())
}

fn write_place(
    alloc: Global,
    program: &Verified,
    meant: &Meant,
    place: Place,
    text: &mut String,
) -> Result<(), Fail> {
    match place {
        Place::Object { object, index } => {
            text.push_str(" object")?;
            write_number(alloc, u64::from(object), text)?;
            write_number(alloc, u64::from(index), text)
        }
        Place::Fixed { kind, index } => {
            text.push_str(" static ")?;
            write_kind(alloc, program, meant, kind, text)?;
            write_number(alloc, u64::from(index), text)
        }
    }
}

// A request that names a place and a word.
fn write_word(
    alloc: Global,
    program: &Verified,
    meant: &Meant,
    name: &str,
    place: Place,
    word: u64,
    text: &mut String,
) -> Result<(), Fail> {
    text.push_str(name)?;
    write_place(alloc, program, meant, place, text)?;
    write_number(alloc, word, text)
}

fn write_request(
    alloc: Global,
    program: &Verified,
    meant: &Meant,
    request: Request,
    text: &mut String,
) -> Result<(), Fail> {
    match request {
        Request::Alloc {
            kind,
            length,
            words,
        } => {
            text.push_str("alloc ")?;
            write_kind(alloc, program, meant, kind, text)?;
            write_number(alloc, u64::from(length), text)?;
            write_number(alloc, words, text)
        }
        Request::TypeOf { object } => {
            text.push_str("typeof")?;
            write_number(alloc, u64::from(object), text)
        }
        Request::Length { object } => {
            text.push_str("length")?;
            write_number(alloc, u64::from(object), text)
        }
        Request::Load { place } => {
            text.push_str("load")?;
            write_place(alloc, program, meant, place, text)
        }
        Request::Save { place, word } => {
            write_word(alloc, program, meant, "save", place, word, text)
        }
        Request::Exchange { place, word } => {
            write_word(alloc, program, meant, "exchange", place, word, text)
        }
        Request::CompareExchange {
            place,
            word,
            comparand,
        } => {
            write_word(alloc, program, meant, "compareexchange", place, word, text)?;
            write_number(alloc, comparand, text)
        }
        Request::Add { place, word, .. } => {
            write_word(alloc, program, meant, "add", place, word, text)
        }
        Request::Print {
            form: Form::Number,
            word,
        } => {
            text.push_str("print number ")?;
            let number = word.cast_signed().to_string(alloc)?;
            text.push_str(number.as_str())?;
            Ok(())
        }
        Request::Print {
            form: Form::String,
            word,
        } => {
            text.push_str("print string")?;
            write_number(alloc, word, text)
        }
        Request::Start { object } => {
            text.push_str("start")?;
            write_number(alloc, u64::from(object), text)
        }
        Request::Ended { thread } => {
            text.push_str("ended")?;
            write_number(alloc, u64::from(thread), text)
        }
        Request::Finish => {
            text.push_str("finish")?;
            Ok(())
        }
        Request::Fall { kind } => {
            text.push_str("fall ")?;
            write_kind(alloc, program, meant, kind, text)
        }
        Request::Stop { cause } => {
            text.push_str("stop ")?;
            text.push_str(cause_name(cause))?;
            Ok(())
        }
    }
}

fn write_reply(
    alloc: Global,
    program: &Verified,
    meant: &Meant,
    reply: Reply,
    text: &mut String,
) -> Result<(), Fail> {
    match reply {
        Reply::Object(number) => {
            text.push_str("object")?;
            write_number(alloc, u64::from(number), text)
        }
        Reply::Kind(kind) => {
            text.push_str("type ")?;
            write_kind(alloc, program, meant, kind, text)
        }
        Reply::Word(word) => {
            text.push_str("word")?;
            write_number(alloc, word, text)
        }
        Reply::Thread(number) => {
            text.push_str("thread")?;
            write_number(alloc, u64::from(number), text)
        }
        Reply::Ended(true) => Ok(text.push_str("yes")?),
        Reply::Ended(false) => Ok(text.push_str("no")?),
        Reply::Unknown => Ok(text.push_str("unknown")?),
        Reply::Done => Ok(text.push_str("done")?),
        Reply::Stopped(cause) => {
            text.push_str("stopped ")?;
            text.push_str(cause_name(cause))?;
            Ok(())
        }
        Reply::Halted | Reply::Improper => Err(Fail::new("a refusal is not kept")),
    }
}

fn write_event(
    alloc: Global,
    program: &Verified,
    meant: &Meant,
    event: &Event,
    text: &mut String,
) -> Result<(), Fail> {
    let thread = event.thread.to_string(alloc)?;
    text.push_str(thread.as_str())?;
    text.push_str(" ")?;
    write_request(alloc, program, meant, event.request, text)?;
    text.push_str(" -> ")?;
    write_reply(alloc, program, meant, event.reply, text)?;
    text.push_str("\n")?;
    Ok(())
}

// The first four programs and their histories.
const SIMPLE: [Row; 4] = [
    (
        ".class P { .method static void Main() { .entrypoint ldc.i4 2147483647 ldc.i4 1 add call void System.Console::WriteLine(int32) ldc.i4 2 ldc.i4 3 add call void System.Console::WriteLine(int32) ret } }",
        "0 print number -2147483648 -> done\n0 print number 5 -> done\n0 finish -> done\n",
    ),
    (
        ".class P { .method static void Main() { .entrypoint ldc.i4 1 ldc.i4 33 shl call void System.Console::WriteLine(int32) ldc.i4 -8 ldc.i4 33 shr call void System.Console::WriteLine(int32) ret } }",
        "0 print number 2 -> done\n0 print number -4 -> done\n0 finish -> done\n",
    ),
    (
        ".class P { .method static void Main() { .entrypoint ldc.i4 -7 ldc.i4 2 rem call void System.Console::WriteLine(int32) ldc.i4 1 ldc.i4 0 rem pop ret } }",
        "0 print number -1 -> done\n0 alloc System.DivideByZeroException 0 0 -> object 1\n0 fall System.DivideByZeroException -> done\n",
    ),
    (
        ".class P { .method static void F() { ldc.i4 7 call void System.Console::WriteLine(int32) ret } .method static void Main() { .entrypoint call void P::F() ldc.i4 8 call void System.Console::WriteLine(int32) ret } }",
        "0 print number 7 -> done\n0 print number 8 -> done\n0 finish -> done\n",
    ),
];

// The others, with objects, places and statics.
const WITH_PLACES: [Row; 4] = [
    (
        ".class struct S { .field int32 a .field int32 b } .class P { .method static void Main() { .entrypoint .locals init (S) ldloca 0 ldc.i4 5 stfld int32 S::b ldloca 0 ldfld int32 S::b call void System.Console::WriteLine(int32) ret } }",
        "0 print number 5 -> done\n0 finish -> done\n",
    ),
    (
        ".class P { .method static void Main() { .entrypoint ldc.i4 1 newarr string ldc.i4 0 newobj instance void object::.ctor() stelem object ret } }",
        "0 alloc string[] 1 1 -> object 1\n0 alloc object 0 0 -> object 2\n0 length 1 -> word 1\n0 typeof 1 -> type string[]\n0 typeof 2 -> type object\n0 alloc System.ArrayTypeMismatchException 0 0 -> object 3\n0 fall System.ArrayTypeMismatchException -> done\n",
    ),
    (
        ".class interface I { .method abstract void F(); } .class struct S implements I { .field int32 a .method virtual void F() { ldarg 0 ldfld int32 S::a call void System.Console::WriteLine(int32) ret } } .class P { .method static void Main() { .entrypoint .locals init (S) ldloca 0 ldc.i4 6 stfld int32 S::a ldloc 0 box S callvirt instance void I::F() ret } }",
        "0 alloc S 0 1 -> object 1\n0 save object 1 0 6 -> done\n0 typeof 1 -> type S\n0 load object 1 0 -> word 6\n0 print number 6 -> done\n0 finish -> done\n",
    ),
    (
        ".class P { .field static int32 s .method static void Main() { .entrypoint ldc.i4 3 stsfld int32 P::s ldsflda int32 P::s ldc.i4 4 call int32 System.Threading.Interlocked::Exchange(int32&, int32) call void System.Console::WriteLine(int32) ldsfld int32 P::s call void System.Console::WriteLine(int32) ret } }",
        "0 save static P 0 3 -> done\n0 exchange static P 0 4 -> word 3\n0 print number 3 -> done\n0 load static P 0 -> word 4\n0 print number 4 -> done\n0 finish -> done\n",
    ),
];

// The lines of a history.
fn lines_of(alloc: Global, program: &Verified, meant: &Meant) -> Result<String, Fail> {
    let mut lines = String::new(alloc);
    for event in meant.history.as_slice() {
        write_event(alloc, program, meant, event, &mut lines)?;
    }
    Ok(lines)
}

// The lines of the history that a text's program has.
fn history_of(alloc: Global, text: &str) -> Result<String, Fail> {
    let program = verified(alloc, text)?;
    let meant = mean(alloc, &program, Chooser::Seed(0), 4000000)?;
    lines_of(alloc, &program, &meant)
}

fn check_histories(rt: &impl Abort, alloc: Global, rows: &[Row]) -> Result<(), Fail> {
    for (text, wanted) in rows {
        let lines = history_of(alloc, *text)?;
        assert!(rt; lines.as_str() == *wanted, "{text} gives {lines}");
    }
    Ok(())
}

#[test]
fn simple_programs_have_these_histories(rt: HostRuntime) -> Result<(), Fail> {
    check_histories(&rt, rt.alloc(), &SIMPLE)
}

#[test]
fn programs_with_places_have_these_histories(rt: HostRuntime) -> Result<(), Fail> {
    check_histories(&rt, rt.alloc(), &WITH_PLACES)
}
