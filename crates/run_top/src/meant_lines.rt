// The lines of a run of a written meaning: what is printed, with strings and names of types, and the line of its ending.
ghost use Rattle.std.specs.Prelude.{◌≡◌, ◌++◌, ◌∷◌, [], IfOk, OnOk, map, option_map, slice_get, unwrap_or};
ghost use Rattle.mn_outside.specs.Causes.{Wrote};
ghost use Rattle.type_tree.specs.Printed.{printed};
ghost use Rattle.il_model.specs.declared.class.ClassDef.{ClassDef as TheClass};
ghost use Rattle.unshared.specs.Listed.{naming_of};
ghost use Rattle.cil_meaning.specs.Shown.{class_names as the_class_names, line_of as the_line_of, name_of_kind as the_name_of_kind, string_bytes as the_string_bytes};
ghost use Rattle.run_top.specs.Written.{event_bytes, line as the_line, meant_ending_line, meant_output, limit_line as the_limit_line, shown_meant, uncaught_line as the_uncaught_line};

use crate::record::MeantRun;
use crate::written::{TURNS_ARE_USED_UP, number_bytes, put};
use il_model::{ClassDef, Program};
use mn_outside::{Bytes, Failed, Name, NoMemory, Refused, Sink};
use sqlite_items::Items;
use std::alloc::{AllocError, Global};
use store_object::{Cause, Ending, Event, Form, Request};
use type_tree::{Tree, name_of};

// Words of strings: literals from the first on, names of types from the second on.
const STRINGS: u64 = 4294967296;

const NAMES: u64 = 8589934592;

fn add(names: &mut Items<Name>, name: Name) -> Result<(), AllocError>
    ensures { OnOk result (names.new ≡ names.old ++ name ∷ []) }
{
    names.push(name)
}

fn named(alloc: Global, text: &str) -> Result<Name, AllocError>
    ensures { IfOk result (λ name. name ≡ text.now) }
{
    Ok(Name::of(String::from_str(alloc, text)?))
}

// The names of classes, each at its number.
fn class_names(alloc: Global, classes: &[ClassDef]) -> Result<Items<Name>, AllocError>
    ensures { IfOk result (λ names. names ≡ map (λ (c : TheClass). c.name) classes.now) }
{
    let mut names = Items::new(alloc);
    for class in classes {
        let name = named(alloc, class.name.text())?;
        add(&mut names, name)?;
    }
    Ok(names)
}

// The bytes of the literal with this number, and none where there is none.
fn literal(alloc: Global, literals: &[Bytes], number: u64) -> Result<Vec<u8>, NoMemory>
    ensures { IfOk result (λ bytes. bytes.items ≡ unwrap_or (slice_get literals.now number) []) }
{
    match literals.get(number as usize) {
        Some(bytes) => match bytes.list().to_vec(alloc) {
            Ok(bytes) => Ok(bytes),
            Err(_) => Err(NoMemory),
        },
        None => Ok(Vec::new(alloc)),
    }
}

// The printed name of the type with this number, and nothing where there is none.
fn kind_name(alloc: Global, trees: &[Tree], names: &[Name], kind: u64) -> Result<Vec<u8>, NoMemory>
    ensures { IfOk result (λ bytes. bytes.items ≡ unwrap_or (option_map (printed names.now) (slice_get trees.now kind)) []) }
{
    match trees.get(kind as usize) {
        Some(tree) => name_of(alloc, tree, names),
        None => Ok(Vec::new(alloc)),
    }
}

// The bytes of a string word.
fn string(
    alloc: Global,
    program: &Program,
    trees: &[Tree],
    names: &[Name],
    word: u64,
) -> Result<Vec<u8>, NoMemory>
    requires { names.now ≡ the_class_names program.now }
    ensures { IfOk result (λ bytes. bytes.items ≡ the_string_bytes program.now (naming_of trees.now) word) }
{
    if word < STRINGS {
        return Ok(Vec::new(alloc));
    }
    if word < NAMES {
        return literal(alloc, program.literals.as_slice(), word - STRINGS);
    }
    kind_name(alloc, trees, names, word - NAMES)
}

// The bytes as a line with its end.
fn ended(mut bytes: Vec<u8>) -> Result<Vec<u8>, NoMemory>
    ensures { IfOk result (λ line. line.items ≡ the_line bytes.items) }
{
    match bytes.push(b'\n') {
        Ok(()) => Ok(bytes),
        Err(_) => Err(NoMemory),
    }
}

// The line of a printed word.
fn printed_line(
    alloc: Global,
    program: &Program,
    trees: &[Tree],
    names: &[Name],
    form: Form,
    word: u64,
) -> Result<Vec<u8>, NoMemory>
    requires { names.now ≡ the_class_names program.now }
    ensures { IfOk result (λ bytes. bytes.items ≡ the_line (the_line_of program.now (naming_of trees.now) form word)) }
{
    match form {
        Form::Number => number_bytes(alloc, word),
        Form::String => ended(string(alloc, program, trees, names, word)?),
    }
}

// Puts bytes.
fn put_bytes<K: Sink>(out: &mut K, bytes: &[u8]) -> Result<(), Refused<Failed>>
    ensures { Wrote (K.written out.old) (K.written out.new) (K.faults out.old) (K.faults out.new) result bytes.now }
{
    out.put(bytes)
}

// Puts the line of an event, where it prints.
fn show_event<K: Sink>(
    alloc: Global,
    program: &Program,
    trees: &[Tree],
    names: &[Name],
    event: &Event,
    out: &mut K,
) -> Result<(), Refused<Failed>>
    requires { names.now ≡ the_class_names program.now }
    ensures { Wrote (K.written out.old) (K.written out.new) (K.faults out.old) (K.faults out.new) result (event_bytes program.now (naming_of trees.now) event.now.request) }
{
    let Request::Print { form, word } = event.request else {
        return Ok(());
    };
    match printed_line(alloc, program, trees, names, form, word) {
        Ok(line) => put_bytes(out, line.as_slice()),
        Err(NoMemory) => Err(Refused::NoMemory),
    }
}

// Puts the lines of a history, one at a time.
fn show_history<K: Sink>(
    alloc: Global,
    program: &Program,
    trees: &[Tree],
    names: &[Name],
    history: &[Event],
    out: &mut K,
) -> Result<(), Refused<Failed>>
    requires { names.now ≡ the_class_names program.now }
    ensures { Wrote (K.written out.old) (K.written out.new) (K.faults out.old) (K.faults out.new) result (meant_output program.now (naming_of trees.now) history.now) }
{
    for event in history {
        match show_event(alloc, program, trees, names, event, out) {
            Ok(()) => {}
            Err(refused) => return Err(refused),
        }
    }
    Ok(())
}

// The line of a run that passed a limit.
fn limit_line(cause: Cause) -> &'static str
    ensures { result.now ≡ the_limit_line cause }
{
    match cause {
        Cause::Depth => "Stopped: Depth\n",
        Cause::Positions => "Stopped: Positions\n",
        Cause::ValueWords => "Stopped: ValueWords\n",
        Cause::Heap => "Stopped: Heap\n",
        Cause::Threads => "Stopped: Threads\n",
    }
}

// The printed name of a kind, by the names of the program's classes.
fn type_name(
    alloc: Global,
    program: &Program,
    trees: &[Tree],
    names: &[Name],
    kind: u32,
) -> Result<Vec<u8>, NoMemory>
    requires { names.now ≡ the_class_names program.now }
    ensures { IfOk result (λ bytes. bytes.items ≡ the_name_of_kind program.now (naming_of trees.now) kind) }
{
    let _program = program;
    kind_name(alloc, trees, names, u64::from(kind))
}

// The line of an uncaught exception, whose type has this name.
fn uncaught_line(alloc: Global, name: &[u8]) -> Result<Vec<u8>, AllocError>
    ensures { IfOk result (λ bytes. bytes.items ≡ the_uncaught_line name.now) }
{
    let mut line = b"Unhandled exception: ".to_vec(alloc)?;
    line.extend_from_slice(name)?;
    line.push(b'\n')?;
    Ok(line)
}

// The line of an uncaught exception of this kind.
fn exception_line(
    alloc: Global,
    program: &Program,
    trees: &[Tree],
    names: &[Name],
    kind: u32,
) -> Result<Vec<u8>, NoMemory>
    requires { names.now ≡ the_class_names program.now }
    ensures { IfOk result (λ bytes. bytes.items ≡ the_uncaught_line (the_name_of_kind program.now (naming_of trees.now) kind)) }
{
    let name = type_name(alloc, program, trees, names, kind)?;
    match uncaught_line(alloc, name.as_slice()) {
        Ok(line) => Ok(line),
        Err(_) => Err(NoMemory),
    }
}

// Puts the line of an ending, where it has one.
fn show_ending<K: Sink>(
    alloc: Global,
    program: &Program,
    trees: &[Tree],
    names: &[Name],
    ending: Ending,
    out: &mut K,
) -> Result<(), Refused<Failed>>
    requires { names.now ≡ the_class_names program.now }
    ensures { Wrote (K.written out.old) (K.written out.new) (K.faults out.old) (K.faults out.new) result (meant_ending_line program.now (naming_of trees.now) ending) }
{
    match ending {
        Ending::Turns => put(out, TURNS_ARE_USED_UP),
        Ending::Stopped { cause } => put(out, limit_line(cause)),
        Ending::Uncaught { kind } => match exception_line(alloc, program, trees, names, kind) {
            Ok(line) => put_bytes(out, line.as_slice()),
            Err(NoMemory) => Err(Refused::NoMemory),
        },
        Ending::Done | Ending::Full { .. } | Ending::Fault { .. } => Ok(()),
    }
}

// Puts the lines of a run, under the names of the program's classes.
fn show_named<K: Sink>(
    alloc: Global,
    run: &MeantRun,
    names: &[Name],
    out: &mut K,
) -> Result<(), Refused<Failed>>
    requires { names.now ≡ the_class_names run.now.program.program }
    ensures { Wrote (K.written out.old) (K.written out.new) (K.faults out.old) (K.faults out.new) result (shown_meant run.now) }
{
    let program = &run.program.program;
    let trees = run.meant.trees.as_slice();
    match show_history(
        alloc,
        program,
        trees,
        names,
        run.meant.history.as_slice(),
        out,
    ) {
        Ok(()) => show_ending(alloc, program, trees, names, run.meant.ending, out),
        Err(refused) => Err(refused),
    }
}

/// Puts the lines of a run of a written meaning, one at a time.
pub(crate) fn show_meant<K: Sink>(
    alloc: Global,
    run: &MeantRun,
    out: &mut K,
) -> Result<(), Refused<Failed>>
    ensures { Wrote (K.written out.old) (K.written out.new) (K.faults out.old) (K.faults out.new) result (shown_meant run.now) }
{
    match class_names(alloc, run.program.program.classes.as_slice()) {
        Ok(names) => show_named(alloc, run, names.as_slice(), out),
        Err(_) => Err(Refused::NoMemory),
    }
}
