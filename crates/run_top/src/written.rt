// What is written: a line for each print, and the line of each status.
ghost use Rattle.std.specs.Prelude.{◌≡◌, ◌++◌, IfOk, codes, string_bytes};
ghost use Rattle.std.specs.Fmt.{decimal};
ghost use Rattle.mn_outside.specs.Causes.{Wrote};
ghost use Rattle.store_object.specs.declared.request.Form.TheVariants.{Number};
ghost use Rattle.store_object.specs.declared.request.Request.TheVariants.{Print as Printed};
ghost use Rattle.run_top.specs.History.{line_of, output};
ghost use Rattle.run_top.specs.Written.{ending_line, line, shown};
ghost use Rattle.run_top.specs.Written.{accepted_line as the_accepted_line, file_line as the_file_line, status_of as the_status_of};

use crate::record::RunRecord;
use il_model::Program;
use mn_outside::{Failed, NoMemory, Refused, Sink};
use std::alloc::{AllocError, Global};
use store_object::{Ending, Event, Form, Request};

pub(crate) const USAGE: &str = "Usage\n";

pub(crate) const NO_MEMORY: &str = "No memory\n";

pub(crate) const TURNS_ARE_USED_UP: &str = "Stopped: Turns\n";

// Puts a line.
pub(crate) fn put<K: Sink>(out: &mut K, line: &str) -> Result<(), Refused<Failed>>
    ensures { Wrote (K.written out.old) (K.written out.new) (K.faults out.old) (K.faults out.new) result line.now }
{
    out.put(line.as_bytes())
}

// The line of a file that could not be read.
pub(crate) fn file_line(alloc: Global, name: &str) -> Result<String, NoMemory>
    ensures { IfOk result (λ line. string_bytes line ≡ the_file_line name.now) }
{
    match joined(alloc, "File ", name) {
        Ok(line) => Ok(line),
        Err(_) => Err(NoMemory),
    }
}

// Two texts as one line.
fn joined(alloc: Global, first: &str, second: &str) -> Result<String, AllocError>
    ensures { IfOk result (λ joined. string_bytes joined ≡ line (first.now ++ second.now)) }
{
    let mut joined = String::from_str(alloc, first)?;
    joined.push_str(second)?;
    joined.push_str("\n")?;
    Ok(joined)
}

// The words of a program that is accepted, with so many classes and methods.
fn accepted_words(alloc: Global, classes: usize, methods: usize) -> Result<String, AllocError>
    ensures { IfOk result (λ words. string_bytes words ≡ line (codes "Accepted " ++ decimal classes ++ codes " classes " ++ decimal methods ++ codes " methods")) }
{
    let mut words = String::from_str(alloc, "Accepted ")?;
    let classes = classes.to_string(alloc)?;
    words.push_str(classes.as_str())?;
    words.push_str(" classes ")?;
    let methods = methods.to_string(alloc)?;
    words.push_str(methods.as_str())?;
    words.push_str(" methods\n")?;
    Ok(words)
}

/// The line of a program that is accepted, which counts what the library doesn't have.
pub(crate) fn accepted_line(alloc: Global, program: &Program) -> Result<String, NoMemory>
    ensures { IfOk result (λ line. string_bytes line ≡ the_accepted_line program.now) }
{
    let classes = program.classes.len().saturating_sub(13);
    let methods = program.methods.len().saturating_sub(12);
    match accepted_words(alloc, classes, methods) {
        Ok(line) => Ok(line),
        Err(_) => Err(NoMemory),
    }
}

// The line of a printed word.
fn number_line(alloc: Global, word: u64) -> Result<String, AllocError>
    ensures { IfOk result (λ line. string_bytes line ≡ line_of (Printed Number word)) }
{
    let mut line = word.cast_signed().to_string(alloc)?;
    line.push_str("\n")?;
    Ok(line)
}

/// The same as bytes.
pub(crate) fn number_bytes(alloc: Global, word: u64) -> Result<Vec<u8>, NoMemory>
    ensures { IfOk result (λ bytes. bytes.items ≡ line_of (Printed Number word)) }
{
    match number_line(alloc, word) {
        Ok(line) => Ok(line.into_bytes()),
        Err(_) => Err(NoMemory),
    }
}

// Puts the line of an event.
fn show_event<K: Sink>(alloc: Global, event: &Event, out: &mut K) -> Result<(), Refused<Failed>>
    ensures { Wrote (K.written out.old) (K.written out.new) (K.faults out.old) (K.faults out.new) result (line_of event.now.request) }
{
    let Request::Print {
        form: Form::Number,
        word,
    } = event.request
    else {
        return Ok(());
    };
    match number_line(alloc, word) {
        Ok(line) => put(out, line.as_str()),
        Err(_) => Err(Refused::NoMemory),
    }
}

// Puts the lines of a history, one at a time.
fn show_history<K: Sink>(
    alloc: Global,
    history: &[Event],
    out: &mut K,
) -> Result<(), Refused<Failed>>
    ensures { Wrote (K.written out.old) (K.written out.new) (K.faults out.old) (K.faults out.new) result (output history.now) }
{
    for event in history {
        match show_event(alloc, event, out) {
            Ok(()) => {}
            Err(refused) => return Err(refused),
        }
    }
    Ok(())
}

// Puts the line of an ending, where it has one.
fn show_ending<K: Sink>(ending: Ending, out: &mut K) -> Result<(), Refused<Failed>>
    ensures { Wrote (K.written out.old) (K.written out.new) (K.faults out.old) (K.faults out.new) result (ending_line ending) }
{
    match ending {
        Ending::Turns => put(out, TURNS_ARE_USED_UP),
        _ => Ok(()),
    }
}

// Puts the lines of a run.
pub(crate) fn show_run<K: Sink>(
    alloc: Global,
    run: &RunRecord,
    out: &mut K,
) -> Result<(), Refused<Failed>>
    ensures { Wrote (K.written out.old) (K.written out.new) (K.faults out.old) (K.faults out.new) result (shown run.now) }
{
    match show_history(alloc, run.history.as_slice(), out) {
        Ok(()) => show_ending(run.ending, out),
        Err(refused) => Err(refused),
    }
}

// The status of an ending.
pub(crate) fn status_of(ending: Ending) -> u8
    ensures { result ≡ the_status_of ending }
{
    match ending {
        Ending::Done => 0,
        Ending::Uncaught { .. } => 3,
        Ending::Turns => 5,
        Ending::Stopped { .. } | Ending::Full { .. } => 6,
        Ending::Fault { .. } => 7,
    }
}
