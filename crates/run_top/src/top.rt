// The top call: words, file, text, program, run, lines.
ghost use Rattle.std.specs.Prelude.{◌≡◌, ◌≢◌, ◌≤◌, ◌⊎◌, ◌↔◌, ℕ, List, Option, Some, None, Ok, Err, IfOk, IfSome, IfNone, IsSomeAnd};
ghost use Rattle.std.specs.Io.KnownBytes.{Appends};
ghost use Rattle.mn_outside.specs.Causes.{AppendsPrefix, AppendsTwo, Holds, NeverFall, Rose};
ghost use Rattle.mn_outside.specs.declared.outside.Refused.TheVariants.{Fault};
ghost use Rattle.il_model.specs.Accepted.{IsOfText};
ghost use Rattle.il_parse.specs.Answer.{IsAnswer};
ghost use Rattle.run_top.specs.declared.first.FirstOp.{FirstOp};
ghost use Rattle.run_top.specs.declared.refusal.TextRefusal.{TextRefusal};
ghost use Rattle.run_top.specs.declared.refusal.TextRefusal.TheVariants.{Form};
ghost use Rattle.run_top.specs.declared.top.Refusal.TheVariants.{File, Text};
ghost use Rattle.run_top.specs.FirstForm.{IsFirstForm};
ghost use Rattle.cil_verify.specs.Verifies.{IsVerified};
ghost use Rattle.run_top.specs.declared.command.Task.{Task as TheTask};
ghost use Rattle.run_top.specs.Command.{IsCommand, IsUsage};
ghost use Rattle.run_top.specs.Headline.{AcceptsText, Gives, IsFound, IsJudged, IsKept, IsMeantRun, IsPlainStatus, IsProgramRun, IsRefusalStatus, IsStatus, IsUncut, RefusedBy, RefusesText};
ghost use Rattle.run_top.specs.Written.{Answers, file_line as the_file_line, no_memory_line, shown, shown_meant, status_of as the_status_of, usage_line};

use crate::command::{Task, command};
use crate::first_form::first_form;
use crate::meant_lines::show_meant;
use crate::places::spot_in;
use crate::record::{MeantRun, Outcome, RunRecord};
use crate::refusal::{TextRefusal, refusal_line};
use crate::run::run_program;
use crate::written::{NO_MEMORY, USAGE, accepted_line, file_line, put, show_run, status_of};
use cil_verify::{Verified, fits_numbers, verify};
use il_parse::parse;
use mn_outside::{Failed, Files, Name, NoMemory, Refused, Sink};
use std::alloc::Global;
use store_object::Chooser;
use unshared::mean;

// Why a command has no run.
#[derive(Clone, Copy, Debug, PartialEq, Eq)]
pub(crate) enum Refusal {
    Text(TextRefusal),
    File,
}

// What a command finds in a text that isn't refused: a program that is accepted, the run of its image, or that of its
// written meaning.
#[derive(Drop)]
pub(crate) enum Found {
    Accepted(Verified),
    Ran(RunRecord),
    Meant(MeantRun),
}

// The program of a text, where the verifier accepts it.
fn judge(alloc: Global, text: &[u8]) -> Result<Verified, Refused<TextRefusal>>
    ensures judged { IfOk result (λ v. IsJudged text.now v) }
    ensures text { IfOk result (λ v. IsOfText v.program) }
    ensures refused { (why : TextRefusal) → result ≡ Err (Fault why) → (task : TheTask) → RefusedBy (IsAnswer text.now) task why }
{
    let parsed = match parse(alloc, text) {
        Ok(parsed) => parsed,
        Err(Refused::Fault(fault)) => return Err(Refused::Fault(TextRefusal::Parser(fault))),
        Err(Refused::NoMemory) => return Err(Refused::NoMemory),
    };
    let classes = parsed.program.classes.len();
    if !fits_numbers(&parsed.program) {
        return Err(Refused::NoMemory);
    }
    match verify(alloc, parsed.program) {
        Ok(verified) => Ok(verified),
        Err(Refused::Fault(fault)) => {
            let spot = spot_in(parsed.spots.as_slice(), classes, fault.at);
            Err(Refused::Fault(TextRefusal::Verifier(spot, fault.cause)))
        }
        Err(Refused::NoMemory) => Err(Refused::NoMemory),
    }
}

// The run of a program that is accepted.
fn run_judged(
    alloc: Global,
    program: Verified,
    limit: u32,
) -> Result<RunRecord, Refused<TextRefusal>>
    ensures run { IfOk result (λ r. IsProgramRun limit program r) }
    ensures refused { (why : TextRefusal) → result ≡ Err (Fault why) → (why ≡ Form) × ((ops : List FirstOp) → ¬ IsFirstForm program.program ops) }
{
    match first_form(alloc, &program.program) {
        Ok(Some(ops)) => match run_program(alloc, program, ops.as_slice(), limit) {
            Ok(run) => Ok(run),
            Err(NoMemory) => Err(Refused::NoMemory),
        },
        Ok(None) => Err(Refused::Fault(TextRefusal::Form)),
        Err(NoMemory) => Err(Refused::NoMemory),
    }
}

// The run of the written meaning of a program that is accepted.
fn run_meaning(alloc: Global, program: Verified, limit: u32) -> Result<MeantRun, NoMemory>
    requires verified { IsVerified program }
    requires text { IsOfText program.program }
    ensures { IfOk result (λ r. IsMeantRun limit program r) }
{
    let meant = mean(alloc, &program, Chooser::Seed(0), limit)?;
    Ok(MeantRun { program, meant })
}

// What a command finds in a text.
fn carry_out(alloc: Global, text: &[u8], task: Task) -> Result<Found, Refused<TextRefusal>>
    ensures found { IfOk result (IsFound task text.now) }
    ensures refused { (why : TextRefusal) → result ≡ Err (Fault why) → RefusedBy (IsAnswer text.now) task why }
{
    let program = match judge(alloc, text) {
        Ok(program) => program,
        Err(refused) => return Err(refused),
    };
    match task {
        Task::Check => Ok(Found::Accepted(program)),
        Task::Exec(limit) => match run_judged(alloc, program, limit) {
            Ok(run) => Ok(Found::Ran(run)),
            Err(refused) => Err(refused),
        },
        Task::Mean(limit) => match run_meaning(alloc, program, limit) {
            Ok(run) => Ok(Found::Meant(run)),
            Err(NoMemory) => Err(Refused::NoMemory),
        },
    }
}

// What a command finds in a file's text.
fn carry_out_file<F: Files>(
    alloc: Global,
    name: &str,
    task: Task,
    files: &mut F,
) -> Result<Found, Refused<Refusal>>
    ensures found { IfOk result (λ found. (text : List ℕ) × Holds (F.held files.old) name.now text × IsFound task text found) }
    ensures text { (why : TextRefusal) → result ≡ Err (Fault (Text why)) → (text : List ℕ) × Holds (F.held files.old) name.now text × RefusedBy (IsAnswer text) task why }
    ensures file { result ≡ Err (Fault File) → Rose (F.read_faults files.old name.now) (F.read_faults files.new name.now) }
    ensures held { F.held files.new ≡ F.held files.old }
    ensures reads { NeverFall (F.read_faults files.old) (F.read_faults files.new) }
    ensures writes { NeverFall (F.write_faults files.old) (F.write_faults files.new) }
{
    let bytes = match files.read(alloc, name) {
        Ok(bytes) => bytes,
        Err(Refused::Fault(Failed)) => return Err(Refused::Fault(Refusal::File)),
        Err(Refused::NoMemory) => return Err(Refused::NoMemory),
    };
    match carry_out(alloc, bytes.as_slice(), task) {
        Ok(found) => Ok(found),
        Err(Refused::Fault(why)) => Err(Refused::Fault(Refusal::Text(why))),
        Err(Refused::NoMemory) => Err(Refused::NoMemory),
    }
}

// The answer of a command that made no run, with the line of its cause.
fn reply<K: Sink>(status: u8, line: &str, out: &mut K) -> Outcome
    requires { IsPlainStatus status }
    ensures kept { result.kept ≡ None }
    ensures answers { Answers (K.written out.old) (K.written out.new) (K.faults out.old) (K.faults out.new) line.now status result.status }
{
    match put(out, line) {
        Ok(()) => Outcome { status, kept: None },
        Err(Refused::Fault(Failed)) => Outcome {
            status: 9,
            kept: None,
        },
        Err(Refused::NoMemory) => no_memory(None, out),
    }
}

// The answer of a command whose run came to its ending.
fn finish<K: Sink>(alloc: Global, run: RunRecord, out: &mut K) -> Outcome
    ensures kept { result.kept ≡ Some run }
    ensures answers { Answers (K.written out.old) (K.written out.new) (K.faults out.old) (K.faults out.new) (shown run) (the_status_of run.ending) result.status }
{
    match show_run(alloc, &run, out) {
        Ok(()) => Outcome {
            status: status_of(run.ending),
            kept: Some(run),
        },
        Err(Refused::Fault(Failed)) => Outcome {
            status: 9,
            kept: Some(run),
        },
        Err(Refused::NoMemory) => no_memory(Some(run), out),
    }
}

// The answer of a command whose program's written meaning was run.
fn tell<K: Sink>(alloc: Global, run: &MeantRun, out: &mut K) -> Outcome
    ensures kept { result.kept ≡ None }
    ensures answers { Answers (K.written out.old) (K.written out.new) (K.faults out.old) (K.faults out.new) (shown_meant run.now) (the_status_of run.now.meant.ending) result.status }
{
    match show_meant(alloc, run, out) {
        Ok(()) => Outcome {
            status: status_of(run.meant.ending),
            kept: None,
        },
        Err(Refused::Fault(Failed)) => Outcome {
            status: 9,
            kept: None,
        },
        Err(Refused::NoMemory) => no_memory(None, out),
    }
}

// The answer where there is no memory. The status stays where its line can't be put.
fn no_memory<K: Sink>(kept: Option<RunRecord>, out: &mut K) -> Outcome
    ensures status { result.status ≡ 10 }
    ensures kept { result.kept ≡ kept }
    ensures line { AppendsPrefix (K.written out.old) (K.written out.new) no_memory_line }
    ensures later { K.faults out.old ≤ K.faults out.new }
{
    let _ = put(out, NO_MEMORY);
    Outcome { status: 10, kept }
}

/// The whole program: `exec F @all 0 TURNS`, `mean F 0 TURNS` or `check F`, where `words` are those after the program's
/// name. `exec` reads the text of F, compiles its program, runs the image for at most TURNS turns, and writes what the
/// run shows, a line at a time. `mean` does the same with the program's written meaning in place of an image, and takes
/// each program that is accepted. `check` writes how many classes and methods the program has. A text is refused at its first
/// fault, a program at the verifier's first refusal, and `exec` refuses a program that isn't of the first form whole.
/// Status 0 is a run that came to its end or a program that is accepted, 3 one that ended with an uncaught exception,
/// 5 one that was cut at TURNS, and 6 one that passed a limit; 1 `Usage`;
/// 2 `Text L:C CAUSE` with line and column of the fault, or `Text 1:1 FirstForm`; 8 `File NAME`; 9 a fault of the
/// sink; 10 `No memory`, the one answer without a cause.
pub fn aot_main<F: Files, K: Sink>(
    alloc: Global,
    words: &[Name],
    files: &mut F,
    out: &mut K,
) -> Outcome
    ensures status { IsStatus result.status }

    // A run that is kept is the image machine's, of the program that the file's text spells, which the verifier accepts,
    // and its history is legal.
    ensures kept { IfSome result.kept (IsKept words.now (F.held files.old)) }

    // What a run shows is written, and the status is that of its ending.
    ensures done { IsUncut result.status → IfSome result.kept (λ r. (result.status ≡ the_status_of r.ending)
        × Appends (K.written out.old) (K.written out.new) (shown r)) }

    // Without a run the status has its cause, and its line is written.
    ensures cause { IsUncut result.status → IfNone result.kept ((line : List ℕ)
        × Gives words.now (F.held files.old) (F.read_faults files.old) (F.read_faults files.new) result.status line
        × Appends (K.written out.old) (K.written out.new) line) }
    ensures none { IsRefusalStatus result.status → result.kept ≡ None }

    // Where neither the sink nor the memory cut the answer short, 1 comes exactly where the words are no command, and
    // of a file that could be read, 2 exactly where its text is refused.
    ensures usage { IsUncut result.status → ((result.status ≡ 1) ↔ IsUsage words.now) }
    ensures refused { RefusesText words.now (F.held files.old) result.status }
    ensures accepts { AcceptsText words.now (F.held files.old) result.status }

    // 9 comes only from a fault of the sink, after a prefix of what the run shows, or of the line of another cause.
    ensures fault { result.status ≡ 9 → Rose (K.faults out.old) (K.faults out.new) }
    ensures front { result.status ≡ 9 → IfSome result.kept (λ r.
        AppendsPrefix (K.written out.old) (K.written out.new) (shown r)) }
    ensures front_none { result.status ≡ 9 → IfNone result.kept ((status : ℕ) × (line : List ℕ)
        × Gives words.now (F.held files.old) (F.read_faults files.old) (F.read_faults files.new) status line
        × AppendsPrefix (K.written out.old) (K.written out.new) line) }

    // At 10 such a prefix was written, or nothing, and then a prefix of the line for it.
    ensures short { result.status ≡ 10 → IfSome result.kept (λ r.
        AppendsTwo (K.written out.old) (K.written out.new) (shown r) no_memory_line) }
    ensures short_none { result.status ≡ 10 → IfNone result.kept (
        AppendsPrefix (K.written out.old) (K.written out.new) no_memory_line
        ⊎ ((status : ℕ) × (line : List ℕ)
        × Gives words.now (F.held files.old) (F.read_faults files.old) (F.read_faults files.new) status line
        × AppendsTwo (K.written out.old) (K.written out.new) line no_memory_line)) }

    // No file changes, and without a command none is touched. No count falls.
    ensures held { F.held files.new ≡ F.held files.old }
    ensures untouched { IsUsage words.now → files.new ≡ files.old }
    ensures reads { NeverFall (F.read_faults files.old) (F.read_faults files.new) }
    ensures writes { NeverFall (F.write_faults files.old) (F.write_faults files.new) }
    ensures faults { K.faults out.old ≤ K.faults out.new }
{
    let Some((name, task)) = command(words) else {
        return reply(1, USAGE, out);
    };
    match carry_out_file(alloc, name, task, files) {
        Ok(Found::Ran(run)) => finish(alloc, run, out),
        Ok(Found::Meant(run)) => tell(alloc, &run, out),
        Ok(Found::Accepted(verified)) => match accepted_line(alloc, &verified.program) {
            Ok(line) => reply(0, line.as_str(), out),
            Err(NoMemory) => no_memory(None, out),
        },
        Err(Refused::Fault(Refusal::Text(why))) => match refusal_line(alloc, why) {
            Ok(line) => reply(2, line.as_str(), out),
            Err(NoMemory) => no_memory(None, out),
        },
        Err(Refused::Fault(Refusal::File)) => match file_line(alloc, name) {
            Ok(line) => reply(8, line.as_str(), out),
            Err(NoMemory) => no_memory(None, out),
        },
        Err(Refused::NoMemory) => no_memory(None, out),
    }
}
