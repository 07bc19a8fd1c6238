// The words of a command, `exec F @all 0 TURNS`, `mean F 0 TURNS` or `check F`. They are judged without memory.
ghost use Rattle.std.specs.Prelude.{◌≡◌, ◌≤◌, ◌↔◌, ◌⊎◌, ℕ, List, IfSome, IfNone, IsTrue, slice_index};
ghost use Rattle.run_top.specs.Command.{IsCheck, IsCommand, IsExec, IsMean, IsPlainWord, IsUsage, SpellsTurns};

use mn_outside::Name;

// The most turns that a command may ask for.
const MOST_TURNS: u32 = 4000000;

// What a command does with the program of its file.
#[derive(Clone, Copy, Debug, PartialEq, Eq)]
pub(crate) enum Task {
    /// Says how large it is.
    Check,
    /// Compiles it, and runs the image for at most so many turns.
    Exec(u32),
    /// Runs its written meaning for at most so many turns.
    Mean(u32),
}

// The file and the number of turns of `exec`.
fn exec(words: &[Name]) -> Option<(&str, u32)>
    ensures some { IfSome result (λ found. IsExec words.now found.0.now found.1) }
    ensures none { IfNone result ((name : List ℕ) (turns : ℕ) → ¬ IsExec words.now name turns) }
{
    let [exec, file, all, seed, turns] = words else {
        return None;
    };
    if !is_word(exec, "exec") || !is_word(all, "@all") || !is_word(seed, "0") {
        return None;
    }
    let name = file.text();
    if !is_plain(name) {
        return None;
    }
    let limit = turns_of(turns.text())?;
    Some((name, limit))
}

// The file and the number of turns of `mean`.
fn mean(words: &[Name]) -> Option<(&str, u32)>
    ensures some { IfSome result (λ found. IsMean words.now found.0.now found.1) }
    ensures none { IfNone result ((name : List ℕ) (turns : ℕ) → ¬ IsMean words.now name turns) }
{
    let [mean, file, seed, turns] = words else {
        return None;
    };
    if !is_word(mean, "mean") || !is_word(seed, "0") {
        return None;
    }
    let name = file.text();
    if !is_plain(name) {
        return None;
    }
    let limit = turns_of(turns.text())?;
    Some((name, limit))
}

// The file of `check`.
fn check(words: &[Name]) -> Option<&str>
    ensures some { IfSome result (λ name. IsCheck words.now name.now) }
    ensures none { IfNone result ((name : List ℕ) → ¬ IsCheck words.now name) }
{
    let [check, file] = words else {
        return None;
    };
    if !is_word(check, "check") {
        return None;
    }
    let name = file.text();
    if is_plain(name) { Some(name) } else { None }
}

/// The file of a command, and what is done with its program.
pub(crate) fn command(words: &[Name]) -> Option<(&str, Task)>
    ensures some { IfSome result (λ found. IsCommand words.now found.0.now found.1) }
    ensures none { IfNone result (IsUsage words.now) }
{
    if let Some(name) = check(words) {
        return Some((name, Task::Check));
    }
    if let Some((name, limit)) = mean(words) {
        return Some((name, Task::Mean(limit)));
    }
    let (name, limit) = exec(words)?;
    Some((name, Task::Exec(limit)))
}

// Whether a word is this text.
fn is_word(word: &Name, text: &str) -> bool
    ensures { IsTrue result ↔ (word.now ≡ text.now) }
{
    word.text() == text
}

// Whether a word may be a file's name.
fn is_plain(word: &str) -> bool
    ensures { IsTrue result ↔ IsPlainWord word.now }
{
    match word.as_bytes().first() {
        None => false,
        Some(byte) => *byte != b'-',
    }
}

// Whether a digit other than 0 stands first, so that neither a sign nor a leading zero does.
fn begins_number(word: &str) -> bool
    ensures { IsTrue result ↔ ((49 ≤ slice_index word.now 0) × (slice_index word.now 0 ≤ 57)) }
{
    match word.as_bytes().first() {
        None => false,
        Some(byte) => *byte >= b'1' && *byte <= b'9',
    }
}

// The number of turns that a word spells.
fn turns_of(word: &str) -> Option<u32>
    ensures some { IfSome result (SpellsTurns word.now) }
    ensures none { IfNone result ((turns : ℕ) → ¬ SpellsTurns word.now turns) }
{
    if !begins_number(word) {
        return None;
    }
    let Ok(turns) = word.parse::<u32>() else {
        return None;
    };
    if turns > MOST_TURNS {
        return None;
    }
    Some(turns)
}
