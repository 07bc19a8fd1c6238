// How a type of a key begins.
ghost use Rattle.std.specs.Prelude.{◌≡◌, length, slice_get};
ghost use Rattle.std.specs.List.{list_all};
ghost use Rattle.il_text.specs.Spelling.{is_variable, is_class_variable, is_method_variable, is_run};
ghost use Rattle.il_text.specs.Bytes.{is_digit};
ghost use Rattle.il_model.specs.ClassRules.{vars_in};
ghost use Rattle.aot_image.specs.ChoosingTypes as spec;
ghost use Rattle.aot_image.specs.ChoosingNames.{AreTablesOf};

use crate::choice_cursor::after_byte;
use crate::choice_names::{Tables, class_named};
use il_model::Program;
use type_tree::Head;

/// How a type begins: by a scalar, by a variable, by a class with so many type variables, or not at all.
#[derive(Clone, Copy)]
pub(crate) enum Start {
    Scalar(Head),
    Variable,
    Class(u16, usize),
    NoType,
}

/// Whether these are digits, at least one.
pub(crate) fn is_digits(bytes: &[u8]) -> bool
    ensures { result ≡ is_run is_digit bytes.now }
{
    let Some((first, rest)) = bytes.split_first() else {
        return false;
    };
    is_digit(*first) && all_digits(rest)
}

fn all_digits(bytes: &[u8]) -> bool
    ensures { result ≡ list_all is_digit bytes.now }
{
    for byte in bytes {
        if !is_digit(*byte) {
            return false;
        }
    }
    true
}

fn is_digit(byte: u8) -> bool
    ensures { result ≡ is_digit byte }
{
    b'0' <= byte && byte <= b'9'
}

// Whether these are `!` and digits.
#[tactic(auto, using(crate::proofs::ChoosingTypeLemmas::led_by, crate::proofs::ChoosingTypeLemmas::not_led_by))]
fn is_class_variable(bytes: &[u8]) -> bool
    ensures { result ≡ is_class_variable bytes.now }
{
    match after_byte(b'!', bytes) {
        Some(rest) => is_digits(rest),
        None => false,
    }
}

// Whether these are `!!` and digits.
#[tactic(auto, using(crate::proofs::ChoosingTypeLemmas::led_by, crate::proofs::ChoosingTypeLemmas::not_led_by))]
fn is_method_variable(bytes: &[u8]) -> bool
    ensures { result ≡ is_method_variable bytes.now }
{
    match after_byte(b'!', bytes) {
        Some(rest) => is_class_variable(rest),
        None => false,
    }
}

// Whether a word is a type variable.
fn is_variable(word: &[u8]) -> bool
    ensures { result ≡ is_variable word.now }
{
    is_class_variable(word) || is_method_variable(word)
}

// How many type variables the class with this number has.
fn arity_of(program: &Program, number: u16) -> usize
    ensures { result ≡ length (vars_in (slice_get program.now.classes number)) }
{
    match program.classes.as_slice().get(number as usize) {
        Some(class) => class.vars.len(),
        None => 0,
    }
}

/// What a word is at the front of a type.
#[tactic(auto, unfolding(crate::specs::ChoosingTypes::start_of))]
pub(crate) fn start_of(program: &Program, tables: &Tables, word: &[u8]) -> Start
    requires { AreTablesOf program.now tables.now }
    ensures { result ≡ spec.start_of program.now word.now }
{
    if b"int32".as_slice() == word {
        return Start::Scalar(Head::Int32);
    }
    if b"int64".as_slice() == word {
        return Start::Scalar(Head::Int64);
    }
    if b"bool".as_slice() == word {
        return Start::Scalar(Head::Bool);
    }
    if is_variable(word) {
        return Start::Variable;
    }
    match class_named(program, tables, word) {
        Some(number) => Start::Class(number, arity_of(program, number)),
        None => Start::NoType,
    }
}
