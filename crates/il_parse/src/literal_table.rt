// The literals of a program.
ghost use Rattle.std.specs.Prelude.{◌≡◌, [], IfOk, OnOk, flat_map, IfErr};
ghost use Rattle.il_model.specs.Names.{place_of};
ghost use Rattle.il_model.specs.LookUp.{known_of, texts_of, texts_of_method};
ghost use Rattle.il_parse.specs.declared.fault.ReadError.TheVariants as error;
ghost use Rattle.il_parse.specs.Literals.{with_text, with_texts, texts_of_line, texts_of_member, texts_of_class};

use crate::fault::ReadError;
use il_model::{WrittenClass, WrittenLine, WrittenMember, WrittenMethod, WrittenOperand};
use indexmap::IndexSet;
use mn_outside::Bytes;
use sqlite_items::Items;
use std::alloc::Global;
use std::marker::Model;

/// The literals of a text, each once, in order of first use, found by their hash. Contracts see the list.
#[derive(Drop)]
pub(crate) struct Literals {
    known: IndexSet<Vec<u8>>,
}

impl Model for Literals {
    ghost use Rattle.std.specs.Prelude.{List, ℕ, map};

    ghost Value = { List (List ℕ) };

    ghost view = { λ l. map (λ k. k.items) l.known.keys };
}

impl Literals {
    /// No literals.
    pub(crate) fn new(alloc: Global) -> Literals
        ensures { result ≡ [] }
    {
        Literals {
            known: IndexSet::new(alloc),
        }
    }

    /// The number of a literal. No memory is taken.
    pub(crate) fn place(&self, text: &[u8]) -> Option<usize>
        ensures { result ≡ place_of self.now text.now }
    {
        self.known.get_index_of(text)
    }

    /// The literals as a program has them.
    pub(crate) fn into_items(self, alloc: Global) -> Result<Items<Bytes>, ReadError>
        ensures ok { IfOk result (λ texts. texts ≡ self) }
        ensures memory { IfErr result (λ e. e ≡ error.Memory) }
    {
        let mut texts = Items::new(alloc);
        for text in self.known {
            texts.push(Bytes::of(text))?;
        }
        Ok(texts)
    }
}

// Adds a literal, unless it is there.
fn add_text(alloc: Global, literals: &mut Literals, text: &[u8]) -> Result<(), ReadError>
    ensures ok { OnOk result (literals.new ≡ with_text literals.old text.now) }
    ensures memory { IfErr result (λ e. e ≡ error.Memory) }
{
    let text = Vec::from_slice(alloc, text)?;
    literals.known.insert(text)?;
    Ok(())
}

// Adds the literal of an operand, if it is one.
fn add_operand(
    alloc: Global,
    literals: &mut Literals,
    operand: &WrittenOperand,
) -> Result<(), ReadError>
    ensures ok { OnOk result (literals.new ≡ with_texts literals.old (texts_of operand.now)) }
    ensures memory { IfErr result (λ e. e ≡ error.Memory) }
{
    match operand {
        WrittenOperand::Text(text) => add_text(alloc, literals, text.list()),
        WrittenOperand::Nothing
        | WrittenOperand::Int32(_)
        | WrittenOperand::Int64(_)
        | WrittenOperand::Place(_)
        | WrittenOperand::Label(_)
        | WrittenOperand::Labels(_)
        | WrittenOperand::Type(_)
        | WrittenOperand::Method(_)
        | WrittenOperand::Field(_)
        | WrittenOperand::Constrained(_, _) => Ok(()),
    }
}

fn add_line(alloc: Global, literals: &mut Literals, line: &WrittenLine) -> Result<(), ReadError>
    ensures ok { OnOk result (literals.new ≡ with_texts literals.old (texts_of_line line.now)) }
    ensures memory { IfErr result (λ e. e ≡ error.Memory) }
{
    match line {
        WrittenLine::Label(_) => Ok(()),
        WrittenLine::Instr(instr) => add_operand(alloc, literals, &instr.operand),
    }
}

fn add_lines(alloc: Global, literals: &mut Literals, lines: &[WrittenLine]) -> Result<(), ReadError>
    ensures ok { OnOk result (literals.new ≡ with_texts literals.old (flat_map texts_of_line lines.now)) }
    ensures memory { IfErr result (λ e. e ≡ error.Memory) }
{
    for line in lines {
        add_line(alloc, literals, line)?;
    }
    Ok(())
}

fn add_method(
    alloc: Global,
    literals: &mut Literals,
    method: &WrittenMethod,
) -> Result<(), ReadError>
    ensures ok { OnOk result (literals.new ≡ with_texts literals.old (texts_of_method method.now)) }
    ensures memory { IfErr result (λ e. e ≡ error.Memory) }
{
    match &method.body {
        Some(body) => add_lines(alloc, literals, body.lines.as_slice()),
        None => Ok(()),
    }
}

fn add_member(
    alloc: Global,
    literals: &mut Literals,
    member: &WrittenMember,
) -> Result<(), ReadError>
    ensures ok { OnOk result (literals.new ≡ with_texts literals.old (texts_of_member member.now)) }
    ensures memory { IfErr result (λ e. e ≡ error.Memory) }
{
    match member {
        WrittenMember::Field(_) => Ok(()),
        WrittenMember::Method(method) => add_method(alloc, literals, method),
    }
}

fn add_class(alloc: Global, literals: &mut Literals, class: &WrittenClass) -> Result<(), ReadError>
    ensures ok { OnOk result (literals.new ≡ with_texts literals.old (texts_of_class class.now)) }
    ensures memory { IfErr result (λ e. e ≡ error.Memory) }
{
    for member in class.members.as_slice() {
        add_member(alloc, literals, member)?;
    }
    Ok(())
}

/// The literals of these classes.
pub(crate) fn literals_of(alloc: Global, classes: &[WrittenClass]) -> Result<Literals, ReadError>
    ensures ok { IfOk result (λ literals. literals ≡ (known_of classes.now).literals) }
    ensures memory { IfErr result (λ e. e ≡ error.Memory) }
{
    let mut literals = Literals::new(alloc);
    for class in classes {
        add_class(alloc, &mut literals, class)?;
    }
    Ok(literals)
}
