// Bodies of methods.
ghost use Rattle.std.specs.Prelude.{◌≡◌, ◌++◌, [], ◌∷◌, codes, OnOk, if◌then◌else◌};
ghost use Rattle.il_model.specs.Canonical.{line, spaced, spaced_after, label_text, label_line, op_words, code_lines, clause_words, clause_lines, locals_line, body_lines, type_text};
ghost use Rattle.il_model.specs.declared.method.Sort.TheVariants.{Catch};
ghost use Rattle.il_print.specs.ClassNames.{names_of};
ghost use Rattle.il_print.specs.Parts.{lines_text};

use crate::labels::Labels;
use crate::operands::{put_label, put_op};
use crate::params::put_params;
use crate::scope::Scope;
use crate::text::Text;
use crate::types::put_type;
use il_model::{Body, ClassDef, Clause, Op, PType, Sort};
use mn_outside::{Bytes, NoMemory};
use type_tree::TExpr;

/// Puts the lines of a body.
pub(crate) fn put_body(
    text: &mut Text,
    classes: &[ClassDef],
    literals: &[Bytes],
    is_entry: bool,
    body: &Body,
) -> Result<(), NoMemory>
    ensures { OnOk result (text.new ≡
        text.old ++ lines_text (body_lines (names_of classes.now) literals.now is_entry body.now)) }
{
    let labels = Labels::of(text.alloc(), body)?;
    let scope = Scope::new(classes, literals, &labels);
    put_entry_line(text, is_entry)?;
    put_locals_line(text, classes, body.locals.as_slice())?;
    put_code(text, &scope, body.code.as_slice())?;
    put_clauses(text, &scope, body.clauses.as_slice())?;
    Ok(())
}

fn put_entry_line(text: &mut Text, is_entry: bool) -> Result<(), NoMemory>
    ensures { OnOk result (text.new ≡
        text.old ++ lines_text (if is_entry then line 2 (codes ".entrypoint" ∷ []) else [])) }
{
    if is_entry {
        text.put(b"    .entrypoint\n")
    } else {
        Ok(())
    }
}

fn put_locals_line(text: &mut Text, classes: &[ClassDef], locals: &[PType]) -> Result<(), NoMemory>
    ensures { OnOk result (text.new ≡ text.old ++ lines_text (locals_line (names_of classes.now) locals.now)) }
{
    if locals.is_empty() {
        return Ok(());
    }
    text.put(b"    .locals init")?;
    put_params(text, classes, locals)?;
    text.put(b"\n")?;
    Ok(())
}

// The instructions, each behind its label, and the label of the end.
fn put_code(text: &mut Text, scope: &Scope, code: &[Op]) -> Result<(), NoMemory>
    ensures { OnOk result (text.new ≡ text.old ++ lines_text (code_lines scope.now 0 code.now)) }
{
    for at in 0..code.len() {
        put_label_line(text, scope, at)?;
        put_op_line(text, scope, &code[at])?;
    }
    put_label_line(text, scope, code.len())?;
    Ok(())
}

fn put_label_line(text: &mut Text, scope: &Scope, at: usize) -> Result<(), NoMemory>
    ensures { OnOk result (text.new ≡ text.old ++ lines_text (label_line scope.now at)) }
{
    let labels = scope.labels();
    if !labels.has(at) {
        return Ok(());
    }
    let name = labels.name(text.alloc(), at)?;
    text.put(b"    ")?;
    text.put(name.as_bytes())?;
    text.put(b" :\n")
}

fn put_op_line(text: &mut Text, scope: &Scope, op: &Op) -> Result<(), NoMemory>
    ensures { OnOk result (text.new ≡ text.old ++ lines_text (line 2 (op_words scope.now op.now))) }
{
    text.put(b"    ")?;
    put_op(text, scope, op)?;
    text.put(b"\n")
}

fn put_clauses(text: &mut Text, scope: &Scope, clauses: &[Clause]) -> Result<(), NoMemory>
    ensures { OnOk result (text.new ≡ text.old ++ lines_text (clause_lines scope.now clauses.now)) }
{
    for clause in clauses {
        put_clause_line(text, scope, clause)?;
    }
    Ok(())
}

fn put_clause_line(text: &mut Text, scope: &Scope, clause: &Clause) -> Result<(), NoMemory>
    ensures { OnOk result (text.new ≡
        text.old ++ lines_text (line 2 (clause_words scope.now clause.now clause.now.sort))) }
{
    text.put(b"    ")?;
    put_clause(text, scope, clause)?;
    text.put(b"\n")
}

fn put_clause(text: &mut Text, scope: &Scope, clause: &Clause) -> Result<(), NoMemory>
    ensures { OnOk result (text.new ≡ text.old ++ spaced (clause_words scope.now clause.now clause.now.sort)) }
{
    match &clause.sort {
        Sort::Catch(kind) => put_catch(text, scope, clause, kind),
        Sort::Finally => Ok(()),
    }
}

fn put_catch(text: &mut Text, scope: &Scope, clause: &Clause, kind: &TExpr) -> Result<(), NoMemory>
    ensures { OnOk result (text.new ≡ text.old ++ spaced (clause_words scope.now clause.now (Catch kind.now))) }
{
    text.put(b".try")?;
    put_range(text, scope.labels(), clause.from, clause.to)?;
    put_caught(text, scope.classes(), kind)?;
    put_range(text, scope.labels(), clause.handler, clause.end)?;
    Ok(())
}

fn put_caught(text: &mut Text, classes: &[ClassDef], kind: &TExpr) -> Result<(), NoMemory>
    ensures { OnOk result (text.new ≡ text.old ++
        spaced_after (codes "catch" ∷ type_text (names_of classes.now) kind.now ∷ codes "handler" ∷ [])) }
{
    text.put(b" catch")?;
    put_type(text, classes, kind)?;
    text.put(b" handler")
}

fn put_range(text: &mut Text, labels: &Labels, from: u32, to: u32) -> Result<(), NoMemory>
    ensures { OnOk result (text.new ≡
        text.old ++ spaced_after (label_text labels.now from ∷ codes "to" ∷ label_text labels.now to ∷ [])) }
{
    put_label(text, labels, from)?;
    text.put(b" to")?;
    put_label(text, labels, to)
}
