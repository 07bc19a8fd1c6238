// Whole programs.
ghost use Rattle.std.specs.Prelude.{◌≡◌, ◌-◌, ◌^◌, ◌++◌, min, drop, length, flat_map, IfOk, OnOk};
ghost use Rattle.il_model.specs.Accepted.{IsOfText};
ghost use Rattle.il_model.specs.Library.{library_classes};
ghost use Rattle.il_model.specs.Canonical.{canonical_text, canonical_len, class_lines};
ghost use Rattle.il_print.specs.Accepted.{IsTextOf};
ghost use Rattle.il_print.specs.ClassNames.{names_of};
ghost use Rattle.il_print.specs.Parts.{lines_text};

use crate::classes::put_class;
use crate::text::Text;
use il_model::{ClassDef, Program};
use mn_outside::NoMemory;
use std::alloc::Global;

// The classes of the library, which stand first in a program and are not printed.
const LIBRARY_CLASSES: usize = 13;

/// The canonical text of a program: its classes behind those of the library, each line as `docs/GRAMMAR.md`
/// says. Where some text gives the program, this text gives it too. Of a program that no text gives it has
/// what the definition says. This project's own.
pub fn print(alloc: Global, program: &Program) -> Result<Vec<u8>, NoMemory>
    ensures text { IfOk result (λ text. text.items ≡ canonical_text program.now) }
    ensures accepted { IsOfText program.now → IfOk result (λ text. IsTextOf text.items program.now) }
{
    let mut text = Text::new(alloc);
    put_classes(&mut text, program, own_classes(program))?;
    Ok(text.into_bytes())
}

/// How many bytes the canonical text of a program has, or 2^64 - 1 where it has more. One class at a time is
/// printed and let go, so that the whole text is never held.
pub fn canonical_length(alloc: Global, program: &Program) -> Result<u64, NoMemory>
    ensures { IfOk result (λ count. count ≡ min (canonical_len program.now) (2 ^ 64 - 1)) }
{
    let classes = own_classes(program);
    let mut count: u64 = 0;
    for class in classes {
        count = count.saturating_add(class_length(alloc, program, class)?);
    }
    Ok(count)
}

fn class_length(alloc: Global, program: &Program, class: &ClassDef) -> Result<u64, NoMemory>
    ensures { IfOk result (λ count. count ≡
        length (lines_text (class_lines program.now (names_of program.now.classes) class.now))) }
{
    let mut text = Text::new(alloc);
    put_class(&mut text, program, class)?;
    Ok(text.bytes().len() as u64)
}

fn own_classes(program: &Program) -> &[ClassDef]
    ensures { result.now ≡ drop (length library_classes) program.now.classes }
{
    let classes = program.classes.as_slice();
    match classes.get(LIBRARY_CLASSES..) {
        Some(own) => own,
        None => &[],
    }
}

fn put_classes(text: &mut Text, program: &Program, classes: &[ClassDef]) -> Result<(), NoMemory>
    ensures { OnOk result (text.new ≡
        text.old ++ lines_text (flat_map (class_lines program.now (names_of program.now.classes)) classes.now)) }
{
    for class in classes {
        put_class(text, program, class)?;
    }
    Ok(())
}
