// Which types are admitted, and which limit another one passes.
ghost use Rattle.std.specs.Prelude.{◌≡◌, IfOk, map, filter, nat_lt};
ghost use Rattle.std.specs.List.{list_any};
ghost use Rattle.mn_outside.specs.declared.outside.Refused.TheVariants as refused;
ghost use Rattle.il_model.specs.Kinds.{is_value};
ghost use Rattle.il_model.specs.Admission.{most_words, is_wide, limit_of};
ghost use Rattle.type_inst.specs.Judging.{Judges};

use crate::limited::limited_trees_of;
use crate::sizing::capped_words;
use crate::steps::values;
use il_model::{Limit, Program};
use mn_outside::{NoMemory, Refused};
use std::alloc::Global;
use type_tree::{TExpr, Tree};

/// Whether a type is admitted: it, each argument in it at any depth, and each tree of the base, interface
/// and value-field closure of one of these have at most 256 positions, and no value type among them has
/// more than 16 words. Else the fault is the limit that it passes: Positions where a tree has more
/// positions, and ValueWords otherwise. This project's own.
pub fn admitted(alloc: Global, program: &Program, tree: &Tree) -> Result<(), Refused<Limit>>
    ensures { Judges result (limit_of program.now tree.now) }
{
    let Ok(reach) = limited_trees_of(alloc, program, tree) else {
        return Err(Refused::NoMemory);
    };
    let Some(found) = reach else {
        return Err(Refused::Fault(Limit::Positions));
    };
    match has_wide(alloc, program, found.as_slice()) {
        Ok(true) => Err(Refused::Fault(Limit::ValueWords)),
        Ok(false) => Ok(()),
        Err(NoMemory) => Err(Refused::NoMemory),
    }
}

// Whether one of these is a value type of too many words.
fn has_wide(alloc: Global, program: &Program, kinds: &[TExpr]) -> Result<bool, NoMemory>
    ensures { IfOk result (λ wide. wide ≡ list_any (is_wide program.now) kinds.now) }
{
    let values = values(alloc, program, kinds)?;
    let words = capped_words(alloc, program, values.as_slice(), 17)?;
    Ok(has_more(words.as_slice(), 16))
}

// Whether one of these numbers is larger.
fn has_more(words: &[u32], most: u32) -> bool
    ensures { result ≡ list_any (nat_lt most) words.now }
{
    for word in words {
        if most < *word {
            return true;
        }
    }
    false
}
