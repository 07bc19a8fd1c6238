// The exact types of what references refer to.
ghost use Rattle.std.specs.Prelude.{◌≡◌, IfOk};
ghost use Rattle.unshared.specs.Exacts.{the_exact};
ghost use Rattle.unshared.specs.Memory.{string_of, exact_of, type_of};
ghost use Rattle.unshared.specs.Silent.{Gives};
ghost use Rattle.unshared.specs.Talk.{Talks};

use crate::pause::{Halt, Pause, Replies};
use crate::trees::Trees;
use il_model::Program;
use std::alloc::Global;
use store_object::Request;
use type_tree::{Head, TExpr};

/// The exact type of what a reference refers to: string, or the type with a number.
#[derive(Clone, Copy)]
pub(crate) enum Exact {
    Text,
    Numbered(u32),
}

/// Whether a word from 2^32 on names a string: a literal of the program, or the name of a type.
#[tactic(auto, unfolding(crate::specs::Memory::string_of))]
pub(crate) fn as_string(program: &Program, trees: &Trees, word: u64) -> Result<(), Pause>
    ensures { Gives (λ nothing. nothing) (string_of program.now trees.now.kinds word) result }
{
    if word < 8589934592 {
        let number = word.saturating_sub(4294967296);
        if number < program.literals.len() as u64 {
            return Ok(());
        }
        return Err(Pause::Halts(Halt::Stuck));
    }
    match trees.get(word - 8589934592) {
        Some(_) => Ok(()),
        None => Err(Pause::Halts(Halt::Unnamed)),
    }
}

/// The exact type of a reference that isn't null. A string word makes no request.
#[tactic(auto, unfolding(crate::specs::Memory::exact_of))]
pub(crate) fn types(
    program: &Program,
    trees: &Trees,
    replies: &mut Replies<'_>,
    word: u64,
) -> Result<Exact, Pause>
    ensures { Talks the_exact (exact_of program.now trees.now.kinds word replies.old) result replies.new }
{
    match u32::try_from(word) {
        Ok(object) => {
            let kind = replies.kind(Request::TypeOf { object })?;
            Ok(Exact::Numbered(kind))
        }
        Err(_) => {
            as_string(program, trees, word)?;
            Ok(Exact::Text)
        }
    }
}

/// The type itself.
pub(crate) fn spells(alloc: Global, trees: &Trees, exact: Exact) -> Result<TExpr, Pause>
    ensures { Gives (λ kind. kind) (type_of trees.now.kinds (the_exact exact)) result }
{
    match exact {
        Exact::Text => Ok(TExpr::plain(alloc, Head::Class(1))),
        Exact::Numbered(number) => match trees.get(u64::from(number)) {
            Some(kind) => match kind.copy(alloc) {
                Ok(copy) => Ok(copy),
                Err(_) => Err(Pause::NoMemory),
            },
            None => Err(Pause::Halts(Halt::Unnamed)),
        },
    }
}
