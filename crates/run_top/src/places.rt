// Where in the text a class, a method or an instruction of its program stands.
ghost use Rattle.std.specs.Prelude.{◌≡◌, ◌≤◌, option_copied};
ghost use Rattle.run_top.specs.Places.{code_at, declared_at, spot_in};

use cil_verify::Where;
use il_parse::Spots;
use il_text::Spot;

// The place of what is in no text.
const NO_SPOT: Spot = Spot { line: 1, column: 1 };

fn declared_at(spots: Option<&Spots>) -> Spot
    ensures { result ≡ declared_at (option_copied spots.entry) }
{
    match spots {
        None => NO_SPOT,
        Some(spots) => spots.declared,
    }
}

fn code_at(spots: Option<&Spots>, number: u32) -> Spot
    ensures { result ≡ code_at (option_copied spots.entry) number }
{
    match spots {
        None => NO_SPOT,
        Some(spots) => match spots.code.as_slice().get(number as usize) {
            None => NO_SPOT,
            Some(spot) => *spot,
        },
    }
}

/// The place of a class, a method or an instruction, from the places of so many classes and then of the methods.
pub(crate) fn spot_in(spots: &[Spots], classes: usize, place: Where) -> Spot
    requires { classes ≤ 65536 }
    ensures { result ≡ spot_in spots.now classes place }
{
    match place {
        Where::Class(number) => declared_at(spots.get(number as usize)),
        Where::Method(number) => declared_at(spots.get(classes + number as usize)),
        Where::Instr(number, instr) => code_at(spots.get(classes + number as usize), instr),
    }
}
