// Refusals of the look-up of names.
ghost use Rattle.std.specs.Prelude.{◌≡◌};
ghost use Rattle.il_parse.specs.declared.fault.ReadError.TheVariants as error;
ghost use Rattle.il_parse.specs.Looking.{Looks, once, unknown_fault, repeated_fault};

use crate::fault::{Fault, ParseCause, ReadError};
use il_model::WrittenName;

/// Nothing has this name.
pub(crate) fn unknown(name: &WrittenName) -> ReadError
    ensures { result ≡ error.Fault (unknown_fault name.now) }
{
    ReadError::Fault(Fault {
        at: Some(name.at),
        cause: ParseCause::UnknownName,
    })
}

/// What stands at this place was there before.
pub(crate) fn repeated(at: u32) -> ReadError
    ensures { result ≡ error.Fault (repeated_fault at) }
{
    ReadError::Fault(Fault {
        at: Some(at),
        cause: ParseCause::Repeated,
    })
}

/// Refuses what was met before.
pub(crate) fn once(is_met: bool, at: u32) -> Result<(), ReadError>
    ensures { Looks (once is_met at) result }
{
    if is_met {
        return Err(repeated(at));
    }
    Ok(())
}
