// Which types are admitted.
ghost use Rattle.std.specs.Prelude.{◌≡◌, IfOk, is_none};
ghost use Rattle.il_model.specs.Admission.{limit_of};

use il_model::Program;
use mn_outside::{NoMemory, Refused};
use std::alloc::Global;
use type_inst::admitted;
use type_tree::TExpr;

/// Whether a type is admitted: it passes no limit.
pub(crate) fn is_admitted(alloc: Global, program: &Program, kind: &TExpr) -> Result<bool, NoMemory>
    ensures { IfOk result (λ fine. fine ≡ is_none (limit_of program.now kind.now)) }
{
    match admitted(alloc, program, kind) {
        Ok(()) => Ok(true),
        Err(Refused::Fault(_)) => Ok(false),
        Err(Refused::NoMemory) => Err(NoMemory),
    }
}
