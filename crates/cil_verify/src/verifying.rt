// The verifier.
ghost use Rattle.cil_verify.specs.Sizes.{FitsNumbers};
ghost use Rattle.cil_verify.specs.Verifies.{Verifies};

use crate::fault::{VerifyCause, VerifyFault};
use crate::forms::first_unbuilt;
use crate::judging::{judge_first, judge_later, judge_methods};
use crate::verified::Verified;
use il_model::Program;
use mn_outside::Refused;
use std::alloc::Global;

/// Accepts a program that is well-typed, with the states of its methods, or names the first refusal: the
/// first place with a form that is not built yet; else the first class that the rules on hierarchies and
/// layouts refuse, else the first class that another rule refuses, else the first method or instruction.
/// Classes and methods are numbered in 16 bits, and a body has at most 16,384 instructions.
pub fn verify(alloc: Global, program: Program) -> Result<Verified, Refused<VerifyFault>>
    requires { FitsNumbers program }
    ensures { Verifies program result }
{
    if let Some(at) = first_unbuilt(&program) {
        return Err(Refused::Fault(VerifyFault {
            at,
            cause: VerifyCause::NotBuilt,
        }));
    }
    judge_first(alloc, &program)?;
    judge_later(alloc, &program)?;
    let states = judge_methods(alloc, &program)?;
    Ok(Verified { program, states })
}
