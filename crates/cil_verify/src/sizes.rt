// How large a program may be.
ghost use Rattle.std.specs.Prelude.{◌≡◌, ◌≤◌, ℕ, Some, length, slice_get};
ghost use Rattle.std.specs.Bool.{Decides};
ghost use Rattle.il_model.specs.declared.method.MethodDef.{MethodDef};
ghost use Rattle.cil_verify.specs.Places.{code_of};
ghost use Rattle.cil_verify.specs.Sizes.{FitsNumbers, HasFewInstructions};

use il_model::{Body, MethodDef, Program};

/// Whether a program is no larger than its numbers reach: at most 65,536 classes and as many methods, and
/// at most 16,384 instructions in a body. No memory is taken.
pub fn fits_numbers(program: &Program) -> bool
    ensures { Decides result (FitsNumbers program.now) }
{
    if program.classes.len() > 65536 {
        return false;
    }
    if program.methods.len() > 65536 {
        return false;
    }
    have_few_instructions(program.methods.as_slice())
}

fn have_few_instructions(methods: &[MethodDef]) -> bool
    ensures { Decides result (HasFewInstructions methods.now) }
{
    for method in methods {
        if code_len(&method.body) > 16384 {
            return false;
        }
    }
    true
}

fn code_len(body: &Option<Body>) -> usize
    ensures { result ≡ length (code_of body.now) }
{
    match body {
        Some(body) => body.code.len(),
        None => 0,
    }
}
