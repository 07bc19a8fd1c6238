// The law of safety, which no call's contract says.
ghost use Rattle.il_model.specs.Accepted.{IsOfText};
ghost use Rattle.cil_verify.specs.Verifies.{IsVerified};
ghost use Rattle.cil_verify.specs.declared.verified.Verified.{Verified};
ghost use Rattle.cil_safety.specs.NeverStuck.{NeverStuck};

/// A program that some text is accepted as and that passed the verifier is never stuck. Wherever a legal
/// history has led the process of a thread that it has begun, the process has a rule, and its next request
/// isn't answered Improper: under the history's naming, and under each that extends it. While the thread
/// lives in the store, the process isn't over. A law alone: it does nothing.
pub fn verified_programs_are_never_stuck()
    ensures safe { (v : Verified) → IsOfText v.program → IsVerified v → NeverStuck v.program }
{}
