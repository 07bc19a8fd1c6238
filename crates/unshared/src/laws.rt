// What holds of every plain run.
ghost use Rattle.std.specs.Prelude.{◌≤◌, ◌^◌, [], ℕ, List, length};
ghost use Rattle.type_tree.specs.declared.tree.TExpr.{TExpr};
ghost use Rattle.il_model.specs.declared.program.Program.{Program};
ghost use Rattle.interaction.specs.Process.{Naming};
ghost use Rattle.interaction.specs.Run.{run};
ghost use Rattle.cil_meaning.specs.Naming.{IsNaming, Mention};
ghost use Rattle.cil_meaning.specs.Language.{Legal};
ghost use Rattle.unshared.specs.Listed.{IsOnce, naming_of};
ghost use Rattle.unshared.specs.Turns.{machine};
ghost use Rattle.il_model.specs.Accepted.{IsOfText};
ghost use Rattle.store_object.specs.declared.ending.Chooser.{Chooser};
ghost use Rattle.store_object.specs.declared.ending.Ending.{Ending};
ghost use Rattle.cil_meaning.specs.Shown.{History};
ghost use Rattle.cil_verify.specs.Verifies.{IsVerified};
ghost use Rattle.cil_verify.specs.declared.verified.Verified.{Verified};
ghost use Rattle.unshared.specs.Runs.{HasNumbersFor, IsMeant, IsSure, IsSureEnding};
ghost use Rattle.cil_safety.specs.NeverStuck.{NeverStuck};

/// Under any naming and any numbers, a plain run of a program has a legal history. It does nothing; its clause is what
/// is proved.
pub fn plain_runs_are_legal()
    ensures { (p : Program) (n : Naming Mention TExpr) (numbers : List ℕ) → Legal p n (run (machine p n) numbers []).world.history }
{}

/// A list of at most 2^32 types, each once, is a naming. It does nothing; its clause is what is proved.
pub fn lists_name_types()
    ensures { (trees : List TExpr) → IsOnce trees → length trees ≤ 2 ^ 32 → IsNaming (naming_of trees) }
{}

/// A plain run of a program that is never stuck ends as nobody lives or as all turns are made, where the naming has each
/// number that the run asks for. It does nothing; its clause is what is proved.
pub fn plain_runs_end_surely()
    ensures { (p : Program) (n : Naming Mention TExpr) (numbers : List ℕ) → NeverStuck p → IsNaming n →
        HasNumbersFor n p (run (machine p n) numbers []).ending → IsSure (run (machine p n) numbers []).ending }
{}

/// The plain run of a program of an accepted text that passed the verifier ends as its meaning says, at a limit, or as all
/// turns are made; never for want of a rule. It does nothing; its clause is what is proved.
pub fn verified_runs_end_surely()
    ensures { (v : Verified) (chooser : Chooser) (turns : ℕ) (trees : List TExpr) (schedule order : List ℕ) (history : History) (ending : Ending) →
        IsOfText v.program → IsVerified v → IsMeant v.program chooser turns trees schedule order history ending → IsSureEnding ending }
{}
