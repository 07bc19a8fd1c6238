ghost use Rattle.std.specs.Prelude.{◌≡◌, ◌≢◌, ℕ, List, [], ◌∷◌, length, Some, slice_index};
ghost use Rattle.interaction.specs.declared.history.Event.{Event};
ghost use Rattle.interaction.specs.Process.{Larger};
ghost use Rattle.interaction.specs.History.{Legal, NeverStuck, part};
ghost use Rattle.interaction.specs.Thread.{Turn};
ghost use Rattle.interaction.specs.LooseRun.{LooseRun};
ghost use Rattle.interaction.specs.Progress.{Advances};
ghost use Rattle.interaction.specs.Endings.{EndsSo};
ghost use Rattle.interaction.specs.Sound.{Sound, Progresses, RunsWell};
ghost use Rattle.interaction.specs.Run.{run, turns_of, ends_in};
ghost use Rattle.interaction.specs.RunLaws.{Grows};
ghost use Rattle.interaction.specs.CounterObject.{Request, Reply, counter};
ghost use Rattle.interaction.specs.CounterProcess.{Left, naming_of, meaning, begin};
ghost use Rattle.interaction.specs.CounterRun.{schedule, IsAdded};
ghost use Rattle.interaction.specs.CounterThread.{State, Ended, machine, want, gain, Fits, Known};

/// The laws of this crate at its example: threads that fill two words lazily and add to one sum.
/// It does nothing; its clauses are what is proved.
pub fn counter_runs_soundly()
    // No process is stuck after a legal history, whatever the words name.
    ensures never_stuck { (w : List ℕ) → NeverStuck counter (naming_of w) meaning begin }

    // Every loose run has a legal history, and its threads' turns are paid for.
    ensures sound { Sound machine Fits Known naming_of meaning begin }
    ensures progress { Progresses machine Fits Known naming_of meaning gain begin }

    // Every run under a schedule is a loose run with its last words, so its history is legal.
    ensures loose { (ks w : List ℕ) → Fits w → let y = (run machine ks w).world in LooseRun counter want machine.begin (slice_index y.words) (Known y.words) y.history (λ u. turns_of u y.turns) (ends_in machine Ended y) }
    ensures runs { (ks w : List ℕ) → Fits w → RunsWell machine Fits naming_of meaning begin (run machine ks w) }

    ensures ends { (ks w : List ℕ) → Fits w → EndsSo machine (length ks) (run machine ks w).world (run machine ks w).ending }

    // What is legal under words stays legal as they grow.
    ensures grows { (w v : List ℕ) (h : List (Event Request Reply)) → Grows (slice_index w) (slice_index v) → Legal counter (naming_of w) meaning begin h → Legal counter (naming_of v) meaning begin h }

    // Two threads at once: the second one's claim of the entry finds the first one's word.
    ensures example { IsAdded (run machine schedule (0 ∷ 0 ∷ [])) }
{}
