ghost use Rattle.cil_meaning.specs.SmallPrograms.{Means, faults_named, sums, sums_history, shifts, shifts_history, division, division_history, least, checked_sum, overflow_history, joins_nobody, joins_nobody_history};
ghost use Rattle.cil_meaning.specs.TypedPrograms.{classes_named, catches, catches_history, calls, calls_history, exchanges, exchanges_history, wide, wide_history, points, points_history};
ghost use Rattle.cil_meaning.specs.SlotExample.{FindsSlots};

/// What small programs mean, by histories that were written by hand: the store gives the replies, and from
/// its beginning to its end Main makes just these requests. It does nothing; its clauses are what is proved.
pub fn small_programs_mean_so()
    // Numbers: a sum that wraps, shifts by 33, a remainder and one by zero, the least number by -1, and a
    // checked sum that doesn't fit.
    ensures sums { Means sums faults_named sums_history }
    ensures shifts { Means shifts faults_named shifts_history }
    ensures division { Means division faults_named division_history }
    ensures least { Means least faults_named overflow_history }
    ensures checked_sum { Means checked_sum faults_named overflow_history }

    // Join of a thread that was never started.
    ensures joins_nobody { Means joins_nobody faults_named joins_nobody_history }

    // An exception that is caught, a call, and a static field with an exchange through its address.
    ensures catches { Means catches classes_named catches_history }
    ensures calls { Means calls classes_named calls_history }
    ensures exchanges { Means exchanges classes_named exchanges_history }

    // A field of a local struct, stored and read through its address.
    ensures points { Means points classes_named points_history }

    // A mention of a struct of 17 words, which stops the run.
    ensures wide { Means wide classes_named wide_history }

    // Which slots calls go to, on a few classes.
    ensures slots { FindsSlots }
{}
