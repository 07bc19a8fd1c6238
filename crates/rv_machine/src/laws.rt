// Where the assembler's distances lead.
ghost use Rattle.std.specs.Prelude.{◌≡◌, ◌+◌, ◌*◌, ◌/◌, ◌%◌, ◌<◌, ◌≤◌, ℕ};
ghost use Rattle.rv_isa.specs.Assembly.{distance};
ghost use Rattle.rv_machine.specs.Arithmetic.{extended, sum_of};
ghost use Rattle.rv_machine.specs.Effect.{even};

/// A branch whose distance the assembler wrote goes to its label, a JAL too, and the two words of a
/// far jump. A law alone: it does nothing.
pub fn distances_lead_to_labels()
    ensures branch { (from to : ℕ) → from ≤ 268435456 → to ≤ 268435456 → from ≤ to + 1024 → to < from + 1024
        → sum_of (65536 + 4 * from) (extended 13 (distance from to % 8192)) ≡ 65536 + 4 * to }
    ensures jump { (from to : ℕ) → from ≤ 268435456 → to ≤ 268435456 → from ≤ to + 262144 → to < from + 262144
        → sum_of (65536 + 4 * from) (extended 21 (distance from to % 2097152)) ≡ 65536 + 4 * to }
    ensures far { (from to : ℕ) → from ≤ 268435456 → to ≤ 268435456
        → even (sum_of (sum_of (65536 + 4 * from) (extended 32 (4096 * ((distance from to + 2048) / 4096 % 1048576)))) (extended 12 (distance from to % 4096)))
        ≡ 65536 + 4 * to }
{}
