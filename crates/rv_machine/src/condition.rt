// The conditions of branches.
ghost use Rattle.std.specs.Prelude.{◌≡◌};
ghost use Rattle.rv_machine.specs.Kind.{holds_of};

/// A condition on two words.
#[derive(Clone, Copy, Debug, PartialEq, Eq)]
pub(crate) enum Condition {
    Equal,
    Unequal,
    SignedLess,
    SignedNotLess,
    Less,
    NotLess,
}

// Whether a condition holds.
#[inline]
pub(crate) fn holds(condition: Condition, a: u64, b: u64) -> bool
    ensures { result ≡ holds_of condition a b }
{
    match condition {
        Condition::Equal => a == b,
        Condition::Unequal => a != b,
        Condition::SignedLess => a.cast_signed() < b.cast_signed(),
        Condition::SignedNotLess => a.cast_signed() >= b.cast_signed(),
        Condition::Less => a < b,
        Condition::NotLess => a >= b,
    }
}
