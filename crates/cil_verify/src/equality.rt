// Whether types are equal, or in a list.
ghost use Rattle.std.specs.Prelude.{◌≡◌, find};
ghost use Rattle.std.specs.Option.{option_copied};
ghost use Rattle.type_tree.specs.Same.{is_same};
ghost use Rattle.il_model.specs.Trees.{is_among};

use type_tree::TExpr;

pub(crate) fn is_same(first: &TExpr, second: &TExpr) -> bool
    ensures { result ≡ is_same first.now second.now }
{
    first.same(second)
}

// Whether the type is one of the list.
pub(crate) fn is_among(kinds: &[TExpr], kind: &TExpr) -> bool
    ensures { result ≡ is_among kinds.now kind.now }
{
    for each in kinds {
        if is_same(each, kind) {
            return true;
        }
    }
    false
}

// The first of the others that is one of the list.
pub(crate) fn first_among<'a>(kinds: &[TExpr], others: &'a [TExpr]) -> Option<&'a TExpr>
    ensures { option_copied result ≡ find (is_among kinds.now) others.now }
{
    for other in others {
        if is_among(kinds, other) {
            return Some(other);
        }
    }
    None
}
