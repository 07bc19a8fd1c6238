// Whether types are equal, or in a list.
ghost use Rattle.std.specs.Prelude.{◌≡◌};
ghost use Rattle.type_tree.specs.Same.{is_same};
ghost use Rattle.il_model.specs.Trees.{is_among};

use type_tree::TExpr;

/// Whether two types are equal.
pub fn is_same(first: &TExpr, second: &TExpr) -> bool
    ensures { result ≡ is_same first.now second.now }
{
    first.same(second)
}

/// Whether the type is one of the list.
pub fn is_among(kinds: &[TExpr], kind: &TExpr) -> bool
    ensures { result ≡ is_among kinds.now kind.now }
{
    for each in kinds {
        if is_same(each, kind) {
            return true;
        }
    }
    false
}
