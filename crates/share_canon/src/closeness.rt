// How close a key is to the types that it serves.
ghost use Rattle.std.specs.Prelude.{◌≡◌, ◌↔◌, IsTrue};
ghost use Rattle.share_canon.specs.Keys.{exact_parts, reference_parts, IsCloser};

use il_model::KeyPart;

/// Whether the first key is closer than the second, both given by their parts.
pub(crate) fn is_closer(key: &[KeyPart], other: &[KeyPart]) -> bool
    ensures { IsTrue result ↔ IsCloser key.now other.now }
{
    let exact = exact_parts(key);
    let other_exact = exact_parts(other);
    if exact != other_exact {
        return other_exact < exact;
    }
    reference_parts(other) < reference_parts(key)
}

fn exact_parts(key: &[KeyPart]) -> usize
    ensures { result ≡ exact_parts key.now }
{
    key.iter()
        .filter(|part| matches!(part, KeyPart::Exact(_)))
        .count()
}

fn reference_parts(key: &[KeyPart]) -> usize
    ensures { result ≡ reference_parts key.now }
{
    key.iter()
        .filter(|part| matches!(part, KeyPart::Ref))
        .count()
}
