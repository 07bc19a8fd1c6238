// The front of a list.
ghost use Rattle.std.specs.Prelude.{◌≡◌, ◌≤◌, length, take};

// The first so many items, or all where there are no more.
pub(crate) fn front_of<T>(items: &[T], most: usize) -> &[T]
    ensures front { result.now ≡ take most items.now }
    ensures few { length result.now ≤ most }
{
    if items.len() <= most {
        return items;
    }
    &items[..most]
}
