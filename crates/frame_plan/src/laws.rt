// Laws of the definitions.
ghost use Rattle.frame_plan.specs.Held.{PlacesHoldValues};

/// Places are wide enough: whatever arguments a key without Ref serves, a value of an admitted type has no
/// more words than a place for the type. It does nothing; its clause is what is proved.
pub fn places_hold_values()
    ensures held { PlacesHoldValues }
{}
