// The calls of files and sinks in memory.
ghost use Rattle.std.specs.Prelude.{◌≡◌, ◌↔◌, IsTrue};
ghost use Rattle.mn_outside.specs.Calls.{Fails};
ghost use Rattle.mn_outside.specs.Calls.{next_call as the_next_call, next_fault as the_next_fault};

// Whether the call with this number is one of those that fail.
pub(crate) fn is_failing(fail: &[u32], number: u32) -> bool
    ensures { IsTrue result ↔ Fails fail.now number }
{
    number < u32::MAX && fail.contains(&number)
}

// The number of the next call.
pub(crate) fn next_call(number: u32) -> u32
    ensures { result ≡ the_next_call number }
{
    number.saturating_add(1)
}

// The count of faults after one more.
pub(crate) fn next_fault(faults: u64) -> u64
    ensures { result ≡ the_next_fault faults }
{
    faults.saturating_add(1)
}
