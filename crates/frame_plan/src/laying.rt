// Where places of given widths lie.
ghost use Rattle.std.specs.Prelude.{◌≡◌, ◌+◌, ◌++◌, ◌∷◌, [], IfOk, OnOk};
ghost use Rattle.frame_plan.specs.Planned.{laid};

use cil_flow::Plan;
use mn_outside::NoMemory;
use sqlite_items::Items;
use std::alloc::Global;

// The frame with places of these widths, one behind the other, and a list of so many addresses.
pub(crate) fn laid(alloc: Global, widths: Items<u32>, addresses: usize) -> Result<Plan, NoMemory>
    ensures { IfOk result (λ plan. plan ≡ laid widths addresses) }
{
    let mut at: u32 = 8;
    let mut offsets: Items<u32> = Items::new(alloc);
    for width in widths.as_slice() {
        put(&mut offsets, at)?;
        at = add(at, *width)?;
    }
    let addresses = number(addresses)?;
    let list = add(at, 16)?;
    let frame = add(list, addresses)?;
    Ok(Plan {
        offsets,
        widths,
        scratch: at,
        list,
        frame,
    })
}

// Puts a number at the end.
pub(crate) fn put(numbers: &mut Items<u32>, last: u32) -> Result<(), NoMemory>
    ensures { OnOk result (numbers.new ≡ numbers.old ++ last ∷ []) }
{
    numbers.push(last).map_err(|_| NoMemory)
}

// No frame comes near 4,294,967,295 words; one of more is want of memory.
fn add(at: u32, more: u32) -> Result<u32, NoMemory>
    ensures { IfOk result (λ sum. sum ≡ at + more) }
{
    match at.checked_add(more) {
        Some(sum) => Ok(sum),
        None => Err(NoMemory),
    }
}

fn number(count: usize) -> Result<u32, NoMemory>
    ensures { IfOk result (λ number. number ≡ count) }
{
    if count > u32::MAX as usize {
        return Err(NoMemory);
    }
    Ok(count as u32)
}
