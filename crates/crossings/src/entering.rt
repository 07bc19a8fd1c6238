// Calls.
ghost use Rattle.std.specs.Prelude.{◌≡◌, ◌≢◌, ◌↔◌, ◌+◌, ◌*◌, ◌<◌, ◌≤◌, length, Ok, None, IfOk, OnOk, OnErr, IfSome};
ghost use Rattle.std.specs.Option.{option_copied};
ghost use Rattle.rgctx_words.specs.Frames.{header, header_count, place_words, most_frames};
ghost use Rattle.rgctx_words.specs.Memory.{beyond};
ghost use Rattle.rgctx_words.specs.Stacks.{mem_of, current_address, entered};
ghost use Rattle.crossings.specs.Calls.{AreListed, AreWidths, IsBodyFrame, most_places, callee_frame, called_interpreted, interpreted_word, callee_word, after_call, entered_as};
ghost use Rattle.crossings.specs.declared.call.Entered.TheVariants.{Deep};

use crate::call::{CallWords, Entered};
use crate::copying::copy_arguments;
use il_model::BodyRow;
use mn_outside::NoMemory;
use rgctx_words::{MOST_FRAMES, NewFrame, Stack, interpreted_length};

// Puts a frame of zeros on top, whose header says what the call handed over.
fn enter_frame(stack: &mut Stack, call: &CallWords, words: u32) -> Result<(), NoMemory>
    requires depth { length stack.old.bases < most_frames }
    requires words { IsBodyFrame words }
    ensures ok { OnOk result (stack.new ≡ entered stack.old (callee_frame call.now words)) }
    ensures memory { OnOk result (mem_of stack.new ≡ beyond (length stack.old.words) (header (current_address stack.old) (callee_frame call.now words)) (mem_of stack.old)) }
    ensures err { OnErr result (stack.new ≡ stack.old) }
{
    stack.enter(&NewFrame {
        back: call.back,
        node: call.node,
        target: call.result,
        words,
    })
}

// Puts an interpreted frame on top, with the arguments in its places.
fn enter_interpreted(
    stack: &mut Stack,
    call: &CallWords,
    words: u32,
    widths: &[u32],
) -> Result<(), NoMemory>
    requires depth { length stack.old.bases < most_frames }
    requires words { IsBodyFrame words }
    requires room { header_count + place_words * length widths.now ≤ words }
    requires widths { AreWidths widths.now most_places }
    requires listed { AreListed stack.old.words call.now.list widths.now }
    ensures ok { OnOk result (stack.new ≡ called_interpreted stack.old call.now words widths.now) }
    ensures memory { OnOk result (mem_of stack.new ≡ beyond (length stack.old.words) (interpreted_word stack.old call.now.list widths.now (callee_frame call.now words)) (mem_of stack.old)) }
    ensures err { OnErr result (stack.new ≡ stack.old) }
{
    let base = stack.end();
    enter_frame(stack, call, words)?;
    copy_arguments(stack, base, call.list, widths);
    Ok(())
}

/// Calls a method: puts its frame on top, with a body's length, or for the interpreter where there is no
/// `row`. Then its places have 16 words each, and each argument's words, which `call.list` lists, stand at
/// the beginning of its place; a body copies its arguments itself. `places` counts the callee's arguments,
/// locals and stack places, `list` the words of its own list of argument addresses, and `widths` has the
/// words of each argument. Answers where the thread goes on, the address of the body's first code word or the
/// interpreter; Deep exactly at 1,024 frames, which changes nothing and takes no memory. Want of memory
/// leaves the stack as it was. This project's own.
pub fn enter(
    stack: &mut Stack,
    call: &CallWords,
    row: Option<&BodyRow>,
    places: u32,
    list: u32,
    widths: &[u32],
) -> Result<Entered, NoMemory>
    requires frame { IfSome (option_copied row) (λ r. IsBodyFrame r.frame) }
    requires places { places ≤ most_places }
    requires list { list ≤ most_places }
    requires widths { AreWidths widths.now places }
    requires listed { option_copied row ≡ None → AreListed stack.old.words call.now.list widths.now }

    ensures answer { IfOk result (λ e. e ≡ entered_as stack.old (option_copied row.entry)) }
    ensures deep { (result ≡ Ok Deep) ↔ (length stack.old.bases ≡ most_frames) }
    ensures frames { OnOk result (stack.new ≡ after_call stack.old call.now (option_copied row.entry) places list widths.now) }
    ensures memory { OnOk result (length stack.old.bases ≢ most_frames → mem_of stack.new ≡ beyond (length stack.old.words) (callee_word stack.old call.now (option_copied row.entry) places list widths.now) (mem_of stack.old)) }
    ensures err { OnErr result (stack.new ≡ stack.old) }
{
    if stack.depth() == MOST_FRAMES {
        return Ok(Entered::Deep);
    }
    match row {
        Some(row) => {
            enter_frame(stack, call, row.frame)?;
            Ok(Entered::Machine(0x1_0000 + 4 * u64::from(row.entry)))
        }
        None => {
            enter_interpreted(stack, call, interpreted_length(places, list), widths)?;
            Ok(Entered::Interp)
        }
    }
}
