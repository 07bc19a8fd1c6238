// Returns.
ghost use Rattle.std.specs.Prelude.{◌≡◌, ◌≢◌, ◌↔◌, ◌<◌, ℕ, IsTrue, length};
ghost use Rattle.rgctx_words.specs.Frames.{frame_address};
ghost use Rattle.rgctx_words.specs.Memory.{beyond};
ghost use Rattle.rgctx_words.specs.Stacks.{mem_of, base_of, IsStack, end_of, left_to};
ghost use Rattle.crossings.specs.Returns.{HasCaller, IsCaller, current_word, left, goes_back};
ghost use Rattle.crossings.specs.declared.call.Left.TheVariants.{Last};

use crate::call::Left;
use rgctx_words::{BACK, CALLER, Stack};

// A header word, by its number, of the current frame.
fn current_word(stack: &Stack, number: u32) -> u64
    requires frames { 0 < length stack.now.bases }
    requires header { number < 8 }
    ensures { result ≡ current_word stack.now number }
{
    stack.word(stack.base(stack.depth() - 1) + number)
}

/// Whether there is a frame, and word 0 of the current one, unless it is the only one, is the address of a
/// frame below it. This project's own.
pub fn has_caller(stack: &Stack) -> bool
    ensures { IsTrue result ↔ HasCaller stack.now }
{
    let depth = stack.depth();
    if depth == 0 {
        return false;
    }
    if depth == 1 {
        return true;
    }
    match stack.level_at(current_word(stack, CALLER)) {
        Some(level) => level < depth - 1,
        None => false,
    }
}

// Drops all frames above the one that begins at an address, if one does.
fn leave_to_frame(stack: &mut Stack, address: u64)
    requires { IsStack stack.old }
    ensures frames { (level : ℕ) → level < length stack.old.bases → frame_address (base_of stack.old level) ≡ address → stack.new ≡ left_to stack.old level }
    ensures memory { (level : ℕ) → level < length stack.old.bases → frame_address (base_of stack.old level) ≡ address → mem_of stack.new ≡ beyond (end_of stack.old level) (λ i. 0) (mem_of stack.old) }
{
    if let Some(level) = stack.level_at(address) {
        stack.leave_to(level);
    }
}

// What goes on at a return pc.
fn goes_back(back: u64) -> Left
    ensures { result ≡ goes_back back }
{
    match back {
        0 => Left::Interp,
        _ => Left::Machine(back),
    }
}

/// Returns from a method: drops all frames above the one that word 0 of the current frame names, and answers
/// where the thread goes on, at the return pc of word 1 or, where that is 0, in the interpreter. The words of
/// the frames that stay are kept, so a result that the callee wrote to the address in word 3 is where its
/// caller wants it. Last exactly where one frame is left, which changes nothing. No memory is taken. This
/// project's own.
pub fn leave(stack: &mut Stack) -> Left
    requires { HasCaller stack.old }

    ensures answer { result ≡ left stack.old }
    ensures last { (result ≡ Last) ↔ (length stack.old.bases ≡ 1) }
    ensures frames { (level : ℕ) → length stack.old.bases ≢ 1 → IsCaller stack.old level → stack.new ≡ left_to stack.old level }
    ensures memory { (level : ℕ) → length stack.old.bases ≢ 1 → IsCaller stack.old level → mem_of stack.new ≡ beyond (end_of stack.old level) (λ i. 0) (mem_of stack.old) }
    ensures first { length stack.old.bases ≡ 1 → stack.new ≡ stack.old }
{
    if stack.depth() == 1 {
        return Left::Last;
    }
    let back = current_word(stack, BACK);
    let caller = current_word(stack, CALLER);
    leave_to_frame(stack, caller);
    goes_back(back)
}
