//! The context words of an image's instantiations, and the frame words of one thread.
#![tactic(auto)]

mod directory;
mod frame;
mod node_word;
mod place;
mod plain;
mod regions;
mod rule;
mod stack;
#[cfg(test)]
mod tests;

pub use directory::DirectoryWord;
pub use frame::{
    BACK, CALLER, HEADER_WORDS, INSTR, LENGTH, METHOD, MOST_FRAME_WORDS, MOST_FRAMES, NewFrame,
    RESULT, frame_address, interpreted_length, place_offset,
};
pub use node_word::{Definition, NodeWord};
pub use place::{ContextPlace, depth_of, slot_of};
pub use plain::PlainWords;
pub use regions::{NODES, ROWS, WORDS, context_address, context_index, row_address, row_at};
pub use rule::{Words, WordsRule};
pub use stack::Stack;
