//! Images: compiled programs as bytes, both ways, and the choice of the bodies that an image has.
#![tactic(auto)]

mod bounds;
mod choice_bounds;
mod choice_cursor;
mod choice_fault;
mod choice_judging;
mod choice_keys;
mod choice_methods;
mod choice_names;
mod choice_parts;
mod choice_picks;
mod choice_read_error;
mod choice_sizes;
mod choice_start;
mod choice_types;
mod choosing;
mod decoding;
mod decoding_bodies;
mod decoding_cursor;
mod decoding_entries;
mod decoding_picks;
mod decoding_trees;
mod encoding;
mod image;
mod judging;
pub mod laws;

pub use choice_fault::{ChoiceCause, ChoiceFault};
pub use choosing::choice;
pub use decoding::decode;
pub use encoding::encode;
pub use image::{Image, ImageCause, ImageFault};
