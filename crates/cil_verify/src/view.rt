// What the code of an instruction is made from.
use crate::verified::Verified;
use cil_flow::Plan;
use il_model::{Entry, Key};
use mn_outside::Label;

/// A method of a program that passed, with the key that it is compiled for, the plan of its frames, the closed
/// entries of the image and a label for each instruction.
#[derive(Clone, Copy)]
pub struct BodyView<'a> {
    pub program: &'a Verified,
    /// The method's number, from 0.
    pub method: u16,
    pub key: &'a Key,
    pub plan: &'a Plan,
    pub got: &'a [Entry],
    pub labels: &'a [Label],
}
