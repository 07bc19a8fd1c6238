// What the code of a body is made from.
use cil_flow::{Plan, States};
use il_model::{MethodDef, Program};
use mn_outside::Label;

/// A method of a program with the stacks before its instructions, the plan of its frames, and a label for each
/// instruction.
#[derive(Clone, Copy)]
pub(crate) struct BodyParts<'a> {
    pub(crate) program: &'a Program,
    pub(crate) method: &'a MethodDef,
    pub(crate) states: &'a States,
    pub(crate) plan: &'a Plan,
    pub(crate) labels: &'a [Label],
}
