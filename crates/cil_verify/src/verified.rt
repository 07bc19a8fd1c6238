// Programs that passed, with the states of their methods.
ghost use Rattle.std.specs.Prelude.{◌≡◌, ◌<◌, Some, length, slice_get};

use cil_flow::States;
use il_model::Program;
use sqlite_items::Items;

/// A program with the states of its methods, one list for each method, which is empty for a method without
/// a body.
#[derive(Drop)]
pub struct Verified {
    pub program: Program,
    pub states: Items<States>,
}

impl Verified {
    pub fn program(&self) -> &Program
        ensures { result.now ≡ self.now.program }
    {
        &self.program
    }

    /// The stack before each instruction of the method with this number, from 0.
    pub fn states(&self, method: u16) -> &States
        requires { method < length self.now.states }
        ensures { slice_get self.now.states method ≡ Some result.now }
    {
        &self.states.as_slice()[method as usize]
    }

    /// The states of all methods, in order of their numbers.
    pub fn all_states(&self) -> &[States]
        ensures { result.now ≡ self.now.states }
    {
        self.states.as_slice()
    }
}
