// What a step answers.
use mn_outside::MachineFault;

/// What a step did. At `Fault` the core and the bus are as before.
#[derive(Clone, Copy, Debug, PartialEq, Eq)]
pub enum Step {
    Went,
    /// ECALL: a service is called, and pc is past it.
    Call,
    Fault(MachineFault),
}
