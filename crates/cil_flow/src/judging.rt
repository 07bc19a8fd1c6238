// The rules on one instruction that need no other depth than its own.
ghost use Rattle.std.specs.Prelude.{◌≡◌, ◌<◌, ◌≤◌, ◌^◌, ◌-◌, length, nat_le};
ghost use Rattle.std.specs.List.{list_any};
ghost use Rattle.cil_flow.specs.Regions.{crosses};
ghost use Rattle.cil_flow.specs.Flow as spec;

use crate::control::{Control, control_of, falls, targets_of};
use crate::effect::Effect;
use crate::region::{crosses, is_enclosed};
use il_model::{Body, Clause, Op};

fn is_some_outside(count: u32, to: &[u32]) -> bool
    ensures { result ≡ list_any (λ j. nat_le count j) to.now }
{
    to.iter().any(|j| count <= *j)
}

// Whether the instruction goes on to a number past the last one.
fn leads_out(count: u32, op: &Op, at: u32) -> bool
    requires { at < count }
    ensures { result ≡ spec.leads_out count op.now at }
{
    is_some_outside(count, targets_of(op)) || (falls(control_of(op)) && count <= at + 1)
}

fn is_some_across(clauses: &[Clause], at: u32, to: &[u32]) -> bool
    ensures { result ≡ list_any (λ j. crosses clauses.now at j) to.now }
{
    to.iter().any(|j| crosses(clauses, at, *j))
}

// Whether going on crosses the border of a region.
fn crosses_border(clauses: &[Clause], op: &Op, at: u32) -> bool
    requires { at < 2 ^ 32 - 1 }
    ensures { result ≡ spec.crosses_border clauses.now op.now at }
{
    is_some_across(clauses, at, targets_of(op))
        || (falls(control_of(op)) && crosses(clauses, at, at + 1))
}

fn breaks_regions(control: Control, clauses: &[Clause], op: &Op, at: u32) -> bool
    requires { at < 2 ^ 32 - 1 }
    ensures { result ≡ spec.breaks_regions control clauses.now op.now at }
{
    match control {
        Control::Falls | Control::Jumps | Control::Branches => crosses_border(clauses, op, at),
        Control::Leaves => !is_enclosed(clauses, at),
        Control::Returns => is_enclosed(clauses, at),
        Control::Stops => false,
        Control::Refused => true,
    }
}

/// Whether a rule is broken that needs no depth: on targets, borders and forms.
pub(crate) fn is_bad_step(body: &Body, at: u32, op: &Op) -> bool
    requires few { length body.now.code ≤ 16384 }
    requires within { at < length body.now.code }
    ensures { result ≡ spec.is_bad_step body.now at op.now }
{
    let count = body.code.len() as u32;
    leads_out(count, op, at) || breaks_regions(control_of(op), body.clauses.as_slice(), op, at)
}

/// Whether the stack is deep enough; at `ret` it holds the result and nothing else.
pub(crate) fn has_enough(control: Control, effect: Effect, depth: u32) -> bool
    ensures { result ≡ spec.has_enough control effect depth }
{
    let depth = depth as usize;
    match control {
        Control::Returns => effect.takes == depth,
        Control::Falls
        | Control::Jumps
        | Control::Branches
        | Control::Leaves
        | Control::Stops
        | Control::Refused => effect.takes <= depth,
    }
}
