// Depths that meet where control arrives.
ghost use Rattle.std.specs.Prelude.{◌≡◌, ◌<◌, ◌≤◌, ◌+◌, ◌-◌, ◌^◌, ℕ, length, slice_index};
ghost use Rattle.std.specs.List.{list_any};
ghost use Rattle.cil_flow.specs.Control.{any_follower};
ghost use Rattle.cil_flow.specs.Depths as depths;
ghost use Rattle.cil_flow.specs.Pass as spec;

use crate::control::{Control, control_of, falls, targets_of};
use crate::effect::Effect;
use crate::region::{begins_handler, begins_try};
use il_model::{Clause, Op};

// The depth where an instruction goes on: `leave` empties the stack.
pub(crate) fn depth_left(control: Control, effect: Effect, depth: u32) -> u32
    requires enough { effect.takes ≤ depth }
    requires small { effect.leaves ≤ 2 }
    requires shallow { depth ≤ 65536 }
    ensures { result ≡ depths.depth_left control effect depth }
{
    match control {
        Control::Leaves => 0,
        Control::Falls
        | Control::Jumps
        | Control::Branches
        | Control::Returns
        | Control::Stops
        | Control::Refused => depth - effect.takes as u32 + effect.leaves as u32,
    }
}

// With which depth an instruction went on to this one, so far as is known.
pub(crate) fn known(arrived: &[Option<u32>], to: u32) -> Option<u32>
    ensures { result ≡ spec.known arrived.now to }
{
    match arrived.get(to as usize) {
        Some(depth) => *depth,
        None => None,
    }
}

fn depth_at(depth: &[u32], at: u32) -> u32
    ensures { result ≡ slice_index depth.now at }
{
    match depth.get(at as usize) {
        Some(found) => *found,
        None => 0,
    }
}

// The depth at an instruction to which the one at `at` goes on with so many values.
fn expected(
    clauses: &[Clause],
    arrived: &[Option<u32>],
    depth: &[u32],
    at: u32,
    left: u32,
    to: u32,
) -> u32
    ensures { result ≡ spec.expected clauses.now arrived.now depth.now at left to }
{
    if to <= at {
        return depth_at(depth, to);
    }
    if begins_handler(clauses, to) {
        return 1;
    }
    known(arrived, to).unwrap_or(left)
}

// Whether a rule on the depth is broken there.
fn clashes(
    clauses: &[Clause],
    arrived: &[Option<u32>],
    depth: &[u32],
    at: u32,
    left: u32,
    to: u32,
) -> bool
    ensures { result ≡ spec.clashes clauses.now arrived.now depth.now at left to }
{
    if expected(clauses, arrived, depth, at, left, to) != left {
        return true;
    }
    left != 0 && (begins_try(clauses, to) || to <= at && known(arrived, to).is_none())
}

fn is_some_clashing(
    clauses: &[Clause],
    arrived: &[Option<u32>],
    depth: &[u32],
    at: u32,
    left: u32,
    to: &[u32],
) -> bool
    ensures { result ≡ list_any (spec.clashes clauses.now arrived.now depth.now at left) to.now }
{
    to.iter()
        .any(|j| clashes(clauses, arrived, depth, at, left, *j))
}

/// Whether a rule on the depth is broken at some instruction that this one goes on to.
pub(crate) fn clashes_somewhere(
    clauses: &[Clause],
    arrived: &[Option<u32>],
    depth: &[u32],
    at: u32,
    left: u32,
    op: &Op,
) -> bool
    requires { at < 2 ^ 32 - 1 }
    ensures { result ≡ any_follower (spec.clashes clauses.now arrived.now depth.now at left) op.now at }
{
    is_some_clashing(clauses, arrived, depth, at, left, targets_of(op))
        || (falls(control_of(op)) && clashes(clauses, arrived, depth, at, left, at + 1))
}

// Notes that the instruction at `at` goes on to `to`, unless an earlier one does.
fn note(arrived: &mut [Option<u32>], at: u32, left: u32, to: u32)
    ensures size { length arrived.new ≡ length arrived.old }
    ensures known { (j : ℕ) → j < length arrived.old → spec.known arrived.new j ≡ spec.noted arrived.old at left to j }
{
    if to <= at {
        return;
    }
    if let Some(None) = arrived.get(to as usize) {
        arrived[to as usize] = Some(left);
    }
}

fn note_targets(arrived: &mut [Option<u32>], at: u32, left: u32, targets: &[u32])
    ensures size { length arrived.new ≡ length arrived.old }
    ensures known { (j : ℕ) → j < length arrived.old → spec.known arrived.new j ≡ spec.noted_among arrived.old at left targets.now j }
{
    for to in targets {
        note(arrived, at, left, *to);
    }
}

/// Notes where the instruction at `at` goes on, with the depth that it leaves.
pub(crate) fn note_followers(arrived: &mut [Option<u32>], at: u32, left: u32, op: &Op)
    requires { at < 2 ^ 32 - 1 }
    ensures size { length arrived.new ≡ length arrived.old }
    ensures known { (j : ℕ) → j < length arrived.old → spec.known arrived.new j ≡ spec.noted_by arrived.old op.now at left j }
{
    note_targets(arrived, at, left, targets_of(op));
    if falls(control_of(op)) {
        note(arrived, at, left, at + 1);
    }
}
