// That a plan is legal, and a method small, as the emitters ask for.
ghost use Rattle.std.specs.Prelude.{◌≡◌, ◌+◌, ◌≤◌, IsTrue};
ghost use Rattle.cil_flow.specs.FramePlans.{IsPlan};
ghost use Rattle.rv_codegen.specs.Emitted.{IsSmallView};

use cil_flow::Plan;
use cil_verify::BodyView;

pub(crate) fn is_plan(plan: &Plan) -> bool
    ensures { IsTrue result → IsPlan plan.now }
{
    let offsets = plan.offsets.as_slice();
    let widths = plan.widths.as_slice();
    if widths.len() != offsets.len() {
        return false;
    }
    let mut end: u64 = 8;
    for place in 0..offsets.len() {
        let offset = u64::from(offsets[place]);
        let width = u64::from(widths[place]);
        if width > 16 || offset < end {
            return false;
        }
        end = offset + width;
    }
    if end > u64::from(plan.scratch) {
        return false;
    }
    lies_last(plan)
}

fn lies_last(plan: &Plan) -> bool
    ensures { IsTrue result → (plan.now.list ≡ plan.now.scratch + 16) × (plan.now.list ≤ plan.now.frame) × (plan.now.frame ≤ 2064) }
{
    let scratch = u64::from(plan.scratch);
    let list = u64::from(plan.list);
    list == scratch + 16 && list <= u64::from(plan.frame) && plan.frame <= 2_064
}

pub(crate) fn is_small(body: &BodyView) -> bool
    ensures { IsTrue result → IsSmallView body.now }
{
    let Some(method) = body
        .program
        .program
        .methods
        .as_slice()
        .get(body.method as usize)
    else {
        return false;
    };
    let locals = match &method.body {
        Some(body) => body.locals.len(),
        None => 0,
    };
    method.params.len() < 120 && locals < 120 && method.params.len() + locals < 120
}
