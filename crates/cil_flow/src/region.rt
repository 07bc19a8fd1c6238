// Tries and handlers, and the borders that control crosses.
ghost use Rattle.std.specs.Prelude.{◌≡◌};
ghost use Rattle.cil_flow.specs.Regions as spec;

use il_model::Clause;

/// Instructions of a body in a row: from the number `from` up to but not including `to`.
#[derive(Clone, Copy, Debug, PartialEq, Eq)]
pub struct Region {
    pub from: u32,
    pub to: u32,
}

pub(crate) fn try_of(clause: &Clause) -> Region
    ensures { result ≡ spec.try_of clause.now }
{
    Region {
        from: clause.from,
        to: clause.to,
    }
}

pub(crate) fn handler_of(clause: &Clause) -> Region
    ensures { result ≡ spec.handler_of clause.now }
{
    Region {
        from: clause.handler,
        to: clause.end,
    }
}

fn holds(region: Region, at: u32) -> bool
    ensures { result ≡ spec.holds region at }
{
    region.from <= at && at < region.to
}

fn begins(region: Region, at: u32) -> bool
    ensures { result ≡ spec.begins region at }
{
    region.from == at && at < region.to
}

fn encloses(clause: &Clause, at: u32) -> bool
    ensures { result ≡ spec.encloses clause.now at }
{
    holds(try_of(clause), at) || holds(handler_of(clause), at)
}

// Whether the instruction stands in a try or a handler.
pub(crate) fn is_enclosed(clauses: &[Clause], at: u32) -> bool
    ensures { result ≡ spec.is_enclosed clauses.now at }
{
    clauses.iter().any(|clause| encloses(clause, at))
}

pub(crate) fn begins_try(clauses: &[Clause], at: u32) -> bool
    ensures { result ≡ spec.begins_try clauses.now at }
{
    clauses.iter().any(|clause| begins(try_of(clause), at))
}

pub(crate) fn begins_handler(clauses: &[Clause], at: u32) -> bool
    ensures { result ≡ spec.begins_handler clauses.now at }
{
    clauses.iter().any(|clause| begins(handler_of(clause), at))
}

fn goes_out(region: Region, at: u32, to: u32) -> bool
    ensures { result ≡ spec.goes_out region at to }
{
    holds(region, at) && !holds(region, to)
}

fn goes_in(region: Region, at: u32, to: u32) -> bool
    ensures { result ≡ spec.goes_in region at to }
{
    !holds(region, at) && holds(region, to)
}

// Whether going from one instruction to another crosses a border of the clause.
fn crosses_clause(clause: &Clause, at: u32, to: u32) -> bool
    ensures { result ≡ spec.crosses_clause clause.now at to }
{
    let tried = try_of(clause);
    let handler = handler_of(clause);
    goes_out(tried, at, to)
        || goes_out(handler, at, to)
        || goes_in(handler, at, to)
        || (goes_in(tried, at, to) && clause.from != to)
}

// Whether going from one instruction to another crosses the border of a region.
pub(crate) fn crosses(clauses: &[Clause], at: u32, to: u32) -> bool
    ensures { result ≡ spec.crosses clauses.now at to }
{
    clauses.iter().any(|clause| crosses_clause(clause, at, to))
}
