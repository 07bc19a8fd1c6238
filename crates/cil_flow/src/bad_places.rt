// The rules on clauses.
ghost use Rattle.std.specs.Prelude.{◌≡◌, ◌&&◌, not, fold};
ghost use Rattle.type_tree.specs.Same.{is_same};
ghost use Rattle.cil_flow.specs.Regions as spec;

use crate::region::{Region, begins_handler, handler_of, try_of};
use il_model::{Clause, Sort};
use type_tree::TExpr;

fn is_vacant(count: u32, region: Region) -> bool
    ensures { result ≡ spec.is_vacant count region }
{
    region.to <= region.from || count <= region.from
}

// Where a rule on a clause is judged.
fn place_of_clause(count: u32, clause: &Clause) -> u32
    ensures { result ≡ spec.place_of_clause count clause.now }
{
    if is_vacant(count, try_of(clause)) {
        0
    } else {
        clause.from
    }
}

fn place_of_both(count: u32, clause: &Clause, other: &Clause) -> u32
    ensures { result ≡ spec.place_of_both count clause.now other.now }
{
    place_of_clause(count, clause).min(place_of_clause(count, other))
}

fn is_finally(sort: &Sort) -> bool
    ensures { result ≡ spec.is_finally sort.now }
{
    match sort {
        Sort::Catch(_) => false,
        Sort::Finally => true,
    }
}

// Whether a rule on this one clause is broken.
fn is_bad_clause(count: u32, clauses: &[Clause], clause: &Clause) -> bool
    ensures { result ≡ spec.is_bad_clause count clauses.now clause.now }
{
    is_finally(&clause.sort)
        || is_vacant(count, try_of(clause))
        || is_vacant(count, handler_of(clause))
        || clause.handler < clause.from
        || begins_handler(clauses, clause.from)
}

// Whether the first region begins earlier, and ends inside the second.
fn runs_into(region: Region, other: Region) -> bool
    ensures { result ≡ spec.runs_into region other }
{
    region.from < other.from && other.from < region.to && region.to < other.to
}

// Whether two regions are neither nested nor apart.
fn overlaps(region: Region, other: Region) -> bool
    ensures { result ≡ spec.overlaps region other }
{
    runs_into(region, other) || runs_into(other, region)
}

fn clauses_overlap(clause: &Clause, other: &Clause) -> bool
    ensures { result ≡ spec.clauses_overlap clause.now other.now }
{
    overlaps(try_of(clause), try_of(other))
        || overlaps(try_of(clause), handler_of(other))
        || overlaps(handler_of(clause), try_of(other))
        || overlaps(handler_of(clause), handler_of(other))
}

// Whether the try of the earlier clause holds that of the later one, which is smaller.
fn holds_smaller(clause: &Clause, later: &Clause) -> bool
    ensures { result ≡ spec.holds_smaller clause.now later.now }
{
    clause.from <= later.from
        && later.to <= clause.to
        && (clause.from < later.from || later.to < clause.to)
}

fn is_same(kind: &TExpr, other: &TExpr) -> bool
    ensures { result ≡ is_same kind.now other.now }
{
    kind.same(other)
}

fn catch_differently(sort: &Sort, other: &Sort) -> bool
    ensures { result ≡ spec.catch_differently sort.now other.now }
{
    match (sort, other) {
        (Sort::Catch(kind), Sort::Catch(caught)) => !is_same(kind, caught),
        (Sort::Finally, _) | (Sort::Catch(_), Sort::Finally) => false,
    }
}

// Whether the handlers of two clauses of different types begin with one instruction.
fn share_handler(clause: &Clause, other: &Clause) -> bool
    ensures { result ≡ spec.share_handler clause.now other.now }
{
    clause.handler == other.handler && catch_differently(&clause.sort, &other.sort)
}

fn is_bad_pair(clause: &Clause, later: &Clause) -> bool
    ensures { result ≡ spec.is_bad_pair clause.now later.now }
{
    clauses_overlap(clause, later) || holds_smaller(clause, later) || share_handler(clause, later)
}

// The lower of a place and the lowest one so far.
fn lower(lowest: Option<u32>, at: u32) -> Option<u32>
    ensures { result ≡ spec.lower lowest at }
{
    match lowest {
        Some(place) => Some(place.min(at)),
        None => Some(at),
    }
}

// The lowest place so far, where this one counts only if a rule is broken there.
fn lower_if(lowest: Option<u32>, is_broken: bool, at: u32) -> Option<u32>
    ensures { result ≡ spec.lower_if lowest is_broken at }
{
    if is_broken { lower(lowest, at) } else { lowest }
}

// The lowest place at which a rule on one clause is broken.
fn lowest_of_clauses(clauses: &[Clause], count: u32) -> Option<u32>
    ensures { result ≡ spec.lowest (spec.places_of_clauses count clauses.now clauses.now) }
{
    let mut lowest = None;
    for clause in clauses {
        let is_broken = is_bad_clause(count, clauses, clause);
        lowest = lower_if(lowest, is_broken, place_of_clause(count, clause));
    }
    lowest
}

// The lowest place so far or at which a rule on this clause and one of the others is broken.
fn lowest_with(lowest: Option<u32>, count: u32, clause: &Clause, later: &[Clause]) -> Option<u32>
    ensures { result ≡ fold spec.lower lowest (spec.places_with count clause.now later.now) }
{
    let mut lowest = lowest;
    for other in later {
        let is_broken = is_bad_pair(clause, other);
        lowest = lower_if(lowest, is_broken, place_of_both(count, clause, other));
    }
    lowest
}

/// The lowest place at which a rule on clauses is broken.
pub(crate) fn first_bad_place(clauses: &[Clause], count: u32) -> Option<u32>
    ensures { result ≡ spec.first_bad_place count clauses.now }
{
    let mut lowest = lowest_of_clauses(clauses, count);
    for i in 0..clauses.len() {
        let (_, later) = clauses.split_at(i);
        lowest = lowest_with(lowest, count, &clauses[i], later);
    }
    lowest
}
