// What written bodies stand for.
ghost use Rattle.il_parse.specs.Looking.{Looks, each_of};
ghost use Rattle.il_parse.specs.NamedBodies as spec;

use crate::fault::ReadError;
use crate::labels::{Labels, label_named};
use crate::literal_table::Literals;
use crate::looking::repeated;
use crate::named_lines::lines_named;
use crate::named_params::params_named;
use crate::named_types::type_named;
use crate::scope::Scope;
use il_model::{Body, Clause, Sort, WrittenBody, WrittenClause};
use sqlite_items::Items;
use std::alloc::Global;

#[tactic(auto, unfolding(crate::specs::NamedBodies::clause_named))]
fn clause_named(
    alloc: Global,
    scope: &Scope<'_>,
    labels: &Labels<'_>,
    written: &WrittenClause,
) -> Result<Clause, ReadError>
    ensures { Looks (spec.clause_named scope.now labels.now written.now) result }
{
    let from = label_named(labels, &written.from)?;
    let to = label_named(labels, &written.to)?;
    let kind = type_named(alloc, scope, &written.catches)?;
    let handler = label_named(labels, &written.handler)?;
    let end = label_named(labels, &written.end)?;
    Ok(Clause {
        from,
        to,
        sort: Sort::Catch(kind),
        handler,
        end,
    })
}

fn clauses_named(
    alloc: Global,
    scope: &Scope<'_>,
    labels: &Labels<'_>,
    written: &[WrittenClause],
) -> Result<Items<Clause>, ReadError>
    ensures { Looks (each_of (spec.clause_named scope.now labels.now) written.now) result }
{
    let mut found = Items::new(alloc);
    for clause in written {
        found.push(clause_named(alloc, scope, labels, clause)?)?;
    }
    Ok(found)
}

// Refuses a second entry point.
fn entry_once(begun: bool, entry: Option<u32>) -> Result<(), ReadError>
    ensures { Looks (spec.entry_once begun entry) result }
{
    match entry {
        Some(at) => {
            if begun {
                return Err(repeated(at));
            }
            Ok(())
        }
        None => Ok(()),
    }
}

/// A body, where an entry point was met or not. Labels are those of this body alone.
#[tactic(auto, unfolding(crate::specs::NamedBodies::body_named))]
pub(crate) fn body_named(
    alloc: Global,
    scope: &Scope<'_>,
    literals: &Literals,
    begun: bool,
    written: &WrittenBody,
) -> Result<Body, ReadError>
    ensures { Looks (spec.body_named scope.now literals.now begun written.now) result }
{
    entry_once(begun, written.entry)?;
    let locals = params_named(alloc, scope, written.locals.as_slice())?;
    let labels = Labels::of(alloc, written.lines.as_slice())?;
    let code = lines_named(alloc, scope, literals, &labels, written.lines.as_slice())?;
    let clauses = clauses_named(alloc, scope, &labels, written.clauses.as_slice())?;
    Ok(Body {
        locals,
        code,
        clauses,
    })
}
