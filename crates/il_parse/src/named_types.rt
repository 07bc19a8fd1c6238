// What written types stand for.
ghost use Rattle.std.specs.Prelude.{◌≡◌, IfOk};
ghost use Rattle.il_model.specs.Names.{class_number};
ghost use Rattle.il_parse.specs.Looking.{Looks, found_or_unknown};
ghost use Rattle.il_parse.specs.NamedTypes as spec;
ghost use Rattle.il_parse.specs.Levels.{class_type, vector_type};

use crate::fault::ReadError;
use crate::looking::unknown;
use crate::scope::Scope;
use crate::variables::variable_named;
use il_model::{WrittenName, WrittenType};
use sqlite_items::Items;
use std::alloc::{AllocError, Global};
use type_tree::{Head, TExpr};

// The number of a class in a type. No text has more classes than a number of 16 bits tells apart.
fn class_head(number: usize) -> Result<Head, AllocError>
    ensures { IfOk result (λ head. head ≡ Head.Class number) }
{
    match u16::try_from(number) {
        Ok(number) => Ok(Head::Class(number)),
        Err(_) => Err(AllocError),
    }
}

// The number of the class with this name.
fn class_number(scope: &Scope<'_>, name: &WrittenName) -> Result<usize, ReadError>
    ensures { Looks (found_or_unknown (class_number scope.now.names name.now.name) name.now) result }
{
    match scope.class(name.name.text().as_bytes()) {
        Some(number) => Ok(number),
        None => Err(unknown(name)),
    }
}

/// The type that a written type stands for. It goes down as deep as the type nests.
#[cycle(named)]
pub(crate) fn type_named(
    alloc: Global,
    scope: &Scope<'_>,
    written: &WrittenType,
) -> Result<TExpr, ReadError>
    ensures { Looks (spec.type_named scope.now written.now) result }
{
    match written {
        WrittenType::Int32 => Ok(TExpr::plain(alloc, Head::Int32)),
        WrittenType::Int64 => Ok(TExpr::plain(alloc, Head::Int64)),
        WrittenType::Bool => Ok(TExpr::plain(alloc, Head::Bool)),
        WrittenType::Object => Ok(TExpr::plain(alloc, Head::Class(0))),
        WrittenType::String => Ok(TExpr::plain(alloc, Head::Class(1))),
        WrittenType::Variable(v) => variable_named(scope, v),
        WrittenType::Named(name, args) => class_type(alloc, scope, name, args.as_slice()),
        WrittenType::Vector(element) => vector_type(alloc, scope, element.get()),
    }
}

// A class with its arguments.
#[cycle(named)]
#[tactic(auto, unfolding(crate::specs::Levels::class_type))]
fn class_type(
    alloc: Global,
    scope: &Scope<'_>,
    name: &WrittenName,
    args: &[WrittenType],
) -> Result<TExpr, ReadError>
    ensures { Looks (class_type scope.now name.now args.now) result }
{
    let number = class_number(scope, name)?;
    let args = types_named(alloc, scope, args)?;
    let head = class_head(number)?;
    Ok(TExpr::node(head, args))
}

// A vector of these elements.
#[cycle(named)]
#[tactic(auto, unfolding(crate::specs::Levels::vector_type))]
fn vector_type(alloc: Global, scope: &Scope<'_>, element: &WrittenType) -> Result<TExpr, ReadError>
    ensures { Looks (vector_type scope.now element.now) result }
{
    let element = type_named(alloc, scope, element)?;
    let mut parts = Items::new(alloc);
    parts.push(element)?;
    Ok(TExpr::node(Head::Vector, parts))
}

/// The types that written types stand for, in order.
#[cycle(named)]
pub(crate) fn types_named(
    alloc: Global,
    scope: &Scope<'_>,
    written: &[WrittenType],
) -> Result<Items<TExpr>, ReadError>
    ensures { Looks (spec.types_named scope.now written.now) result }
{
    let mut found = Items::new(alloc);
    for each in written {
        found.push(type_named(alloc, scope, each)?)?;
    }
    Ok(found)
}

/// The type of a result, if there is one.
#[tactic(auto, unfolding(crate::specs::NamedTypes::result_named))]
pub(crate) fn result_named(
    alloc: Global,
    scope: &Scope<'_>,
    written: &Option<WrittenType>,
) -> Result<Option<TExpr>, ReadError>
    ensures { Looks (spec.result_named scope.now written.now) result }
{
    match written {
        Some(written) => {
            let kind = type_named(alloc, scope, written)?;
            Ok(Some(kind))
        }
        None => Ok(None),
    }
}
