// What written methods stand for.
ghost use Rattle.std.specs.Prelude.{◌≡◌, length};
ghost use Rattle.il_parse.specs.Looking.{Looks, perhaps_of};
ghost use Rattle.il_parse.specs.NamedBodies.{body_named};
ghost use Rattle.il_parse.specs.NamedClasses.{method_named};
ghost use Rattle.il_parse.specs.Gathering.{LooksInto, added, refused_method, signed_method};

use crate::fault::{Fault, ReadError};
use crate::literal_table::Literals;
use crate::looking::repeated;
use crate::member_lists::Methods;
use crate::named_bodies::body_named;
use crate::named_params::{copied, params_named, vars_named};
use crate::named_types::result_named;
use crate::scope::{Known, Scope};
use crate::signatures::{Signature, Unsigned};
use il_model::{Body, WrittenBody, WrittenMethod};
use std::alloc::Global;

// The body of a method, if it has one.
fn perhaps_body(
    alloc: Global,
    scope: &Scope<'_>,
    literals: &Literals,
    begun: bool,
    written: &Option<WrittenBody>,
) -> Result<Option<Body>, ReadError>
    ensures { Looks (perhaps_of (body_named scope.now literals.now begun) written.now) result }
{
    match written {
        Some(written) => {
            let body = body_named(alloc, scope, literals, begun, written)?;
            Ok(Some(body))
        }
        None => Ok(None),
    }
}

// Adds a method with this signature behind those of its class.
#[tactic(auto, unfolding(crate::specs::Gathering::signed_method))]
fn add_signed(
    alloc: Global,
    scope: &Scope<'_>,
    literals: &Literals,
    owner: u16,
    methods: &mut Methods,
    begun: bool,
    m: &WrittenMethod,
    signature: Signature,
) -> Result<(), ReadError>
    requires { signature.vars ≡ length m.now.vars }
    ensures { LooksInto (added methods.old (signed_method scope.now literals.now owner methods.old begun m.now signature)) result methods.new }
{
    if methods.has(&signature) {
        return Err(repeated(m.name.at));
    }
    let vars = vars_named(alloc, scope, m.vars.as_slice())?;
    let body = perhaps_body(alloc, scope, literals, begun, &m.body)?;
    let rest = Unsigned {
        owner,
        shape: m.shape,
        vars,
        body,
    };
    methods.add(signature, rest)?;
    Ok(())
}

// What refuses a method whose parameters are refused: its type variables come first.
fn refusal(alloc: Global, scope: &Scope<'_>, m: &WrittenMethod, fault: Fault) -> ReadError
    ensures { Looks (refused_method scope.now m.now fault) (Err result) }
{
    match vars_named(alloc, scope, m.vars.as_slice()) {
        Ok(_) => ReadError::Fault(fault),
        Err(error) => error,
    }
}

/// Adds a method of the class with this number and so many type variables behind those of the class,
/// where an entry point was met in the text or not.
pub(crate) fn add_method(
    alloc: Global,
    known: &Known<'_>,
    owner: u16,
    of_class: usize,
    methods: &mut Methods,
    begun: bool,
    m: &WrittenMethod,
) -> Result<(), ReadError>
    ensures { LooksInto (added methods.old (method_named known.now owner of_class methods.old begun m.now)) result methods.new }
{
    let scope = known.scope(of_class, m.vars.len());
    let given = result_named(alloc, &scope, &m.result)?;
    match params_named(alloc, &scope, m.params.as_slice()) {
        Ok(params) => {
            let name = copied(alloc, &m.name.name)?;
            let signature = Signature {
                name,
                vars: m.vars.len(),
                params,
                result: given,
            };
            let literals = known.literals();
            add_signed(alloc, &scope, literals, owner, methods, begun, m, signature)
        }
        Err(ReadError::Fault(fault)) => Err(refusal(alloc, &scope, m, fault)),
        Err(ReadError::Memory) => Err(ReadError::Memory),
    }
}
