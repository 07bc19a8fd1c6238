// The signatures of methods as the keys of a table.
ghost use Rattle.std.specs.Prelude.{◌≡◌, fold};
ghost use Rattle.std.specs.Cmp.{decided, partial_equiv_from_equiv};
ghost use Rattle.std.specs.Hash.{same_Alike};
ghost use Rattle.il_parse.specs.SameTypes.{same_params, same_result};
ghost use Rattle.il_parse.specs.Signatures.{same_signature, signature_writes};
ghost use Rattle.il_parse.specs.SameSignature.{same_signature-Decides};

use crate::hashing::{feed_params, feed_result};
use il_model::{Body, PType, Shape, VarDef, same_params, same_result};
use mn_outside::Name;
use sqlite_items::Items;
use std::hash::{Hash, Hasher};
use type_tree::TExpr;

/// The signature of a method: its name, the number of its type variables, its parameters and its result.
#[derive(Drop)]
pub(crate) struct Signature {
    pub(crate) name: Name,
    pub(crate) vars: usize,
    pub(crate) params: Items<PType>,
    pub(crate) result: Option<TExpr>,
}

/// What a method has beside its signature.
#[derive(Drop)]
pub(crate) struct Unsigned {
    pub(crate) owner: u16,
    pub(crate) shape: Shape,
    pub(crate) vars: Items<VarDef>,
    pub(crate) body: Option<Body>,
}

fn are_params_same(first: &[PType], second: &[PType]) -> bool
    ensures { result ≡ same_params first.now second.now }
{
    same_params(first, second)
}

fn is_result_same(first: &Option<TExpr>, second: &Option<TExpr>) -> bool
    ensures { result ≡ same_result first.now second.now }
{
    same_result(first, second)
}

fn same_signature(first: &Signature, second: &Signature) -> bool
    ensures { result ≡ same_signature first.now second.now }
{
    first.name.text().as_bytes() == second.name.text().as_bytes()
        && first.vars == second.vars
        && are_params_same(first.params.as_slice(), second.params.as_slice())
        && is_result_same(&first.result, &second.result)
}

impl PartialEq for Signature {
    ghost eq = { same_signature };

    ghost laws = { partial_equiv_from_equiv (decided same_signature same_signature-Decides) };

    fn eq(&self, other: &Self) -> bool {
        same_signature(self, other)
    }
}

impl Eq for Signature {
    ghost laws = { decided same_signature same_signature-Decides };
}

impl Hash for Signature {
    ghost hash_input = { signature_writes };

    ghost respects_eq = { (same_Alike signature_writes same_signature-Decides).fed };

    fn hash<H: Hasher>(&self, state: &mut H) {
        state.write(self.name.text().as_bytes());
        feed_result(&self.result, state);
        feed_params(self.params.as_slice(), state);
    }
}
