// The members of a class as they are found, each once.
ghost use Rattle.std.specs.Prelude.{◌≡◌, ◌++◌, ◌∷◌, [], false, map, length, IfOk, OnOk, OnErr, IfErr};
ghost use Rattle.std.specs.List.{list_any};
ghost use Rattle.std.specs.Cmp.{on_equiv, on_per, partial_equiv_from_equiv};
ghost use Rattle.std.specs.Cmp.Lexicographic.{nat_list_eq_equiv};
ghost use Rattle.std.specs.Hash.{on_Alike, same_Alike};
ghost use Rattle.std.specs.Prelude.{bytes_eq, fold};
ghost use Rattle.std.proofs.lemmas.Slice.Eq.{bytes_eq-Decides};
ghost use Rattle.il_model.specs.Lexemes.{is_among};
ghost use Rattle.il_parse.specs.declared.fault.ReadError.TheVariants as error;
ghost use Rattle.il_parse.specs.Looking.{Looks, once};
ghost use Rattle.il_parse.specs.SameTypes.{has_signature};
ghost use Rattle.il_parse.specs.Signatures.{method_of};

use crate::fault::ReadError;
use crate::looking::once;
use crate::signatures::{Signature, Unsigned};
use il_model::{FieldDef, MethodDef};
use indexmap::{IndexMap, IndexSet};
use sqlite_items::Items;
use std::alloc::Global;
use std::hash::{Hash, Hasher};
use std::marker::Model;

/// A field that is found again by its name.
#[derive(Drop)]
struct KnownField {
    field: FieldDef,
}

impl PartialEq for KnownField {
    ghost eq = { λ a b. bytes_eq a.field.name b.field.name };

    ghost laws = { on_per (λ k. k.field.name) (partial_equiv_from_equiv nat_list_eq_equiv) };

    fn eq(&self, other: &Self) -> bool {
        self.field.name.text().as_bytes() == other.field.name.text().as_bytes()
    }
}

impl Eq for KnownField {
    ghost laws = { on_equiv (λ k. k.field.name) nat_list_eq_equiv };
}

impl Hash for KnownField {
    ghost hash_input = { λ k. k.field.name ∷ [] };

    ghost respects_eq = { (on_Alike (λ k. k.field.name) (same_Alike (λ name. name ∷ []) bytes_eq-Decides)).fed };

    fn hash<H: Hasher>(&self, state: &mut H) {
        state.write(self.field.name.text().as_bytes());
    }
}

/// The fields of a class, each name once. Contracts see the list.
#[derive(Drop)]
pub(crate) struct Fields {
    known: IndexSet<KnownField>,
}

impl Model for Fields {
    ghost use Rattle.std.specs.Prelude.{List, map};
    ghost use Rattle.std.specs.Coded.{coded_list};
    ghost use Rattle.il_model.specs.declared.class.FieldDef.{FieldDef};
    ghost use Rattle.il_model.specs.contracts.class.FieldDef.{the_row};

    ghost Value = { List FieldDef };

    ghost coded = { coded_list the_row.coded };

    ghost view = { λ f. map (λ k. k.field) f.known.keys };
}

impl Fields {
    /// No fields.
    pub(crate) fn new(alloc: Global) -> Fields
        ensures { result ≡ [] }
    {
        Fields {
            known: IndexSet::new(alloc),
        }
    }

    /// Adds a field whose name stands at this place, or refuses it where there is one with this name.
    pub(crate) fn add(&mut self, at: u32, field: FieldDef) -> Result<(), ReadError>
        ensures looks { Looks (once (is_among (map (λ g. g.name) self.old) field.name) at) result }
        ensures adds { OnOk result (self.new ≡ self.old ++ field ∷ []) }
    {
        let is_new = self.known.insert(KnownField { field })?;
        once(!is_new, at)
    }

    /// The fields as a list.
    pub(crate) fn into_items(self, alloc: Global) -> Result<Items<FieldDef>, ReadError>
        ensures ok { IfOk result (λ fields. fields ≡ self) }
        ensures memory { IfErr result (λ e. e ≡ error.Memory) }
    {
        let mut fields = Items::new(alloc);
        for known in self.known {
            fields.push(known.field)?;
        }
        Ok(fields)
    }
}

/// The methods of a class, each signature once. Contracts see the list.
#[derive(Drop)]
pub(crate) struct Methods {
    known: IndexMap<Signature, Unsigned>,
}

impl Model for Methods {
    ghost use Rattle.std.specs.Prelude.{List, map};
    ghost use Rattle.std.specs.Coded.{coded_list};
    ghost use Rattle.il_model.specs.declared.method.MethodDef.{MethodDef};
    ghost use Rattle.il_model.specs.contracts.method.MethodDef.{the_row};
    ghost use Rattle.il_parse.specs.Signatures.{method_of, AreCounted};

    ghost Value = { List MethodDef };

    ghost coded = { coded_list the_row.coded };

    ghost view = { λ m. map method_of m.known.entries };

    ghost invariant = { λ m. AreCounted m.known.entries };
}

impl Methods {
    /// No methods.
    pub(crate) fn new(alloc: Global) -> Methods
        ensures { result ≡ [] }
    {
        Methods {
            known: IndexMap::new(alloc),
        }
    }

    /// Whether one of the methods has this signature. No memory is taken.
    pub(crate) fn has(&self, signature: &Signature) -> bool
        ensures { result ≡ list_any (has_signature signature.now.name signature.now.vars signature.now.params signature.now.result) self.now }
    {
        self.known.contains_key(signature)
    }

    /// Adds a method whose signature none has.
    pub(crate) fn add(&mut self, signature: Signature, rest: Unsigned) -> Result<(), ReadError>
        requires new { list_any (has_signature signature.name signature.vars signature.params signature.result) self.old ≡ false }
        requires counted { signature.vars ≡ length rest.vars }
        ensures ok { OnOk result (self.new ≡ self.old ++ method_of (signature, rest) ∷ []) }
        ensures memory { IfErr result (λ e. e ≡ error.Memory) }
    {
        self.known.insert(signature, rest)?;
        Ok(())
    }

    /// The methods as a list.
    pub(crate) fn into_items(self, alloc: Global) -> Result<Items<MethodDef>, ReadError>
        ensures ok { IfOk result (λ methods. methods ≡ self) }
        ensures memory { IfErr result (λ e. e ≡ error.Memory) }
    {
        let mut methods = Items::new(alloc);
        for (signature, rest) in self.known {
            methods.push(joined(signature, rest))?;
        }
        Ok(methods)
    }
}

// A method from its signature and the rest.
fn joined(signature: Signature, rest: Unsigned) -> MethodDef
    ensures { result ≡ method_of (signature, rest) }
{
    MethodDef {
        owner: rest.owner,
        name: signature.name,
        shape: rest.shape,
        vars: rest.vars,
        params: signature.params,
        result: signature.result,
        body: rest.body,
    }
}
