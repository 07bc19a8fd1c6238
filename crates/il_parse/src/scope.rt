// What names stand for at one place of a text.
ghost use Rattle.std.specs.Prelude.{◌≡◌, slice_get, slice_index_or};
ghost use Rattle.std.specs.Option.{option_copied};
ghost use Rattle.il_model.specs.Names.{class_number};
ghost use Rattle.il_model.specs.LookUp.{arity_of, scope_of};
ghost use Rattle.il_parse.specs.NamedTypes.{written_class, member_scope};
ghost use Rattle.il_parse.specs.Scopes.{declared, declared_arities, FindsClasses};

use crate::calls::plain_name;
use crate::literal_table::Literals;
use il_model::{WrittenClass, WrittenType};
use indexmap::IndexMap;
use std::marker::Model;

// So many classes are of the library; none of them has type variables.
const LIBRARY_CLASSES: usize = 13;

// The class at this place, if there is one.
fn class_at(classes: &[WrittenClass], place: usize) -> Option<&WrittenClass>
    ensures { option_copied result ≡ slice_get classes.now place }
{
    classes.get(place)
}

// How many type variables the class with this number has, or 0 where there is no such class.
#[tactic(auto, using(crate::proofs::ScopeLemmas::arity_library, crate::proofs::ScopeLemmas::arity_own, crate::proofs::ScopeLemmas::arity_past))]
fn arity_at(classes: &[WrittenClass], number: usize) -> usize
    ensures { result ≡ slice_index_or (declared_arities classes.now) number 0 }
{
    if number < LIBRARY_CLASSES {
        return 0;
    }
    match class_at(classes, number - LIBRARY_CLASSES) {
        Some(class) => class.vars.len(),
        None => 0,
    }
}

/// What a text declares: its classes, with a table of their names, and its literals. Contracts see the
/// names and the numbers of type variables of all classes, those of the library first, and the literals.
#[derive(Drop)]
pub(crate) struct Known<'a> {
    classes: &'a [WrittenClass],
    places: &'a IndexMap<Vec<u8>, usize>,
    literals: &'a Literals,
}

impl<'a> Model for Known<'a> {
    ghost use Rattle.il_model.specs.LookUp.{Known as KnownNames};
    ghost use Rattle.il_parse.specs.Scopes.{declared, FindsClasses};

    ghost Value = { KnownNames };

    ghost view = { λ k. declared k.classes.now k.literals.now };

    ghost invariant = { λ k. FindsClasses (λ name. name.items) k.places.now k.classes.now };
}

impl<'a> Known<'a> {
    pub(crate) fn new(
        classes: &'a [WrittenClass],
        places: &'a IndexMap<Vec<u8>, usize>,
        literals: &'a Literals,
    ) -> Known<'a>
        requires { FindsClasses (λ name. name.items) places.now classes.now }
        ensures { result ≡ declared classes.now literals.now }
    {
        Known {
            classes,
            places,
            literals,
        }
    }

    /// The literals.
    pub(crate) fn literals(&self) -> &'a Literals
        ensures { result.now ≡ self.now.literals }
    {
        self.literals
    }

    /// The scope among so many variables of a class and of a method.
    pub(crate) fn scope(&self, of_class: usize, of_method: usize) -> Scope<'a>
        ensures { result ≡ scope_of self.now of_class of_method }
    {
        Scope {
            classes: self.classes,
            places: self.places,
            of_class,
            of_method,
        }
    }
}

/// What names stand for: the classes of the text and of the library, and how many type variables the class
/// and the method have here. Contracts see the names and the numbers of type variables of all classes.
#[derive(Drop)]
pub(crate) struct Scope<'a> {
    classes: &'a [WrittenClass],
    places: &'a IndexMap<Vec<u8>, usize>,
    of_class: usize,
    of_method: usize,
}

impl<'a> Model for Scope<'a> {
    ghost use Rattle.il_model.specs.Names.{Scope as ScopeOfNames};
    ghost use Rattle.il_parse.specs.Scopes.{declared_scope, FindsClasses};

    ghost Value = { ScopeOfNames };

    ghost view = { λ s. declared_scope s.classes.now s.of_class s.of_method };

    ghost invariant = { λ s. FindsClasses (λ name. name.items) s.places.now s.classes.now };
}

impl<'a> Scope<'a> {
    /// How many type variables the class has here.
    pub(crate) fn of_class(&self) -> usize
        ensures { result ≡ self.now.of_class }
    {
        self.of_class
    }

    /// How many type variables the method has here.
    pub(crate) fn of_method(&self) -> usize
        ensures { result ≡ self.now.of_method }
    {
        self.of_method
    }

    /// The number of the class with this name, which is the first of this name. `System.Object` and
    /// `System.String` are also names of `object` and `string`. No memory is taken.
    pub(crate) fn class(&self, name: &[u8]) -> Option<usize>
        ensures { result ≡ class_number self.now.names name.now }
    {
        match self.places.get(plain_name(name)) {
            Some(number) => Some(*number),
            None => None,
        }
    }

    // How many type variables the class with this number has.
    fn arity(&self, number: Option<usize>) -> usize
        ensures { result ≡ arity_of self.now.arities number }
    {
        match number {
            Some(number) => arity_at(self.classes, number),
            None => 0,
        }
    }

    // The number of the class that a written type names.
    #[tactic(auto, using(crate::proofs::ScopeLemmas::names_class, crate::proofs::ScopeLemmas::names_object, crate::proofs::ScopeLemmas::names_string, crate::proofs::ScopeLemmas::names_int32, crate::proofs::ScopeLemmas::names_int64, crate::proofs::ScopeLemmas::names_bool, crate::proofs::ScopeLemmas::names_variable, crate::proofs::ScopeLemmas::names_vector))]
    fn written_class(&self, class: &WrittenType) -> Option<usize>
        ensures { result ≡ written_class self.now class.now }
    {
        match class {
            WrittenType::Object => Some(0),
            WrittenType::String => Some(1),
            WrittenType::Named(name, _) => self.class(name.name.text().as_bytes()),
            WrittenType::Int32
            | WrittenType::Int64
            | WrittenType::Bool
            | WrittenType::Variable(_)
            | WrittenType::Vector(_) => None,
        }
    }

    /// The scope of the types of a member of this class: its own type variables, none where there is no
    /// such class, and so many of the method.
    pub(crate) fn of_member(&self, class: &WrittenType, of_method: usize) -> Scope<'a>
        ensures { result ≡ member_scope self.now class.now of_method }
    {
        Scope {
            classes: self.classes,
            places: self.places,
            of_class: self.arity(self.written_class(class)),
            of_method,
        }
    }
}
