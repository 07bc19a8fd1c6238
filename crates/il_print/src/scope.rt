// What is needed to print a body.
ghost use Rattle.std.specs.Prelude.{◌≡◌};
ghost use Rattle.il_print.specs.ClassNames.{names_of};

use crate::labels::Labels;
use il_model::ClassDef;
use mn_outside::Bytes;
use std::marker::Model;

/// The classes, whose names types are written by, the literals, and the labels of the body.
#[derive(Drop)]
pub(crate) struct Scope<'a> {
    classes: &'a [ClassDef],
    literals: &'a [Bytes],
    labels: &'a Labels,
}

impl<'a> Model for Scope<'a> {
    ghost use Rattle.il_model.specs.Canonical.{Printing};
    ghost use Rattle.il_print.specs.ClassNames.{names_of};

    ghost Value = { Printing };

    ghost view = { λ s. record { names = names_of s.classes.now; literals = s.literals.now; places = s.labels.now } };
}

impl<'a> Scope<'a> {
    pub(crate) fn new(
        classes: &'a [ClassDef],
        literals: &'a [Bytes],
        labels: &'a Labels,
    ) -> Scope<'a>
        ensures { result ≡ record { names = names_of classes.now; literals = literals.now; places = labels.now } }
    {
        Scope {
            classes,
            literals,
            labels,
        }
    }

    pub(crate) fn classes(&self) -> &'a [ClassDef]
        ensures { names_of result.now ≡ self.now.names }
    {
        self.classes
    }

    pub(crate) fn literals(&self) -> &'a [Bytes]
        ensures { result.now ≡ self.now.literals }
    {
        self.literals
    }

    pub(crate) fn labels(&self) -> &'a Labels
        ensures { result.now ≡ self.now.places }
    {
        self.labels
    }
}
