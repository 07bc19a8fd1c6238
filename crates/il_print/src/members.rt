// Methods and fields as instructions name them.
ghost use Rattle.std.specs.Prelude.{◌≡◌, ◌++◌, [], ◌∷◌, codes, flat_map, map, OnOk, if◌then◌else◌};
ghost use Rattle.il_model.specs.Canonical.{spaced_after, comma, angled_words, type_text, method_ref_words, field_ref_words};
ghost use Rattle.il_print.specs.ClassNames.{names_of};
ghost use Rattle.il_print.specs.Parts.{named_method_words};

use crate::params::{put_params, put_result};
use crate::text::Text;
use crate::types::put_type;
use il_model::{ClassDef, FRef, MRef};
use mn_outside::NoMemory;
use type_tree::TExpr;

/// Puts a method as an instruction names it.
pub(crate) fn put_method_ref(
    text: &mut Text,
    classes: &[ClassDef],
    method: &MRef,
) -> Result<(), NoMemory>
    ensures { OnOk result (text.new ≡ text.old ++ spaced_after (method_ref_words (names_of classes.now) method.now)) }
{
    put_instance(text, method.instance)?;
    put_named_method(text, classes, method)?;
    put_params(text, classes, method.params.as_slice())?;
    Ok(())
}

// The result, the class, the name and the type arguments.
fn put_named_method(text: &mut Text, classes: &[ClassDef], method: &MRef) -> Result<(), NoMemory>
    ensures { OnOk result (text.new ≡ text.old ++ spaced_after (named_method_words (names_of classes.now) method.now)) }
{
    put_result(text, classes, &method.result)?;
    put_type(text, classes, &method.class)?;
    text.put(b" ::")?;
    text.word(method.name.text().as_bytes())?;
    put_type_args(text, classes, method.args.as_slice())
}

/// Puts a field as an instruction names it.
pub(crate) fn put_field_ref(
    text: &mut Text,
    classes: &[ClassDef],
    field: &FRef,
) -> Result<(), NoMemory>
    ensures { OnOk result (text.new ≡ text.old ++ spaced_after (field_ref_words (names_of classes.now) field.now)) }
{
    put_type(text, classes, &field.kind)?;
    put_type(text, classes, &field.class)?;
    text.put(b" ::")?;
    text.word(field.name.text().as_bytes())
}

fn put_instance(text: &mut Text, is_instance: bool) -> Result<(), NoMemory>
    ensures { OnOk result (text.new ≡ text.old ++ spaced_after (if is_instance then codes "instance" ∷ [] else [])) }
{
    if is_instance {
        text.put(b" instance")
    } else {
        Ok(())
    }
}

fn put_type_args(text: &mut Text, classes: &[ClassDef], args: &[TExpr]) -> Result<(), NoMemory>
    ensures { OnOk result (text.new ≡
        text.old ++ spaced_after (angled_words (map (λ t. type_text (names_of classes.now) t ∷ []) args.now))) }
{
    match args.split_first() {
        Some((first, rest)) => {
            text.put(b" <")?;
            put_type(text, classes, first)?;
            put_more_types(text, classes, rest)?;
            text.put(b" >")?;
            Ok(())
        }
        None => Ok(()),
    }
}

/// Puts types, with a comma before each.
pub(crate) fn put_more_types(
    text: &mut Text,
    classes: &[ClassDef],
    types: &[TExpr],
) -> Result<(), NoMemory>
    ensures { OnOk result (text.new ≡ text.old ++
        flat_map (λ t. spaced_after (comma ∷ type_text (names_of classes.now) t ∷ [])) types.now) }
{
    for kind in types {
        text.put(b",")?;
        put_type(text, classes, kind)?;
    }
    Ok(())
}
