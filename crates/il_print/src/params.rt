// Parameters, results and type variables.
ghost use Rattle.std.specs.Prelude.{◌≡◌, ◌++◌, [], ◌∷◌, codes, flat_map, map, OnOk};
ghost use Rattle.il_model.specs.Canonical.{spaced_after, between, comma, bound_words, var_words, vars_words, param_words, params_words, result_word, type_text};
ghost use Rattle.il_print.specs.Spaces.{behind};
ghost use Rattle.il_print.specs.ClassNames.{names_of};

use crate::text::Text;
use crate::types::put_type;
use il_model::{ClassDef, PType, VarDef};
use mn_outside::NoMemory;
use type_tree::TExpr;

/// Puts parameters or locals between parentheses.
pub(crate) fn put_params(
    text: &mut Text,
    classes: &[ClassDef],
    params: &[PType],
) -> Result<(), NoMemory>
    ensures { OnOk result (text.new ≡ text.old ++ spaced_after (params_words (names_of classes.now) params.now)) }
{
    text.put(b" (")?;
    put_param_list(text, classes, params)?;
    text.put(b" )")?;
    Ok(())
}

fn put_param_list(text: &mut Text, classes: &[ClassDef], params: &[PType]) -> Result<(), NoMemory>
    ensures { OnOk result (text.new ≡
        text.old ++ spaced_after (between comma (map (param_words (names_of classes.now)) params.now))) }
{
    match params.split_first() {
        Some((first, rest)) => {
            put_param(text, classes, first)?;
            put_more_params(text, classes, rest)?;
            Ok(())
        }
        None => Ok(()),
    }
}

fn put_more_params(text: &mut Text, classes: &[ClassDef], params: &[PType]) -> Result<(), NoMemory>
    ensures { OnOk result (text.new ≡
        text.old ++ flat_map (λ p. spaced_after (comma ∷ param_words (names_of classes.now) p)) params.now) }
{
    for param in params {
        text.put(b",")?;
        put_param(text, classes, param)?;
    }
    Ok(())
}

fn put_param(text: &mut Text, classes: &[ClassDef], param: &PType) -> Result<(), NoMemory>
    ensures { OnOk result (text.new ≡ text.old ++ spaced_after (param_words (names_of classes.now) param.now)) }
{
    match param {
        PType::Value(kind) => put_type(text, classes, kind),
        PType::Pointer(kind) => {
            put_type(text, classes, kind)?;
            text.put(b" &")
        }
        PType::Native => Ok(()),
    }
}

/// Puts the type of a result, or `void`.
pub(crate) fn put_result(
    text: &mut Text,
    classes: &[ClassDef],
    kind: &Option<TExpr>,
) -> Result<(), NoMemory>
    ensures { OnOk result (text.new ≡ text.old ++ behind (result_word (names_of classes.now) kind.now)) }
{
    match kind {
        Some(kind) => put_type(text, classes, kind),
        None => text.put(b" void"),
    }
}

/// Puts type variables between angle brackets, where there are any.
pub(crate) fn put_vars(
    text: &mut Text,
    classes: &[ClassDef],
    vars: &[VarDef],
) -> Result<(), NoMemory>
    ensures { OnOk result (text.new ≡ text.old ++ spaced_after (vars_words (names_of classes.now) vars.now)) }
{
    match vars.split_first() {
        Some((first, rest)) => {
            text.put(b" <")?;
            put_var(text, classes, first)?;
            put_more_vars(text, classes, rest)?;
            text.put(b" >")?;
            Ok(())
        }
        None => Ok(()),
    }
}

fn put_more_vars(text: &mut Text, classes: &[ClassDef], vars: &[VarDef]) -> Result<(), NoMemory>
    ensures { OnOk result (text.new ≡
        text.old ++ flat_map (λ v. spaced_after (comma ∷ var_words (names_of classes.now) v)) vars.now) }
{
    for var in vars {
        text.put(b",")?;
        put_var(text, classes, var)?;
    }
    Ok(())
}

fn put_var(text: &mut Text, classes: &[ClassDef], var: &VarDef) -> Result<(), NoMemory>
    ensures { OnOk result (text.new ≡ text.old ++ spaced_after (var_words (names_of classes.now) var.now)) }
{
    text.word(var.name.text().as_bytes())?;
    put_bounds(text, classes, var.bounds.as_slice())
}

fn put_bounds(text: &mut Text, classes: &[ClassDef], bounds: &[TExpr]) -> Result<(), NoMemory>
    ensures { OnOk result (text.new ≡ text.old ++ spaced_after (bound_words (names_of classes.now) bounds.now)) }
{
    match bounds.split_first() {
        Some((first, rest)) => {
            text.put(b" :")?;
            put_type(text, classes, first)?;
            put_more_bounds(text, classes, rest)?;
            Ok(())
        }
        None => Ok(()),
    }
}

fn put_more_bounds(text: &mut Text, classes: &[ClassDef], bounds: &[TExpr]) -> Result<(), NoMemory>
    ensures { OnOk result (text.new ≡ text.old ++
        flat_map (λ t. spaced_after (codes "&" ∷ type_text (names_of classes.now) t ∷ [])) bounds.now) }
{
    for bound in bounds {
        text.put(b" &")?;
        put_type(text, classes, bound)?;
    }
    Ok(())
}
