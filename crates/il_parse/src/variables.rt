// What the tokens of type variables stand for.
ghost use Rattle.std.specs.Prelude.{◌≡◌, option_map};
ghost use Rattle.il_parse.specs.Looking.{Looks};
ghost use Rattle.il_parse.specs.NamedTypes.{variable_named};
ghost use Rattle.il_parse.specs.Variables.{class_digits, method_digits, number_below};

use crate::fault::ReadError;
use crate::literals::{after, digits_value, is_digit_run};
use crate::looking::unknown;
use crate::scope::Scope;
use il_model::WrittenName;
use type_tree::TExpr;

// The digits behind `!`.
fn class_digits(token: &[u8]) -> Option<&[u8]>
    ensures { option_map (λ digits. digits.now) result ≡ class_digits token.now }
{
    let digits = after(token, b'!')?;
    if is_digit_run(digits) {
        Some(digits)
    } else {
        None
    }
}

// The digits behind `!!`.
fn method_digits(token: &[u8]) -> Option<&[u8]>
    ensures { option_map (λ digits. digits.now) result ≡ method_digits token.now }
{
    class_digits(after(token, b'!')?)
}

// The number of a variable, where there is one. No class and no method has 256 of them.
fn number_below(digits: &[u8], most: usize, v: &WrittenName) -> Result<u8, ReadError>
    ensures { Looks (number_below digits.now most v.now) result }
{
    let Some(number) = digits_value(10, digits) else {
        return Err(unknown(v));
    };
    if most as u64 <= number {
        return Err(unknown(v));
    }
    match u8::try_from(number) {
        Ok(number) => Ok(number),
        Err(_) => Err(ReadError::Memory),
    }
}

/// The type variable of the class or the method that a token stands for.
#[tactic(auto, unfolding(crate::specs::NamedTypes::variable_named))]
pub(crate) fn variable_named(scope: &Scope<'_>, v: &WrittenName) -> Result<TExpr, ReadError>
    ensures { Looks (variable_named scope.now v.now) result }
{
    let token = v.name.text().as_bytes();
    if let Some(digits) = class_digits(token) {
        let number = number_below(digits, scope.of_class(), v)?;
        return Ok(TExpr::class_var(number));
    }
    if let Some(digits) = method_digits(token) {
        let number = number_below(digits, scope.of_method(), v)?;
        return Ok(TExpr::method_var(number));
    }
    Err(unknown(v))
}
