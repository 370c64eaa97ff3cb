//! What a field of a table may be: one small function a rule.
//!
//! Nothing here takes memory; a field that breaks its rule is `None`.
ghost use Rattle.std.specs.Prelude.{◌≡◌, ◌<◌, ◌≤◌, IfSome, pos, Some, None, option_map, option_copied, nat_le, ◌&&◌, if◌then◌else◌, length, true, vec_len};
ghost use Rattle.std.specs.List.{list_all};
ghost use Rattle.toml.specs.Data.{get_member, as_bool, as_str};
ghost use Rattle.toml.specs.View.{view, array_view, table_view};
ghost use Rattle.tx_types.specs.Limits.{name_limit};
ghost use Rattle.board_file.specs.Field.{as_number, in_range, is_name, is_name_byte, is_of_length, items_count, name_of, text_within, array_within};

use toml::Value;
use toml::value::Array;

/// The number of an integer from low to high that the step divides.
pub(crate) fn in_range(value: &Value, low: u32, high: u32, step: u32) -> Option<u32>
    requires { 0 < step }
    ensures { result ≡ in_range low high step (view value.now) }
{
    let number = u32::try_from(value.as_integer()?).ok()?;
    if low <= number && number <= high && number % step == 0 {
        Some(number)
    } else {
        None
    }
}

/// Whether a text has 1 to the given number of bytes.
fn is_of_length(text: &str, most: usize) -> bool
    ensures { result ≡ is_of_length most text.now }
{
    1 <= text.len() && text.len() <= most
}

fn is_name_byte(b: u8) -> bool
    ensures { result ≡ is_name_byte b }
{
    b.is_ascii_lowercase() || b.is_ascii_uppercase() || b.is_ascii_digit() || b == b'_' || b == b'-'
}

/// Whether a text is a name: 1 to 31 letters, digits, `_` and `-`.
fn is_name(text: &str) -> bool
    ensures { result ≡ is_name text.now }
{
    is_of_length(text, 31) && has_name_bytes_alone(text)
}

fn has_name_bytes_alone(text: &str) -> bool
    ensures { result ≡ list_all is_name_byte text.now }
{
    text.as_bytes().iter().all(|b| is_name_byte(*b))
}

/// A string that is a name.
pub(crate) fn name_of(value: &Value) -> Option<&str>
    ensures value { option_copied result ≡ name_of (view value.now) }
    ensures short { IfSome result (λ t. length t.now ≤ name_limit) }
{
    match value.as_str() {
        Some(text) if is_name(text) => Some(text),
        _ => None,
    }
}

/// A string of 1 to the given number of bytes.
pub(crate) fn text_within(value: &Value, most: usize) -> Option<&str>
    ensures { option_copied result ≡ text_within most (view value.now) }
{
    match value.as_str() {
        Some(text) if is_of_length(text, most) => Some(text),
        _ => None,
    }
}

/// Whether an array has low to high entries.
#[tactic(auto, using(crate::proofs::Items::counted))]
fn has_within(array: &Array, low: usize, high: usize) -> bool
    ensures answer { let count = items_count (array_view array.now) in
        result ≡ (nat_le low count && nat_le count high) }
    ensures within { result ≡ true → vec_len array.now ≤ high }
{
    low <= array.len() && array.len() <= high
}

/// An array of low to high entries.
pub(crate) fn array_within(value: &Value, low: usize, high: usize) -> Option<&Array>
    ensures array { option_map (λ v. array_view v.now) result
        ≡ array_within low high (view value.now) }
    ensures within { IfSome result (λ v. vec_len v.now ≤ high) }
{
    match value.as_array() {
        Some(array) if has_within(array, low, high) => Some(array),
        _ => None,
    }
}
