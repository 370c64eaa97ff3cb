//! Names that a module gives.
//!
//! A name is read byte by byte up to its zero, and a byte only once the module may load it: what lies
//! after the zero doesn't matter.
ghost use Rattle.std.specs.Prelude.{◌≡◌, ◌≢◌, ◌+◌, ◌<◌, ◌≤◌, All, IfOk, Some, None, length, if◌then◌else◌};
ghost use Rattle.tx_types.specs.Limits.{name_limit};
ghost use Rattle.call_arguments.specs.Names.{name_at, text_at};
ghost use Rattle.region_guard.specs.Memory.{byte, may};

use region_guard::{Access, Guard, what_may_be_used_is_in_ram};
use tx_types::{Code, ModNo, Name};

/// The name at x, none where x is 0. It is read byte by byte up to its zero: INVALID_MEMORY comes
/// where module m may not load one of these bytes, PTR_ERROR where 32 bytes have no zero.
pub fn name_at(g: &Guard, m: ModNo, x: u32) -> Result<Name, Code>
    ensures value { result ≡ name_at g.now m x }
    ensures short { IfOk result (λ name. length name ≤ name_limit) }
    ensures whole { IfOk result (λ name. All (λ b. b ≢ 0) name) }
{
    if x == 0 {
        Ok(Name::empty())
    } else {
        text_at(g, m, x)
    }
}

/// The text from x on up to a zero.
fn text_at(g: &Guard, m: ModNo, x: u32) -> Result<Name, Code>
    ensures value { result ≡ text_at g.now m x (name_limit + 1) }
    ensures short { IfOk result (λ name. length name ≤ name_limit) }
    ensures whole { IfOk result (λ name. All (λ b. b ≢ 0) name) }
{
    let mut name = Name::empty();
    for i in 0..31u32 {
        match byte_at(g, m, x, i) {
            None => return Err(Code::INVALID_MEMORY),
            Some(0) => return Ok(name),
            Some(b) => name.push(b),
        }
    }
    match byte_at(g, m, x, 31) {
        None => Err(Code::INVALID_MEMORY),
        Some(0) => Ok(name),
        Some(_) => Err(Code::PTR_ERROR),
    }
}

/// The byte i addresses after x, where module m may load it. No address is 2^32 or more.
fn byte_at(g: &Guard, m: ModNo, x: u32, i: u32) -> Option<u8>
    ensures { result
        ≡ (if may g.now m Access.Load (x + i) 1 then Some (byte g.now (x + i)) else None) }
{
    what_may_be_used_is_in_ram();
    let _ = g.regions();
    let a = x.checked_add(i)?;
    g.byte(m, Access::Load, a)
}
