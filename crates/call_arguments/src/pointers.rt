//! Pointers, and why they are refused.
//!
//! The regions are asked whether they allow a range: no byte of it is read or written here. What a
//! refused service answers and changes is the service's own.
ghost use Rattle.std.specs.Prelude.{◌≡◌};
ghost use Rattle.call_arguments.specs.Pointers.{pointer_refusal};

use region_guard::{Access, Guard};
use tx_types::{Code, ModNo};

/// Why module m may not give x as a pointer to n bytes for this access: PTR_ERROR where x is 0 or
/// isn't divisible by 4, then INVALID_MEMORY where its regions don't allow the range.
pub fn pointer_refusal(g: &Guard, m: ModNo, access: Access, x: u32, n: u32) -> Option<Code>
    ensures { result ≡ pointer_refusal g.now m access x n }
{
    if x == 0 || x % 4 != 0 {
        Some(Code::PTR_ERROR)
    } else if g.may(m, access, x, n) {
        None
    } else {
        Some(Code::INVALID_MEMORY)
    }
}
