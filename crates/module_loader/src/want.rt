//! What a module wants of memory: room for its code and for its data region.
//!
//! The data region holds the data, the start stack and, where there is a callback thread, its stack.
ghost use Rattle.std.specs.Prelude.{◌≡◌, ◌+◌, ◌<◌, ◌≤◌, ◌^◌};
ghost use Rattle.module_preamble.specs.Preamble.{most_data};
ghost use Rattle.module_loader.specs.Want.{rounded_up, want_of, callback_bytes, HasSizes};

use module_preamble::Preamble;

/// What each part of a data region is rounded up to, in bytes.
const PART: u64 = 16;

/// How many bytes a module needs.
#[derive(Clone, Copy, Debug, PartialEq, Eq)]
pub struct Want {
    pub code: u32,
    /// The data and the stacks.
    pub data_bytes: u32,
}

/// The least multiple of a step that isn't below n.
pub fn rounded_up(n: u64, step: u64) -> u64
    requires step { 0 < step }
    requires room { n + step < 2 ^ 64 }
    ensures { result ≡ rounded_up step n }
{
    (n + (step - 1)) / step * step
}

/// How many bytes a part of a data region takes.
pub(crate) fn part(n: u32) -> u32
    requires { n ≤ most_data }
    ensures value { result ≡ rounded_up 16 n }
    ensures most { result ≤ most_data }
{
    rounded_up(u64::from(n), PART) as u32
}

/// How many bytes the callback stack takes, if there is one.
fn callback_bytes(p: &Preamble) -> u32
    requires { HasSizes p.now }
    ensures value { result ≡ callback_bytes p.now }
    ensures most { result ≤ most_data }
{
    if p.has_callback() {
        part(p.callback_stack)
    } else {
        0
    }
}

/// What the module of an accepted image wants.
pub fn want_of(p: &Preamble) -> Want
    requires { HasSizes p.now }
    ensures { result ≡ want_of p.now }
{
    Want {
        code: p.code_size,
        data_bytes: part(p.data_size) + part(p.start_stack) + callback_bytes(p),
    }
}
