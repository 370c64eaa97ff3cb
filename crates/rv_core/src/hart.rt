//! The registers of a hart.
//!
//! Two facts hold of each hart: x0 is 0, and 4 divides the program counter.
use std::marker::Model;

/// The program counter and the registers x0 to x31 (RISC-V Unprivileged ISA Manual, "Programmers'
/// Model for Base Integer ISA"). x0 is always 0 and 4 always divides pc.
#[derive(Clone, Copy, Debug, PartialEq, Eq)]
pub struct Hart {
    pub pc: u32,
    pub x: [u32; 32],
}

impl Model for Hart {
    ghost use Rattle.std.specs.Prelude.{◌≡◌, ◌%◌, length, slice_index};
    ghost use Rattle.rv_core.specs.Hart.{HartState};

    ghost Value = { HartState };

    ghost view = { λ h. record { pc = h.pc; x = h.x } };

    ghost invariant = { λ h. (h.pc % 4 ≡ 0) × (slice_index h.x 0 ≡ 0) };

    ghost inverse = { λ s. record { pc = s.pc; x = s.x } };
}

impl Hart {
    ghost use Rattle.std.specs.Prelude.{◌≡◌, ◌<◌, length, drop};
    ghost use Rattle.rv_core.specs.Hart.{register, with_register, advanced};

    /// The value of a register.
    pub fn get(&self, r: u8) -> u32
        requires { r < 32 }
        ensures { result ≡ register self.now r }
    {
        self.x[r as usize]
    }

    /// The general-purpose registers x1 to x31.
    pub fn general(&self) -> &[u32]
        ensures value { result.now ≡ drop 1 self.now.x }
        ensures len { length result.now ≡ 31 }
    {
        &self.x[1..]
    }

    /// Writes a register; a write to x0 is dropped.
    pub fn set(&mut self, r: u8, value: u32)
        requires { r < 32 }
        ensures { self.new ≡ with_register self.old r value }
    {
        if r != 0 {
            self.x[r as usize] = value;
        }
    }

    /// Goes to the next instruction.
    pub fn advance(&mut self)
        ensures { self.new ≡ advanced self.old }
    {
        self.pc = self.pc.wrapping_add(4);
    }
}
