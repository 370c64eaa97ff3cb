//! The passes: one for each device, and one that takes the words.
//!
//! A pass is never copied, so what it says that it sent or got was sent or got with it alone.
ghost use Rattle.std.specs.Prelude.{◌≡◌, []};

use crate::rule::Hold;
use board_values::DevNo;
use std::marker::Model;

/// The pass of a device, with which it raises words. It says of which inbox and which device it is,
/// and which words were raised with it.
#[derive(Drop)]
pub struct DevPass {
    pub(crate) pass: Hold,
    pub(crate) number: DevNo,
}

impl Model for DevPass {
    ghost use Rattle.std.specs.Prelude.{◌≡◌, []};
    ghost use Rattle.irq_inbox.specs.Rule.{sender, known};
    ghost use Rattle.irq_inbox.specs.Seen.{DevSeen};

    ghost Value = { DevSeen };

    ghost view = { λ p. record {
      inbox = p.pass.table_id;
      number = p.number;
      sent = (known p.pass).sent;
    } };

    ghost invariant = { λ p.
        (p.pass.me.1 ≡ []) × (known p.pass ≡ sender p.number (known p.pass).sent) };
}

/// The pass that takes the words. It says of which inbox it is, for how many devices that was
/// made, which words were taken with it, and what the devices have sent that were gathered into it.
#[derive(Drop)]
pub struct CpuPass {
    pub(crate) pass: Hold,
}

impl Model for CpuPass {
    ghost use Rattle.std.specs.Prelude.{◌≡◌, []};
    ghost use Rattle.irq_inbox.specs.Rule.{taker, known};
    ghost use Rattle.irq_inbox.specs.Seen.{CpuSeen};

    ghost Value = { CpuSeen };

    ghost view = { λ p. record {
      inbox = p.pass.table_id;
      devices = (known p.pass).made;
      got = (known p.pass).got;
      gathered = (known p.pass).known;
    } };

    ghost invariant = { λ p. (p.pass.me.1 ≡ [])
        × (known p.pass ≡ taker (known p.pass).made (known p.pass).got (known p.pass).known) };
}
