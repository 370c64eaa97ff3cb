//! The two passes of a lane: one puts entries, the other gets them.
//!
//! A pass is never copied, so what it says that it put or got was put or got with it alone.
ghost use Rattle.std.specs.Prelude.{◌≡◌, false};

use crate::rule::Hold;
use std::marker::Model;

/// The pass with which entries are put. It says of which lane it is, and which entries were put.
#[derive(Drop)]
pub struct PutPass {
    pub(crate) pass: Hold,
}

impl Model for PutPass {
    ghost use Rattle.std.specs.Prelude.{◌≡◌, true, false, []};
    ghost use Rattle.log_lane.specs.Rule.{know, known};
    ghost use Rattle.log_lane.specs.Seen.{PassSeen};

    ghost Value = { PassSeen };

    ghost view = { λ p. record { lane = p.pass.table_id; entries = (known p.pass).put } };

    ghost invariant = { λ p.
        (p.pass.me.1 ≡ []) × (known p.pass ≡ know true (known p.pass).put false []) };
}

/// The pass with which entries are got. It says of which lane it is, and which entries were got. A
/// blank one is of no lane: it stands where the pass was moved out of, until it is put back.
#[derive(Drop)]
pub struct GetPass {
    pub(crate) pass: Option<Hold>,
}

impl Model for GetPass {
    ghost use Rattle.log_lane.specs.Getter.{seen_of, IsGetter};
    ghost use Rattle.log_lane.specs.Seen.{GetSeen};

    ghost Value = { GetSeen };

    ghost view = { λ p. seen_of p.pass };

    ghost invariant = { λ p. IsGetter p.pass };
}

impl GetPass {
    /// A pass of no lane, with which nothing can be got.
    pub fn blank() -> GetPass
        ensures { result.live ≡ false }
    {
        GetPass { pass: None }
    }
}
