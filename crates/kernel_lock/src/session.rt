//! The name of a run, by which types say of which board, inbox and lane they are.
//!
//! A session has no value and no call; one call of the program picks what it stands for.
ghost use Rattle.atomic_table.specs.Seated.{TableId};
ghost use Rattle.board_core.specs.Run.{Origin};
ghost use Rattle.log_lane.specs.Seen.{LaneSeen};
ghost use Rattle.kernel_lock.specs.Nothing.{no_origin, no_lane};
ghost use Rattle.log_lane.specs.Getter.{no_table};

use std::marker::Brand;

/// Of which board and images, of which inbox and of which lane a run is.
pub trait Session: Send + Sync {
    ghost origin: { Origin };

    ghost inbox: { TableId };

    ghost lane: { LaneSeen };
}

impl Session for Brand {
    ghost origin = { no_origin };

    ghost inbox = { no_table };

    ghost lane = { no_lane };
}
