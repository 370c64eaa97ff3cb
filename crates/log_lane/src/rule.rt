//! The lane rule, over what the queue holds and what each pass knows, and the steps that keep it.
//!
//! No value of these types is ever made: they exist in proofs alone.
ghost use Rattle.std.specs.Prelude.{◌≡◌, ◌≤◌, ⊤, [], ◌∷◌, ◌++◌, length};
ghost use Rattle.log_lane.specs.Rule.{know};

use crossbeam_queue::protocol::{Join, Lesson, Outcome, Protocol, Split};
use crossbeam_queue::{Pass, RuledArrayQueue};
use event_log::Entry;
use std::collections::LinkedList;

/// What a pass may do (put entries, or get them), and what it has put and got so far.
pub struct Know {
    pub puts: bool,
    pub put: LinkedList<Entry>,
    pub gets: bool,
    pub got: LinkedList<Entry>,
}

/// What was put is what was got and then what the queue holds, in order.
pub struct InOrder;

impl Protocol<Entry, Know> for InOrder {
    ghost use Rattle.std.specs.Prelude.{true, []};
    ghost use Rattle.log_lane.specs.Rule.{know, Relays};

    ghost holds = { Relays };

    ghost first = { know true [] true [] };
}

/// One pass puts, and another gets.
pub struct Roles;

impl Split<Know> for Roles {
    ghost use Rattle.std.specs.Prelude.{true, false, []};
    ghost use Rattle.log_lane.specs.Rule.{know};

    ghost left = { λ v. know true v.put false [] };

    ghost right = { λ v. know false [] true v.got };
}

impl Join<Know> for Roles {
    ghost use Rattle.std.specs.Prelude.{true, false, []};
    ghost use Rattle.log_lane.specs.Rule.{know};

    ghost both = { λ v w. know true v.put true w.got };

    ghost spent = { know false [] false [] };
}

/// An entry goes last.
pub struct Puts;

impl Outcome<Entry, Know> for Puts {
    ghost then = { λ v x w. w ≡ know v.puts (v.put ++ x ∷ []) v.gets v.got };
}

impl Lesson<Entry, Know> for Puts {
    ghost fact = { λ v items. length items ≤ length v.put };
}

/// The first entry is got.
pub struct Gets;

impl Outcome<Entry, Know> for Gets {
    ghost then = { λ v x w. w ≡ know v.puts v.put v.gets (v.got ++ x ∷ []) };
}

impl Lesson<Entry, Know> for Gets {
    ghost fact = { λ v items. ⊤ };
}

/// All that was put was got or is left.
pub struct Total;

impl Lesson<Entry, Know> for Total {
    ghost fact = { λ v items. v.put ≡ v.got ++ items };
}

/// The queue under this rule, and what a thread holds to use it.
pub type Queue = RuledArrayQueue<Entry, Know, InOrder>;

/// A pass of the queue, before it has a role.
pub type Hold = Pass<Entry, Know>;
