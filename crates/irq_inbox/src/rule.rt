//! The inbox rule, over what the queue holds and what each pass knows, and the steps that keep it.
//!
//! No value of these types is ever made: they exist in proofs alone.
ghost use Rattle.std.specs.Prelude.{◌≡◌, ◌+◌, ◌<◌, [], ◌∷◌, ◌++◌};
ghost use Rattle.irq_inbox.specs.Rule.{taker, sender, nobody, HoldsRest, AreSent, Delivers};

use board_values::DevNo;
use crossbeam_queue::protocol::{Join, Lesson, Outcome, Protocol, Split};
use crossbeam_queue::{Pass, RuledArrayQueue};
use std::collections::LinkedList;

/// What a pass may do (take words, or send them as a device), and what it has done so far.
pub struct Know {
    pub takes: bool,
    pub made: u8,
    pub got: LinkedList<(DevNo, u32)>,
    pub known: LinkedList<LinkedList<u32>>,
    pub sends: bool,
    pub number: DevNo,
    pub sent: LinkedList<u32>,
}

/// What each device sent is what was got of it and then what the queue holds of it, in order.
pub struct InOrder;

impl Protocol<(DevNo, u32), Know> for InOrder {
    ghost use Rattle.std.specs.Prelude.{[]};
    ghost use Rattle.irq_inbox.specs.Rule.{taker, Delivers};

    ghost holds = { Delivers };

    ghost first = { taker 0 [] [] };
}

/// One more device: the taking pass makes it.
pub struct OneMore;

impl Split<Know> for OneMore {
    ghost use Rattle.std.specs.Prelude.{◌+◌, []};
    ghost use Rattle.irq_inbox.specs.Rule.{taker, sender};

    ghost left = { λ v. taker (v.made + 1) v.got v.known };

    ghost right = { λ v. sender v.made [] };
}

/// A device has ended: the taking pass keeps what it sent.
pub struct Ended;

impl Join<Know> for Ended {
    ghost use Rattle.std.specs.Prelude.{[], ◌∷◌, ◌++◌};
    ghost use Rattle.irq_inbox.specs.Rule.{taker, nobody};

    ghost both = { λ v w. taker v.made v.got (v.known ++ w.sent ∷ []) };

    ghost spent = { nobody };
}

/// A device raises a word.
pub struct Raises;

impl Outcome<(DevNo, u32), Know> for Raises {
    ghost then = { λ v x w. w ≡ sender x.0 (v.sent ++ x.1 ∷ []) };
}

impl Lesson<(DevNo, u32), Know> for Raises {
    ghost fact = { λ v items. HoldsRest v.number v.sent items };
}

/// The first word is taken.
pub struct Takes;

impl Outcome<(DevNo, u32), Know> for Takes {
    ghost then = { λ v x w. (w ≡ taker v.made (v.got ++ x ∷ []) v.known) × (x.0 < v.made) };
}

impl Lesson<(DevNo, u32), Know> for Takes {
    ghost fact = { λ v items. AreSent v.known v.got items };
}

/// The queue under this rule, and what a thread holds to use it.
pub type Queue = RuledArrayQueue<(DevNo, u32), Know, InOrder>;

/// A pass of the queue, before it has a role.
pub type Hold = Pass<(DevNo, u32), Know>;
