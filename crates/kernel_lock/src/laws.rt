//! What holds of the interrupts of a history, for the layers above.
//!
//! The body does nothing; a function calls it where its proof needs the law.
ghost use Rattle.std.specs.Prelude.{◌≡◌, ℕ, List};
ghost use Rattle.event_log.specs.Events.{interrupts, words_of};
ghost use Rattle.event_log.specs.declared.entry.Entry.{Entry};
ghost use Rattle.irq_inbox.specs.Words.{words};

/// Of each device, the words of its interrupts in a history are its words among the interrupts.
pub fn words_are_those_of_interrupts()
    ensures { (d : ℕ) (es : List Entry) → words_of d es ≡ words d (interrupts es) }
{}
