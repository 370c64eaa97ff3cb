//! A core on the bench: its devices raise, it makes turns and steps, and its lane is emptied.
//!
//! All of it is on one thread, and nothing here says what is to come of a move.
ghost use Rattle.std.specs.Prelude.{◌≡◌, true};

use board_values::DevNo;
use event_log::{Entry, entry_line};
use irq_inbox::{DevPass, Full, Inbox};
use kernel_lock::{Core, Session, Turn};
use log_lane::{GetPass, Lane};
use std::alloc::Global;
use std::sync::Wait;
use std::test::Fail;
use tx_types::Line;

/// A core, its inbox with the passes of two devices, and its lane with the pass that gets.
#[derive(Drop)]
pub struct Bench<'a, O: Session> {
    pub core: Core<'a, O>,
    pub inbox: &'a Inbox,
    pub one: DevPass,
    pub two: DevPass,
    pub lane: &'a Lane,
    pub get: GetPass,
    pub ghost one_of: { one.inbox ≡ inbox.now },
    pub ghost two_of: { two.inbox ≡ inbox.now },
    pub ghost live: { get.live ≡ true },
    pub ghost get_of: { get.lane ≡ lane.now.id },
}

impl<'a, O: Session> Bench<'a, O> {
    /// Device 0 raises a word, or device 1.
    pub fn raise<R: Wait>(&mut self, rt: &R, d: u8, w: u32) -> Result<(), Full> {
        if d == 0 {
            self.inbox.raise(rt, &mut self.one, w)
        } else {
            self.inbox.raise(rt, &mut self.two, w)
        }
    }

    /// A turn, which may make a step if it is allowed and one is left; None where the history has
    /// no room for an interrupt.
    pub fn turn<R: Wait>(&mut self, rt: &R, may_step: bool) -> Option<Turn> {
        if !self.core.room() {
            return None;
        }
        let left = self.core.steps() < self.core.machine.board().steps;
        Some(self.core.turn(rt, may_step && left))
    }

    /// A step, if one is left.
    pub fn step(&mut self) -> bool {
        let left = self.core.steps() < self.core.machine.board().steps;
        if left {
            self.core.step();
        }
        left
    }

    /// How many words of device d were taken.
    pub fn taken(&self, d: u8) -> u32 {
        self.core.taken(DevNo::new(d % 16))
    }

    /// The text of the core's history.
    pub fn history(&self, alloc: Global) -> Result<String, Fail> {
        let history = self.core.machine.history();
        let mut text = String::new(alloc);
        for i in 0..history.len() {
            put_line(&mut text, history.entry(i))?;
        }
        Ok(text)
    }

    /// The text of what the lane gives, until it is empty.
    pub fn carried<R: Wait>(&mut self, rt: &R, alloc: Global) -> Result<String, Fail> {
        let mut text = String::new(alloc);
        for _ in 0..self.core.machine.history().len() {
            match self.lane.get(rt, &mut self.get) {
                Some(entry) => put_line(&mut text, entry)?,
                None => break,
            }
        }
        Ok(text)
    }
}

/// Appends the line of an entry.
fn put_line(text: &mut String, entry: Entry) -> Result<(), Fail> {
    let mut line = Line::new();
    entry_line(entry, &mut line);
    text.push_str(line.as_str())?;
    Ok(())
}
