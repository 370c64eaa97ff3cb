//! Marks that a sink and a gate share: which lines stand and which pauses were entered.
//!
//! By them a gate delays a device until the log has come to a place, which shows that devices run
//! beside the caller's loop and beside one another.

use board_io::{Gate, MemSink, Sink, WriteErr};
use board_values::DevNo;
use std::sync::atomic::{AtomicU32, Ordering};
use std::thread;

/// How many lines of devices 0 and 1 were written, how often their pauses were entered, and how many
/// waits were given up.
#[derive(Drop)]
pub struct Marks {
    pub lines_0: AtomicU32,
    pub lines_1: AtomicU32,
    pub pauses_0_0: AtomicU32,
    pub pauses_0_1: AtomicU32,
    pub pauses_1_0: AtomicU32,
    pub late: AtomicU32,
}

/// How often a gate looks at a mark before it gives up.
const LOOKS: u32 = 1_000_000;

fn count(mark: &AtomicU32) {
    mark.fetch_add(1, Ordering::SeqCst);
}

/// What a mark has come to.
pub fn read(mark: &AtomicU32) -> u32 {
    mark.load(Ordering::SeqCst)
}

impl Marks {
    pub fn new() -> Marks {
        Marks {
            lines_0: AtomicU32::new(0),
            lines_1: AtomicU32::new(0),
            pauses_0_0: AtomicU32::new(0),
            pauses_0_1: AtomicU32::new(0),
            pauses_1_0: AtomicU32::new(0),
            late: AtomicU32::new(0),
        }
    }

    /// Waits until a mark has come to a number, or gives up.
    fn wait_for(&self, mark: &AtomicU32, least: u32) {
        for _ in 0..LOOKS {
            if read(mark) >= least {
                return;
            }
            thread::yield_now();
        }
        count(&self.late);
    }
}

/// A sink in memory that counts the lines of devices 0 and 1.
#[derive(Drop)]
pub struct MarkSink<'a> {
    pub sink: MemSink,
    pub marks: &'a Marks,
}

impl<'a> Sink for MarkSink<'a> {
    ghost use Rattle.std.specs.Prelude.{None};

    ghost written = { λ _. None };

    ghost faults = { λ s. s.sink.faults };

    fn write(&mut self, bytes: &[u8]) -> Result<(), WriteErr> {
        let written = self.sink.write(bytes);
        if bytes.starts_with("I 0 ".as_bytes()) {
            count(&self.marks.lines_0);
        } else if bytes.starts_with("I 1 ".as_bytes()) {
            count(&self.marks.lines_1);
        }
        written
    }
}

/// In which order the lines of two words of device 0 and one of device 1 are to stand.
#[derive(Clone, Copy, Debug, PartialEq, Eq)]
pub enum Order {
    /// 0, 1, 0: each word waits for the line of the one before.
    Between,
    /// 0, 0, 1: device 0 waits until device 1 was asked, and that one for both lines of device 0.
    After,
}

/// A gate that counts its pauses, and delays two devices into an order.
#[derive(Drop)]
pub struct MarkGate<'a> {
    pub order: Order,
    pub marks: &'a Marks,
}

impl<'a> Gate for MarkGate<'a> {
    fn pause(&self, d: DevNo, k: u32) {
        let marks = self.marks;
        match (d.number(), k) {
            (0, 0) => count(&marks.pauses_0_0),
            (0, 1) => count(&marks.pauses_0_1),
            (1, 0) => count(&marks.pauses_1_0),
            _ => count(&marks.late),
        }
        match (self.order, d.number(), k) {
            (Order::Between, 1, 0) => marks.wait_for(&marks.lines_0, 1),
            (Order::Between, 0, 1) => marks.wait_for(&marks.lines_1, 1),
            (Order::After, 0, 0) => marks.wait_for(&marks.pauses_1_0, 1),
            (Order::After, 1, 0) => marks.wait_for(&marks.lines_0, 2),
            _ => {}
        }
    }
}
