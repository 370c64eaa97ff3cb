//! A device at work: its words are raised on a thread of its own, or by turns of the caller.
//!
//! A thread holds the inbox, the pass of its device, the gate, a flag and the script, and nothing of
//! the kernel. It gives back its pass, and promises that a prefix of the script was raised with it.
ghost use Rattle.std.specs.Prelude.{◌≡◌, ℕ, ◌≤◌, List, [], ◌∷◌, ◌++◌, length};
ghost use Rattle.tx_types.specs.Limits.{interrupt_limit};
ghost use Rattle.atomic_table.specs.Seated.{TableId};
ghost use Rattle.board_serve.specs.Raised.{HasRaised, IsRunning, at_first};

use board_io::Gate;
use board_values::DevNo;
use irq_inbox::{DevPass, Inbox};
use std::snapshot::Snapshot;
use std::sync::Wait;
use std::sync::atomic::{AtomicBool, Ordering};
use std::thread;
use std::thread::{Promise, PromisedHandle, Scope, Threads};

/// What a device's work promises of the pass that it gives back, and of the number of words that it
/// raised: they are that many first words of the script.
#[derive(Drop)]
pub(crate) struct Raises<'a> {
    pub script: &'a [u32],
    pub was: Snapshot<DevPass>,
}

impl<'a> Promise<(DevPass, u32)> for Raises<'a> {
    ghost use Rattle.board_serve.specs.Raised.{HasRaised};

    ghost kept_by = { λ p r. HasRaised p.was.value p.script.now r.0 r.1 };
}

/// A device at work: on a thread of its own, or turned by the caller, who has its pass and the number
/// of words that were raised.
#[derive(Drop)]
pub(crate) enum Device<'a> {
    Thread(PromisedHandle<(DevPass, u32), Raises<'a>>),
    Mine(DevPass, u32),
}

/// Raises a word, again and again while the inbox is full.
fn raise_word<R: Wait>(rt: &R, inbox: &Inbox, pass: &mut DevPass, w: u32)
    requires { pass.old.inbox ≡ inbox.now }
    ensures { pass.new ≡ record pass.old { sent = pass.old.sent ++ w ∷ [] } }
{
    for _ in rt.forever() {
        match inbox.raise(rt, pass, w) {
            Ok(()) => break,
            Err(_) => thread::yield_now(),
        }
    }
}

/// Raises the words of a script in their order, after the gate let each pass, until all were raised
/// or the flag is set. Gives back the pass, and how many words were raised.
fn work<R: Wait, G: Gate>(
    rt: &R,
    inbox: &Inbox,
    pass: DevPass,
    d: DevNo,
    script: &[u32],
    gate: &G,
    stop: &AtomicBool,
) -> (DevPass, u32)
    requires inbox { pass.inbox ≡ inbox.now }
    requires nothing { pass.sent ≡ [] }
    requires short { length script.now ≤ interrupt_limit }
    ensures { HasRaised pass script.now result.0 result.1 }
{
    let mut pass = pass;
    let mut next = 0u32;
    for _ in rt.forever() {
        if next as usize >= script.len() || stop.load(Ordering::SeqCst) {
            break;
        }
        gate.pause(d, next);
        raise_word(rt, inbox, &mut pass, script[next as usize]);
        next += 1;
    }
    (pass, next)
}

/// Starts a device on a thread. Where none could be started, the flag is set and the work comes back
/// before its first word, and the caller turns the device; so it is from the start where there is no
/// word to raise.
pub(crate) fn start_one<'s, 'b: 's, E, R: Wait + Sync, G: Gate + Sync>(
    scope: &'s Scope<'s, E>,
    rt: &'s R,
    inbox: &'s Inbox,
    pass: DevPass,
    d: DevNo,
    script: &'b [u32],
    gate: &'s G,
    stop: &'s AtomicBool,
) -> Device<'b>
    requires inbox { pass.inbox ≡ inbox.now }
    requires nothing { pass.sent ≡ [] }
    requires short { length script.now ≤ interrupt_limit }
    ensures { IsRunning pass.inbox pass.number script.now result }
{
    if script.is_empty() {
        return Device::Mine(pass, 0);
    }
    let promise = Raises {
        script,
        was: Snapshot::of(&pass),
    };
    match scope.spawn_with(
        promise,
        move || -> (DevPass, u32)
            requires { (pass.inbox ≡ inbox.now) × (pass.sent ≡ [])
                × (length script.now ≤ interrupt_limit) }
            ensures { HasRaised pass script.entry.now result.0 result.1 }
        { work(rt, inbox, pass, d, script, gate, stop) },
    ) {
        Ok(handle) => Device::Thread(handle),
        Err(refused) => {
            stop.store(true, Ordering::SeqCst);
            let (pass, raised) = (refused.value)();
            Device::Mine(pass, raised)
        }
    }
}

/// One turn of a device that the caller turns: its next word is raised where the inbox has room, and
/// the gate isn't asked. A device with a thread, or with all words raised, is left alone.
pub(crate) fn turn_one<R: Wait>(rt: &R, inbox: &Inbox, script: &[u32], device: &mut Device)
    requires short { length script.now ≤ interrupt_limit }
    requires running { (number : ℕ) × IsRunning inbox.now number script.now device.old }
    ensures { (number : ℕ) → IsRunning inbox.now number script.now device.old
        → IsRunning inbox.now number script.now device.new }
{
    if let Device::Mine(pass, raised) = device {
        let next = *raised as usize;
        if next < script.len() && inbox.raise(rt, pass, script[next]).is_ok() {
            *raised += 1;
        }
    }
}

/// Waits for a device's thread to end, and gives back the pass.
pub(crate) fn end_one<'a, R: Threads>(rt: &R, device: Device<'a>) -> DevPass
    ensures { (inbox : TableId) (number : ℕ) (script : List ℕ) →
        IsRunning inbox number script device.entry
        → (k : ℕ) × HasRaised (at_first inbox number) script result k }
{
    match device {
        Device::Thread(handle) => handle.join(rt).0,
        Device::Mine(pass, _) => pass,
    }
}
