//! An inbox that fills up, and sixteen devices that raise by turns, on one thread.
//!
//! No second thread is started, so words that are raised at the same time aren't tested here.
ghost use Rattle.std.specs.Prelude.{◌≡◌, ℕ, ◌<◌, length, IfOk};
ghost use Rattle.irq_inbox.specs.Seen.{AreAllOf};

use irq_inbox::{CpuPass, DevPass, Full, Inbox};
use std::alloc::{AllocError, Global};
use std::sync::Wait;
use std::test::Fail;

/// An inbox of one device, with both its passes.
#[derive(Drop)]
struct Bench {
    inbox: Inbox,
    cpu: CpuPass,
    dev: DevPass,
    ghost cpu_of: { cpu.inbox ≡ inbox },
    ghost dev_of: { dev.inbox ≡ inbox },
}

impl Bench {
    fn new<R: Wait>(rt: &R, alloc: Global) -> Result<Bench, Fail> {
        let (inbox, cpu, mut devs) = Inbox::new(rt, alloc, 1)?;
        match devs.pop() {
            Some(dev) => Ok(Bench { inbox, cpu, dev }),
            None => unreachable!(),
        }
    }

    fn raise<R: Wait>(&mut self, rt: &R, w: u32) -> Result<(), Full> {
        self.inbox.raise(rt, &mut self.dev, w)
    }

    /// The word that is taken, if there is one, of device 0.
    fn take<R: Wait>(&mut self, rt: &R) -> Option<(u8, u32)> {
        let (d, w) = self.inbox.take(rt, &mut self.cpu)?;
        Some((d.number(), w))
    }
}

#[test]
fn the_257th_word_comes_back(rt: HostRuntime) -> Result<(), Fail> {
    let mut bench = Bench::new(&rt, rt.alloc())?;
    for w in 0..256u32 {
        assert_eq!(rt; bench.raise(&rt, w), Ok(()), "{w}");
    }
    assert_eq!(rt; bench.raise(&rt, 9), Err(Full(9)));
    assert_eq!(rt; bench.take(&rt), Some((0, 0)));
    assert_eq!(rt; bench.raise(&rt, 9), Ok(()));
    assert_eq!(rt; bench.raise(&rt, 10), Err(Full(10)));
    for w in 1..256u32 {
        assert_eq!(rt; bench.take(&rt), Some((0, w)), "{w}");
    }
    assert_eq!(rt; bench.take(&rt), Some((0, 9)));
    assert_eq!(rt; bench.take(&rt), None);
    Ok(())
}

/// Each device raises a word: w, and one more for each device after it.
fn round<R: Wait>(
    rt: &R,
    alloc: Global,
    inbox: &Inbox,
    devs: Vec<DevPass>,
    w: u32,
) -> Result<Vec<DevPass>, AllocError>
    requires { AreAllOf inbox.now (length devs.items) devs.items }
    ensures { IfOk result (λ back. AreAllOf inbox.now (length devs.items) back.items) }
{
    let mut back = Vec::with_capacity(alloc, devs.len())?;
    for dev in devs {
        let mut dev = dev;
        let _ = inbox.raise(rt, &mut dev, w.wrapping_add(back.len() as u32));
        back.push(dev)?;
    }
    Ok(back)
}

#[test]
fn sixteen_devices_raise_by_turns(rt: HostRuntime) -> Result<(), Fail> {
    let (inbox, mut cpu, devs) = Inbox::new(&rt, rt.alloc(), 16)?;
    let devs = round(&rt, rt.alloc(), &inbox, devs, 100)?;
    let devs = round(&rt, rt.alloc(), &inbox, devs, 200)?;
    for turn in 0..2u32 {
        for d in 0..16u32 {
            let got = inbox
                .take(&rt, &mut cpu)
                .map(|(d, w)| (u32::from(d.number()), w));
            assert_eq!(rt; got, Some((d, 100 * turn + 100 + d)), "{turn} {d}");
        }
    }
    let mut cpu = inbox.gather(&rt, cpu, devs).cpu;
    assert_eq!(rt; inbox.take(&rt, &mut cpu).is_none(), true);
    Ok(())
}

#[test]
fn an_inbox_of_no_device(rt: HostRuntime) -> Result<(), Fail> {
    let (inbox, mut cpu, devs) = Inbox::new(&rt, rt.alloc(), 0)?;
    assert_eq!(rt; devs.len(), 0);
    assert_eq!(rt; inbox.take(&rt, &mut cpu).is_none(), true);
    let mut cpu = inbox.gather(&rt, cpu, devs).cpu;
    assert_eq!(rt; inbox.take(&rt, &mut cpu).is_none(), true);
    Ok(())
}
