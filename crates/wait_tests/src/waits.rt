//! Who stands where in a history of waits, what the totals are, and how a table that was set up
//! goes on.

ghost use Rattle.std.specs.Prelude.{◌≡◌, is_some};
ghost use Rattle.suspend_lists.specs.Waits.{place_of};

use std::test::Fail;
use suspend_lists::{Asks, On, Wait, Waits};
use tx_types::{Code, End, ModNo, ObjNo, Prio, ThreadNo, Totals, WaitNo};

/// Where a thread waits: at object 7, at the callbacks of module 2, or nowhere.
enum At {
    Object,
    Callbacks,
    Nowhere,
}

/// A step of a history, by the number of its thread. A wait begins under the number beside it.
enum Step {
    Begin(u16, At, u64),
    End(u16, End),
    ToFront(u16),
    /// Those stand at the place, in this order, and no others.
    Stand(At, &'static [u16]),
}

fn thread(number: u16) -> ThreadNo {
    ThreadNo::new(number % 256)
}

fn on(at: &At) -> On {
    match at {
        At::Object => On::Object(ObjNo::new(7)),
        At::Callbacks => On::Callbacks(ModNo::new(2)),
        At::Nowhere => On::Sleep,
    }
}

/// A wait for an instance of a semaphore.
fn wait(at: &At) -> Wait {
    Wait {
        on: on(at),
        asks: Asks::Instance,
        code: Code::NO_INSTANCE,
        asked: Prio::new(9),
    }
}

/// Begins a wait where the thread has none, and gives its number.
fn begin(w: &mut Waits, t: ThreadNo, at: &At) -> Option<u64> {
    if w.number(t).is_some() || w.totals().begun >= 1 << 63 {
        return None;
    }
    Some(w.begin(t, wait(at)).number())
}

/// Ends the wait of a thread, where it has one.
fn end(w: &mut Waits, t: ThreadNo, e: End) -> bool {
    let may = w.number(t).is_some();
    if may {
        w.end(t, e);
    }
    may
}

/// Whether a thread waits at a place.
fn has_place(w: &Waits, t: ThreadNo) -> bool
    ensures { result ≡ is_some (place_of w.now t) }
{
    match w.wait_of(t) {
        Some(x) => match x.on {
            On::Object(_) => true,
            On::Callbacks(_) => true,
            On::Sleep => false,
        },
        None => false,
    }
}

/// Puts a thread first at its place, where it waits at one.
fn to_front(w: &mut Waits, t: ThreadNo) -> bool {
    let may = has_place(w, t);
    if may {
        w.to_front(t);
    }
    may
}

/// Makes a step, and says whether it could be made and came out so.
fn make(w: &mut Waits, step: &Step) -> bool {
    match step {
        Step::Begin(t, at, number) => begin(w, thread(*t), at) == Some(*number),
        Step::End(t, e) => end(w, thread(*t), *e),
        Step::ToFront(t) => to_front(w, thread(*t)),
        Step::Stand(at, order) => stand(w, at, order),
    }
}

/// Whether those threads stand at a place in this order, and no others.
fn stand(w: &Waits, at: &At, order: &[u16]) -> bool {
    let mut next = w.first(on(at));
    for number in order {
        match next {
            Some(t) if t.number() == *number => next = w.after(t),
            _ => return false,
        }
    }
    next.is_none() && usize::from(w.len(on(at))) == order.len()
}

/// Makes the steps of a history. The answer is the place of the first that comes out otherwise.
fn differs_at(w: &mut Waits, history: &[Step]) -> Option<usize> {
    history.iter().position(|step| !make(w, step))
}

const HISTORY: &[Step] = &[
    Step::Begin(5, At::Object, 0),
    Step::Begin(3, At::Object, 1),
    Step::Begin(4, At::Callbacks, 2),
    Step::Begin(9, At::Object, 3),
    // a sleeper stands nowhere
    Step::Begin(200, At::Nowhere, 4),
    Step::Stand(At::Object, &[5, 3, 9]),
    Step::Stand(At::Callbacks, &[4]),
    Step::Stand(At::Nowhere, &[]),
    // the last goes first, and the others keep their order
    Step::ToFront(9),
    Step::Stand(At::Object, &[9, 5, 3]),
    // the one in the middle leaves
    Step::End(5, End::Satisfied),
    Step::Stand(At::Object, &[9, 3]),
    Step::End(200, End::TimedOut),
    // whose wait is over begins another one, under a new number
    Step::Begin(5, At::Callbacks, 5),
    Step::Stand(At::Object, &[9, 3]),
    Step::Stand(At::Callbacks, &[4, 5]),
    Step::End(9, End::Deleted),
    Step::End(4, End::Aborted),
    Step::Stand(At::Object, &[3]),
    Step::Stand(At::Callbacks, &[5]),
    Step::End(3, End::Gone),
    Step::Stand(At::Object, &[]),
    Step::Stand(At::Callbacks, &[5]),
];

#[test]
fn threads_stand_in_order(rt: HostRuntime) -> Result<(), Fail> {
    let mut w = Waits::new(rt.alloc()).map_err(|_| "no memory")?;
    assert_eq!(rt; differs_at(&mut w, HISTORY), None);
    let totals = Totals {
        begun: 6,
        satisfied: 1,
        timed_out: 1,
        aborted: 1,
        deleted: 1,
        gone: 1,
    };
    assert_eq!(rt; w.totals(), totals);
    Ok(())
}

const AFTER_IT_WAS_SET_UP: &[Step] = &[
    Step::Stand(At::Object, &[3, 1]),
    Step::Begin(0, At::Object, 5),
    Step::Stand(At::Object, &[3, 1, 0]),
    Step::End(3, End::Satisfied),
    Step::Stand(At::Object, &[1, 0]),
];

#[test]
fn a_table_is_set_up_and_goes_on(rt: HostRuntime) -> Result<(), Fail> {
    let mut w = Waits::new(rt.alloc()).map_err(|_| "no memory")?;
    w.restore_totals(Totals {
        begun: 5,
        satisfied: 1,
        timed_out: 2,
        aborted: 0,
        deleted: 0,
        gone: 0,
    });
    w.restore(ThreadNo::new(3), wait(&At::Object), WaitNo::new(4));
    w.restore(ThreadNo::new(1), wait(&At::Object), WaitNo::new(2));
    assert_eq!(rt; differs_at(&mut w, AFTER_IT_WAS_SET_UP), None);
    let left = w.waiters(rt.alloc(), on(&At::Object));
    let left = left.map_err(|_| "no memory")?;
    assert_eq!(rt; left.as_slice(), [thread(1), thread(0)].as_slice());
    assert_eq!(rt; w.number(thread(1)), Some(WaitNo::new(2)));
    assert_eq!(rt; (w.totals().begun, w.totals().satisfied), (6, 2));
    Ok(())
}
