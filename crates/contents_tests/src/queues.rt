//! What two queues hold after each step of a history, worked by hand.

use msg_queues::Queues;
use std::test::Fail;
use tx_types::{Message, ObjNo};

/// A step of a history, by the number of its object.
enum Step {
    /// A message goes last, or first.
    Last(u16, &'static [u32]),
    First(u16, &'static [u32]),
    /// No message of those words can go in.
    Refused(u16, &'static [u32]),
    /// The message that is taken.
    Pop(u16, &'static [u32]),
    Flush(u16),
    Remove(u16),
    /// The words of each message, how many messages there are, and how many more it holds.
    Holds(u16, [u32; 3]),
    /// The message at a place.
    At(u16, u32, &'static [u32]),
    /// There is no message at that place, nor at those after it.
    Ends(u16, u32),
}

fn object(number: u16) -> ObjNo {
    ObjNo::new(number % 256)
}

/// Puts a message in, first or last, where it can go in.
fn push(queues: &mut Queues, o: ObjNo, words: &[u32], first: bool) -> bool {
    if queues.room(o) == 0 || words.len() > 16 || words.len() != queues.words(o) as usize {
        return false;
    }
    let message = Message::from_words(words);
    if first {
        queues.push_front(o, &message);
    } else {
        queues.push_back(o, &message);
    }
    true
}

/// Whether a message is that one.
fn is(message: Option<&Message>, words: &[u32]) -> bool {
    match message {
        Some(m) => m.words() == words,
        None => false,
    }
}

/// Makes a step, and says whether it came out so.
fn make(queues: &mut Queues, step: &Step) -> bool {
    match step {
        Step::Last(o, words) => push(queues, object(*o), words, false),
        Step::First(o, words) => push(queues, object(*o), words, true),
        Step::Refused(o, words) => !push(queues, object(*o), words, true),
        Step::Pop(o, words) => is(queues.pop(object(*o)).as_ref(), words),
        Step::Flush(o) => {
            queues.flush(object(*o));
            true
        }
        Step::Remove(o) => {
            queues.remove(object(*o));
            true
        }
        Step::Holds(o, [words, len, room]) => {
            let o = object(*o);
            queues.words(o) == *words && queues.len(o) == *len && queues.room(o) == *room
        }
        Step::At(o, i, words) => is(queues.message(object(*o), *i), words),
        Step::Ends(o, i) => queues.message(object(*o), *i).is_none(),
    }
}

/// Makes the steps of a history. The answer is the place of the first that comes out otherwise.
fn differs_at(queues: &mut Queues, history: &[Step]) -> Option<usize> {
    history.iter().position(|step| !make(queues, step))
}

const HISTORY: &[Step] = &[
    Step::Holds(0, [2, 0, 3]),
    Step::Ends(0, 0),
    Step::Last(0, &[1, 0xFFFF_FFFF]),
    Step::Last(0, &[2, 2]),
    Step::First(0, &[3, 3]),
    // full, while the other queue is empty
    Step::Refused(0, &[4, 4]),
    Step::Holds(0, [2, 3, 0]),
    Step::Holds(255, [16, 0, 64]),
    Step::At(0, 2, &[2, 2]),
    Step::Ends(0, 3),
    Step::Pop(0, &[3, 3]),
    Step::Pop(0, &[1, 0xFFFF_FFFF]),
    Step::Last(0, &[5, 5]),
    // of another size
    Step::Refused(0, &[6]),
    Step::Last(255, &[0, 1, 2, 3, 4, 5, 6, 7, 8, 9, 10, 11, 12, 13, 14, 15]),
    Step::Flush(0),
    Step::Holds(0, [2, 0, 3]),
    Step::Holds(255, [16, 1, 63]),
    Step::Remove(255),
    Step::Holds(255, [0, 0, 0]),
    Step::Ends(255, 0),
];

#[test]
fn messages_come_and_go_in_order(rt: HostRuntime) -> Result<(), Fail> {
    let mut queues = Queues::new(rt.alloc()).map_err(|_| "no memory")?;
    queues.create(ObjNo::new(0), 2, 3);
    queues.create(ObjNo::new(255), 16, 64);
    assert_eq!(rt; differs_at(&mut queues, HISTORY), None);
    Ok(())
}
