//! The numbers of kinds and states, a reference and its parts, names and messages, each worked by
//! hand.
//!
//! Status codes, numbers with a range, waits and printed lines have no tests here.

use crate::{Kind, Message, Name, ObjNo, ObjRef, State};
use std::test::Fail;

#[test]
fn kinds_have_the_numbers_1_to_8(rt: HostRuntime) -> Result<(), Fail> {
    for (number, kind) in [
        (0, None),
        (1, Some(Kind::Thread)),
        (2, Some(Kind::Queue)),
        (3, Some(Kind::Semaphore)),
        (4, Some(Kind::Mutex)),
        (5, Some(Kind::Events)),
        (6, Some(Kind::BytePool)),
        (7, Some(Kind::BlockPool)),
        (8, Some(Kind::Timer)),
        (9, None),
        (257, None),
    ] {
        assert_eq!(rt; Kind::of(number), kind, "{number}");
        if let Some(k) = kind {
            assert_eq!(rt; k.number(), number);
        }
    }
    Ok(())
}

#[test]
fn states_have_the_numbers_of_threadx(rt: HostRuntime) -> Result<(), Fail> {
    for (state, number) in [
        (State::Ready, 0),
        (State::Completed, 1),
        (State::Terminated, 2),
        (State::Suspended, 3),
        (State::Sleep, 4),
        (State::QueueSusp, 5),
        (State::SemaphoreSusp, 6),
        (State::EventFlag, 7),
        (State::BlockMemory, 8),
        (State::ByteMemory, 9),
        (State::MutexSusp, 13),
    ] {
        assert_eq!(rt; state.number(), number);
    }
    Ok(())
}

#[test]
fn a_reference_and_its_parts(rt: HostRuntime) -> Result<(), Fail> {
    for (word, slot, generation) in [
        (0x0000_0105, 5, 1),
        (0x0000_0205, 5, 2),
        (0x0000_00FF, 255, 0),
        (0xFFFF_FF00, 0, 0xFF_FFFF),
        (0x1234_56AB, 0xAB, 0x12_3456),
    ] {
        let r = ObjRef::of(ObjNo::new(slot), generation);
        assert_eq!(rt; r.word(), word);
        assert_eq!(rt; ObjRef::new(word).slot().number(), slot);
        assert_eq!(rt; ObjRef::new(word).generation(), generation);
    }
    Ok(())
}

#[test]
fn names_are_the_same_by_their_bytes(rt: HostRuntime) -> Result<(), Fail> {
    let mut name = Name::from_bytes(b"idl");
    assert!(rt; !name.same(&Name::from_bytes(b"idle")));
    name.push(b'e');
    assert!(rt; name.same(&Name::from_bytes(b"idle")));
    assert!(rt; !name.same(&Name::from_bytes(b"idlE")));
    assert!(rt; !name.same(&Name::empty()));
    assert!(rt; Name::empty().same(&Name::from_bytes(b"")));
    let longest = [255; 31];
    assert_eq!(rt; Name::from_bytes(&longest).bytes(), longest.as_slice());
    Ok(())
}

#[test]
fn a_message_keeps_its_words(rt: HostRuntime) -> Result<(), Fail> {
    let mut message = Message::from_words(&[1, 0xFFFF_FFFF]);
    message.push(0);
    assert_eq!(rt; message.words(), [1, 0xFFFF_FFFF, 0].as_slice());
    assert_eq!(rt; Message::empty().words().len(), 0);
    let longest = [7; 16];
    assert_eq!(rt; Message::from_words(&longest).words(), longest.as_slice());
    Ok(())
}
