//! The numbers and texts of what an event is refused for. Those of commands are in the answers of stored event files.

use arrayvec::ArrayString;
use simulator::Refused;

/// The refusals in the order of their tests, with their numbers and texts.
const REFUSALS: [(Refused, u8, &str); 6] = [
    (Refused::NoSuchNode, 1, "no such node"),
    (Refused::NeverSent, 2, "no such datagram was sent"),
    (Refused::Drift, 3, "a clock drifts too far"),
    (Refused::NotDriven, 4, "the point isn't driven so"),
    (Refused::ClockLimit, 5, "the clock is at its limit"),
    (Refused::OutOfMemory, 6, "out of memory"),
];

/// The text of a refusal, in a place of its own.
fn text_of(why: Refused) -> ArrayString<64> {
    use std::fmt::Write;
    let mut text = ArrayString::new();
    let _ = write!(text, "{why}");
    text
}

#[test]
fn refusals_of_events_have_their_numbers_and_texts(rt: HostRuntime) {
    for (why, number, text) in REFUSALS {
        assert!(rt; why.number() == number);
        assert!(rt; Refused::numbered(u64::from(number)) == Some(why));
        assert!(rt; text_of(why).as_str() == text);
    }
    assert!(rt; Refused::numbered(0).is_none());
    assert!(rt; Refused::numbered(7).is_none());
}
