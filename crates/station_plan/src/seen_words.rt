//! What is seen of signals, points and sections, as words of their classes.

ghost use Rattle.std.specs.Prelude.{◌≡◌};
ghost use Rattle.station_plan.specs.Faces.{aspect_state, known, leg_state, occupancy_state, position_seen, state_for};

use crate::places::place_of;
use crate::shown::{Seen, Shown};
use crate::thing::Subject;
use control_table::{Aspect, Layout, Name, Occupancy, Position, Side};

/// What is known at a place of a list, if anything is.
fn known<T: Copy>(list: &[Option<T>], place: Option<usize>) -> Option<T>
    ensures { result ≡ known list.now place }
{
    match place {
        Some(place) => match list.get(place) {
            Some(entry) => *entry,
            None => None,
        },
        None => None,
    }
}

/// Where a point lies.
fn position_seen(layout: &Layout, seen: &Seen, name: &Name) -> Option<Position>
    ensures { result ≡ position_seen layout.now seen.now name.now }
{
    known(&seen.positions, place_of(layout.points(), name.as_str()))
}

fn aspect_words(aspect: Option<Aspect>) -> &'static str
    ensures { result.now ≡ aspect_state aspect }
{
    match aspect {
        Some(Aspect::Stop) => " stop",
        Some(Aspect::Proceed) => " proceed",
        Some(Aspect::Slow) => " slow",
        None => "",
    }
}

/// How a point lies to one of its legs.
fn leg_words(position: Option<Position>, side: Side) -> &'static str
    ensures { result.now ≡ leg_state position side }
{
    match (position, side) {
        (Some(Position::Left), Side::Left) => " lies",
        (Some(Position::Left), Side::Right) => " off",
        (Some(Position::Right), Side::Left) => " off",
        (Some(Position::Right), Side::Right) => " lies",
        (Some(Position::NoEndPosition), _) => " moving",
        (None, _) => "",
    }
}

fn occupancy_words(occupancy: Option<Occupancy>) -> &'static str
    ensures { result.now ≡ occupancy_state occupancy }
{
    match occupancy {
        Some(Occupancy::Clear) => " clear",
        Some(Occupancy::Occupied) => " occupied",
        None => " unknown",
    }
}

/// The word for what is seen of a subject.
pub(crate) fn state_word(layout: &Layout, shown: &Shown, subject: &Subject) -> &'static str
    ensures { result.now ≡ state_for layout.now shown.now.seen subject.now }
{
    let Some(seen) = &shown.seen else {
        return "";
    };
    match subject {
        Subject::Section(name) => {
            let place = place_of(layout.sections(), name.as_str());
            occupancy_words(known(&seen.occupancies, place))
        }
        Subject::Left(name) => leg_words(position_seen(layout, seen, name), Side::Left),
        Subject::Right(name) => leg_words(position_seen(layout, seen, name), Side::Right),
        Subject::Signal(name) => {
            let place = place_of(layout.signals(), name.as_str());
            aspect_words(known(&seen.aspects, place))
        }
        Subject::Track(_)
        | Subject::Point(_)
        | Subject::Tip(_)
        | Subject::Border(_)
        | Subject::Joint(..)
        | Subject::Detector(_) => "",
    }
}
