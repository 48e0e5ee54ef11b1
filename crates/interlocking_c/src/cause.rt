//! Why the interlocking refuses a command, in the numbers of C.

ghost use Rattle.std.specs.Prelude.{◌≡◌};
ghost use Rattle.interlocking_c.specs.Causes.{cause_naming, cause_told, named_in};

use crate::known::side_told;
use crate::things::{kind_told, place_told, side_named};
use embedded_ixl::{Named, Refusal, Thing};

/// Why the interlocking refuses a command.
#[repr(C)]
#[derive(Clone, Copy)]
pub struct CauseTold {
    /// 1 to 14, as `refused` tells it, or 0 where the command is obeyed.
    pub number: u32,
    /// The kind of what it names, or 0.
    pub kind: u32,
    /// The place of the route, section, point or signal that it names, or 0.
    pub place: usize,
    /// The side of a point at one side, or 0.
    pub side: u32,
}

/// What a refusal names, if it names something.
fn named_in(why: Refusal) -> Option<Named>
    ensures { result ≡ named_in why }
{
    match why {
        Refusal::Conflict(route) | Refusal::Held(route) => Some(Named::One(Thing::Route(route))),
        Refusal::NotClear(section) => Some(Named::One(Thing::Section(section))),
        Refusal::PointUnavailable(point) => Some(Named::BothSides(point)),
        Refusal::Closed(thing) => Some(Named::One(thing)),
        _ => None,
    }
}

/// A cause of this number that names this.
fn cause_naming(number: u32, named: Option<Named>) -> CauseTold
    ensures { result ≡ cause_naming number named }
{
    match named {
        None => CauseTold {
            number,
            kind: 0,
            place: 0,
            side: 0,
        },
        Some(named) => CauseTold {
            number,
            kind: kind_told(named),
            place: place_told(named),
            side: side_told(side_named(named)),
        },
    }
}

/// Why a command is refused, if it is.
pub(crate) fn cause_told(cause: Option<Refusal>) -> CauseTold
    ensures { result ≡ cause_told cause }
{
    match cause {
        None => cause_naming(0, None),
        Some(why) => cause_naming(u32::from(why.number()), named_in(why)),
    }
}
