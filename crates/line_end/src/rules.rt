//! The words of an end's rules.

ghost use Rattle.std.specs.Prelude.{◌≡◌};
ghost use Rattle.line_laws.specs.Step.{is_driven_right, is_first, is_no, is_right, is_sound, lock_after, spoiled};
ghost use Rattle.line_end.specs.State.{is_same_position, is_same_flag};

use line_laws::{Position, QueryOut, Side};

pub(crate) fn is_first(side: Side) -> bool
    ensures { result ≡ is_first side }
{
    matches!(side, Side::First)
}

pub(crate) fn is_right(position: Position) -> bool
    ensures { result ≡ is_right position }
{
    matches!(position, Position::Right)
}

pub(crate) fn is_driven_right(drive: Option<Position>) -> bool
    ensures { result ≡ is_driven_right drive }
{
    match drive {
        None => false,
        Some(position) => is_right(position),
    }
}

pub(crate) fn is_no(query: QueryOut) -> bool
    ensures { result ≡ is_no query }
{
    matches!(query, QueryOut::No)
}

pub(crate) fn is_sound(query: QueryOut) -> bool
    ensures { result ≡ is_sound query }
{
    matches!(query, QueryOut::Sound)
}

/// A sound query becomes spoiled.
pub(crate) fn spoiled(query: QueryOut) -> QueryOut
    ensures { result ≡ spoiled query }
{
    match query {
        QueryOut::No => QueryOut::No,
        QueryOut::Sound => QueryOut::Spoiled,
        QueryOut::Spoiled => QueryOut::Spoiled,
    }
}

/// Where the lock lies next: it comes to lie at the left where it is driven there, and at the right where it is driven
/// there and the token is here.
pub(crate) fn lock_after(drive: Option<Position>, token: bool, lock: Position) -> Position
    ensures { result ≡ lock_after drive token lock }
{
    match drive {
        None => lock,
        Some(Position::Left) => Position::Left,
        Some(Position::Right) => { if token { Position::Right } else { lock } }
    }
}

pub(crate) fn is_same_flag(one: bool, other: bool) -> bool
    ensures { result ≡ is_same_flag one other }
{
    one == other
}

pub(crate) fn is_same_position(one: Position, other: Position) -> bool
    ensures { result ≡ is_same_position one other }
{
    is_right(one) == is_right(other)
}
