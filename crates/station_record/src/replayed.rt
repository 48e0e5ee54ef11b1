//! A world to which the events of a session happen again.

ghost use Rattle.std.specs.Prelude.{◌≡◌, IfOk, OnOk};
ghost use Rattle.replay.specs.World.{after, played, refusal_of};
ghost use Rattle.station_record.specs.Traffic.{left_by};
ghost use Rattle.station_record.specs.inside.Late.{IsKnown};

use replay::{Entry, Event, Refused, Station, World};
use std::alloc::AllocError;

/// Applies an event, and tells why it can't happen, if it can't.
pub(crate) fn try_event(world: &mut World, event: &Event) -> Result<Option<Refused>, AllocError>
    ensures refused { IfOk result (λ refused. refused ≡ refusal_of event.now (played world.old)) }
    ensures world { OnOk result (played world.new ≡ after (played world.old) event.now) }
    ensures sited { OnOk result (world.new.sited ≡ world.old.sited) }
{
    match Station::apply(world, event) {
        Ok(_) => Ok(None),
        Err(why) => known(why),
    }
}

/// Why an event can't happen, if that is known: where memory was lacking it isn't.
fn known(why: Refused) -> Result<Option<Refused>, AllocError>
    ensures { IfOk result (λ told. IsKnown why told) }
{
    match why {
        Refused::OutOfMemory => Err(AllocError),
        _ => Ok(Some(why)),
    }
}

/// Applies the events of a session to a world.
pub(crate) fn apply_all(world: &mut World, entries: &[Entry]) -> Result<(), AllocError>
    ensures { OnOk result (played world.new ≡ left_by (played world.old) entries.now) }
{
    for entry in entries {
        try_event(world, &entry.event)?;
    }
    Ok(())
}
