//! What changed since it was told.

ghost use Rattle.std.specs.Prelude.{◌≡◌, ◌++◌, slice_get, OnOk};
ghost use Rattle.node_kinds.specs.Interlockings.{changes, is_at_rest, last_told, news};
ghost use Rattle.node_kinds.specs.inside.InterlockingSteps.{texts};

use crate::comparison::is_same;
use crate::saying::say;
use node_drive::node_lines::{Known, OperatorLine};
use simulator_spec::Layout;
use std::alloc::{AllocError, Global};
use std::collections::VecDeque;

/// Whether nothing need be told of a thing to who was told nothing of it: it isn't closed.
fn is_at_rest(known: Known) -> bool
    ensures { result ≡ is_at_rest known }
{
    match known {
        Known::Closing {
            thing: _,
            is_closed,
        } => !is_closed,
        _ => false,
    }
}

/// A thing, of which this was told last, is to be told unless nothing is known of it, or still the same, or it isn't closed and never
/// was.
fn say_news(
    alloc: Global,
    layout: &Layout,
    said: &mut VecDeque<String>,
    last: Option<Known>,
    known: Option<Known>,
) -> Result<(), AllocError>
    ensures { OnOk result (texts said.new ≡ texts said.old ++ news layout.now last known) }
{
    match (last, known) {
        (_, None) => Ok(()),
        (None, Some(known)) if is_at_rest(known) => Ok(()),
        (Some(last), Some(known)) if is_same(last, known) => Ok(()),
        (_, Some(known)) => say(alloc, layout, said, OperatorLine::Known(known)),
    }
}

/// What was told of the thing at a place.
fn last_told(told: &[Option<Known>], place: usize) -> Option<Known>
    ensures { result ≡ last_told (slice_get told.now place) }
{
    *told.get(place)?
}

/// All that isn't as it was told last is to be told.
pub(crate) fn say_changes(
    alloc: Global,
    layout: &Layout,
    said: &mut VecDeque<String>,
    told: &[Option<Known>],
    all: &[Option<Known>],
) -> Result<(), AllocError>
    ensures { OnOk result (texts said.new ≡ texts said.old ++ changes layout.now told.now all.now) }
{
    for (place, known) in all.iter().enumerate() {
        say_news(alloc, layout, said, last_told(told, place), *known)?;
    }
    Ok(())
}
