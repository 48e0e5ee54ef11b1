//! What an interlocking's node counts of what comes to it.

ghost use Rattle.std.specs.Prelude.{◌≡◌, ◌++◌, map, slice_get, OnOk};
ghost use Rattle.ixl.specs.Interlocking.{told};
ghost use Rattle.simulator_spec.specs.ixl_spec.Step.{Datagram};
ghost use Rattle.node_kinds.specs.Counted.{answered, is_loss, is_up, last_of, line_of, number_lines, taken, with_links, with_thing};
ghost use Rattle.node_kinds.specs.inside.InterlockingSteps.{texts};

use ixl::Reply;
use node_drive::node_lines::{Known, LinkState};
use run_numbers::{Fate, NODE_ROWS, NumberText, Numbers, Outcome, Row};
use std::alloc::{AllocError, Global};
use std::collections::VecDeque;

/// The answer of a step is counted.
pub(crate) fn count_answer(numbers: &mut Numbers, reply: Reply)
    ensures { numbers.new ≡ answered (told reply) numbers.old }
{
    match reply {
        Reply::Ticked => (),
        Reply::Received(verdict) => numbers.count(Row::Datagrams(Fate::of(verdict))),
        Reply::Accepted => numbers.count(Row::Commands(Outcome::Accepted)),
        Reply::Refused(refusal) => {
            numbers.count(Row::Commands(Outcome::refused(refusal.number())));
        }
    }
}

/// What a datagram says is counted, where its link took it.
pub(crate) fn count_taken(numbers: &mut Numbers, bytes: &[u8], reply: Reply)
    ensures { numbers.new ≡ taken (Datagram bytes.now) (told reply) numbers.old }
{
    if let Reply::Received(verdict) = reply {
        if Fate::of(verdict).is_taken() {
            numbers.note_taken(bytes);
        }
    }
}

/// The links that are ready are counted anew, and those that were ready and are lost.
pub(crate) fn count_links(numbers: &mut Numbers, told: &[Option<Known>], all: &[Option<Known>])
    ensures { numbers.new ≡ with_links told.now all.now numbers.old }
{
    numbers.put(Row::LinksUp, 0);
    for (place, known) in all.iter().enumerate() {
        count_thing(numbers, last_of(told, place), *known);
    }
}

/// What was told of the thing at a place.
fn last_of(told: &[Option<Known>], place: usize) -> Option<Known>
    ensures { result ≡ last_of (slice_get told.now place) }
{
    *told.get(place)?
}

/// A thing, of which this was told last, is counted if it is a link.
fn count_thing(numbers: &mut Numbers, last: Option<Known>, known: Option<Known>)
    ensures { numbers.new ≡ with_thing last known numbers.old }
{
    if is_loss(last, known) {
        numbers.count(Row::LinksLost);
    }
    if is_up(known) {
        numbers.count(Row::LinksUp);
    }
}

/// Whether a link that was told as ready is lost.
fn is_loss(last: Option<Known>, known: Option<Known>) -> bool
    ensures { result ≡ is_loss last known }
{
    matches!(
        (last, known),
        (
            Some(Known::Link {
                node: _,
                state: LinkState::Ready,
            }),
            Some(Known::Link {
                node: _,
                state: LinkState::Lost,
            }),
        )
    )
}

/// Whether a link is ready.
fn is_up(known: Option<Known>) -> bool
    ensures { result ≡ is_up known }
{
    matches!(
        known,
        Some(Known::Link {
            node: _,
            state: LinkState::Ready,
        })
    )
}

/// A line for each number is to be told.
pub(crate) fn say_numbers(
    alloc: Global,
    said: &mut VecDeque<String>,
    numbers: &Numbers,
) -> Result<(), AllocError>
    ensures { OnOk result (texts said.new ≡ texts said.old ++ number_lines numbers.now) }
{
    say_rows(alloc, said, numbers, &NODE_ROWS)
}

/// A line for each of these is to be told.
fn say_rows(
    alloc: Global,
    said: &mut VecDeque<String>,
    numbers: &Numbers,
    rows: &[Row],
) -> Result<(), AllocError>
    ensures { OnOk result (texts said.new ≡ texts said.old ++ map (line_of numbers.now) rows.now) }
{
    for row in rows {
        let text = NumberText {
            row: *row,
            value: numbers.value(*row),
        };
        said.push_back(format!(in alloc; "{text}")?)?;
    }
    Ok(())
}
