//! What is drawn of a lane: from each change to the next.

ghost use Rattle.std.specs.Prelude.{◌≡◌, ◌++◌, ◌∷◌, [], IfOk, List, OnOk, Some};
ghost use Rattle.lane_chart.specs.Spans.{is_drawn, kind_number, spans_behind, spans_of};
ghost use Rattle.lane_chart.specs.declared.change.Change.{Change as ChangeTold};
ghost use Rattle.lane_chart.specs.declared.scale.Window.{Window as WindowSeen};

use crate::change::Change;
use crate::lane::{Kind, Lane, Seen};
use crate::scale::{WIDTH, Window};
use std::alloc::{AllocError, Global};

/// What a lane shows from one unit of the chart to another.
#[derive(Clone, Copy)]
pub struct Span {
    /// The unit in which it begins.
    pub left: u64,
    /// The unit in which the next one begins, or the end of the chart.
    pub right: u64,
    /// What is shown.
    pub seen: Seen,
    /// Whether it joins changes before it that are narrower than a unit.
    pub joins: bool,
}

/// The number of a kind, by which kinds are told apart.
fn kind_number(kind: Kind) -> u8
    ensures { result ≡ kind_number kind }
{
    match kind {
        Kind::Aspect => 0,
        Kind::Authority => 1,
        Kind::Position => 2,
        Kind::Drive => 3,
        Kind::Section => 4,
        Kind::Route => 5,
        Kind::SignalLink => 6,
        Kind::PointLink => 7,
        Kind::DetectorLink => 8,
    }
}

/// Whether a change is one of a lane, and drawn.
fn is_drawn(window: Window, lane: Lane, change: Change) -> bool
    ensures { result ≡ is_drawn window lane change }
{
    kind_number(change.lane.kind) == kind_number(lane.kind)
        && change.lane.place == lane.place
        && change.time <= window.to
}

/// A change closes the span before it, or is joined with it. The answer is the span that is open then.
#[tactic(auto, using(crate::proofs::SpansClose::begins, crate::proofs::SpansClose::joins, crate::proofs::SpansClose::ends))]
fn open_span(
    spans: &mut Vec<Span>,
    window: Window,
    before: Option<Span>,
    change: Change,
) -> Result<Span, AllocError>
    ensures { IfOk result (λ next. (later : List ChangeTold) → spans.new.items ++ spans_behind window (Some next) later ≡ spans.old.items ++ spans_behind window before (change ∷ later)) }
{
    let left = window.unit(change.time);
    let seen = change.seen;
    if let Some(last) = before {
        if last.left == left {
            return Ok(Span {
                seen,
                joins: true,
                ..last
            });
        }
        spans.push(Span {
            right: left,
            ..last
        })?;
    }
    Ok(Span {
        left,
        right: WIDTH,
        seen,
        joins: false,
    })
}

/// What is drawn of a lane, from left to right: from each of its changes to the next.
pub(crate) fn spans_of(
    alloc: Global,
    window: Window,
    lane: Lane,
    changes: &[Change],
) -> Result<Vec<Span>, AllocError>
    ensures { IfOk result (λ spans. spans.items ≡ spans_of window lane changes.now) }
{
    let mut spans = Vec::new(alloc);
    let mut before = None;
    for change in changes {
        if is_drawn(window, lane, *change) {
            let next = open_span(&mut spans, window, before, *change)?;
            before = Some(next);
        }
    }
    match before {
        Some(last) => spans.push(last)?,
        None => (),
    }
    Ok(spans)
}
