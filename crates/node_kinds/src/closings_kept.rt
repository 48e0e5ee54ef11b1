//! What a step of the interlocking asks to be kept.

ghost use Rattle.std.specs.Prelude.{◌≡◌, ◌↔◌, ◌<◌, ◌||◌, ℕ, Bool, IsTrue, IfOk, OnOk, false, not, string_bytes};
ghost use Rattle.std.specs.Option.{option_map};
ghost use Rattle.ixl.specs.Interlocking.{meant, told};
ghost use Rattle.simulator_spec.specs.bit_row.Places.{Has};
ghost use Rattle.node_kinds.specs.Kept.{is_always_kept, is_held, is_locked, is_same_closings, locked, named_by, not_kept_text, places_where, to_keep, wanted};
ghost use Rattle.node_kinds.specs.MadeInterlocking.{asked_to_keep};
ghost use Rattle.node_kinds.specs.inside.InterlockingSteps.{texts};
ghost use Rattle.node_drive.specs.Kinds.{said_if};

use crate::closing_lines::{newly, not_kept_line};
use crate::keeping::Keeping;
use ixl::{Command, Input, Interlocking, Reply};
use ixl_state::State;
use node_drive::node_lines::AuxiliaryCounts;
use node_drive::{BitRow, Closings, Named, Side, Thing, ToKeep};
use simulator_spec::Layout;
use std::alloc::{AllocError, Global};
use std::collections::VecDeque;

/// What a step asks to be kept for a process that begins later, and the line that is told in the place of the first one where it isn't
/// kept.
#[derive(Drop)]
pub(crate) struct Asked {
    pub(crate) all: ToKeep,
    pub(crate) unless: Option<String>,
}

// ---- what set routes lock

/// The sections that set routes haven't freed.
fn sections_locked(state: &State) -> BitRow
    ensures { (section : ℕ) → Has result section ↔ IsTrue (is_locked state.now.sited.table state.now.ixl section) }
{
    let mut sections = BitRow::empty();
    for number in 0..state.table().rows().len() {
        sections = sections.union(state.locked(number));
    }
    sections
}

/// Those of them below a count.
fn first_sections(locked: BitRow, count: usize) -> BitRow
    requires { count < 65 }
    ensures { (test : ℕ → Bool) → ((section : ℕ) → Has locked section ↔ IsTrue (test section)) → result ≡ places_where test count }
{
    let mut row = BitRow::empty();
    for place in 0..count {
        if locked.contains(place) {
            row = row.with(place);
        }
    }
    row
}

/// Whether a set route holds a point, at whichever side.
fn is_held(state: &State, point: usize) -> bool
    ensures { result ≡ is_held state.now.sited.table state.now.ixl point }
{
    state.is_held_at(point, Side::Left) || state.is_held_at(point, Side::Right)
}

/// The first points that set routes hold.
fn points_held(state: &State, count: usize) -> BitRow
    requires { count < 65 }
    ensures { result ≡ places_where (is_held state.now.sited.table state.now.ixl) count }
{
    let mut row = BitRow::empty();
    for point in 0..count {
        if is_held(state, point) {
            row = row.with(point);
        }
    }
    row
}

/// What set routes lock, as closings.
fn locked(state: &State) -> Closings
    ensures { result ≡ locked state.now.sited.table state.now.ixl }
{
    let table = state.table();
    // A station has few entries.
    table.is_of_its_site();
    table.names_what_is_there();
    let sections = first_sections(sections_locked(state), table.reporters().len());
    let points = points_held(state, table.point_sections().len());
    Closings::track(sections, points)
}

// ---- what is to be closed in a process that begins later

/// All that is to be closed in a process that begins later.
pub(crate) fn wanted(ixl: &Interlocking, keeping: Keeping) -> Closings
    ensures { result ≡ wanted keeping ixl.now.state.sited.table ixl.now.state.ixl }
{
    match keeping {
        Keeping::Nothing => Closings::none(),
        Keeping::Closings => ixl.closed(),
        Keeping::Locks => ixl.closed().either(&locked(ixl.state())),
    }
}

/// Whether the same things are closed by both.
#[tactic(auto, using(crate::proofs::Listed::none_counted))]
fn is_same_closings(
    alloc: Global,
    layout: &Layout,
    one: &Closings,
    other: &Closings,
) -> Result<bool, AllocError>
    ensures { IfOk result (λ same. same ≡ is_same_closings layout.now one.now other.now) }
{
    let more = newly(alloc, layout, one, other)?;
    let fewer = newly(alloc, layout, other, one)?;
    Ok(more.is_empty() && fewer.is_empty())
}

// ---- what a step asks to be kept

/// Whether a close, an open or a release was taken.
fn is_always_kept(input: Input<'_>, reply: Reply) -> bool
    ensures { result ≡ is_always_kept (meant input.entry) (told reply) }
{
    matches!(
        (input, reply),
        (Input::Command(Command::Close(_)), Reply::Accepted)
            | (Input::Command(Command::Open(_)), Reply::Accepted)
            | (Input::Command(Command::Release(_)), Reply::Accepted)
    )
}

/// What a command names that was taken and that closes, opens, locks or is counted.
fn named_by(input: Input<'_>, reply: Reply) -> Option<Named>
    ensures { result ≡ named_by (meant input.entry) (told reply) }
{
    match (input, reply) {
        (Input::Command(Command::Request(route)), Reply::Accepted) => {
            Some(Named::One(Thing::Route(route)))
        }
        (Input::Command(Command::Release(route)), Reply::Accepted) => {
            Some(Named::One(Thing::Route(route)))
        }
        (Input::Command(Command::Close(named)), Reply::Accepted) => Some(named),
        (Input::Command(Command::Open(named)), Reply::Accepted) => Some(named),
        _ => None,
    }
}

/// Whether all is to be kept after a step.
fn is_due(
    alloc: Global,
    layout: &Layout,
    is_always_kept: bool,
    before: &Closings,
    now: &Closings,
) -> Result<bool, AllocError>
    ensures { IfOk result (λ due. due ≡ (is_always_kept || not (is_same_closings layout.now before.now now.now))) }
{
    if is_always_kept {
        return Ok(true);
    }
    Ok(!is_same_closings(alloc, layout, before, now)?)
}

/// The line that is told where what a command names isn't kept.
fn unless_kept(
    alloc: Global,
    layout: &Layout,
    named: Option<Named>,
) -> Result<Option<String>, AllocError>
    ensures { IfOk result (λ line. option_map string_bytes line ≡ option_map (not_kept_text layout.now) named) }
{
    match named {
        Some(named) => Ok(Some(not_kept_line(alloc, layout, named)?)),
        None => Ok(None),
    }
}

/// What a step asks to be kept, if anything, where so much was to be closed before it, and so many auxiliary commands are counted now.
pub(crate) fn asked_by(
    alloc: Global,
    ixl: &Interlocking,
    keeping: Keeping,
    counts: AuxiliaryCounts,
    input: Input<'_>,
    reply: Reply,
    before: &Closings,
) -> Result<Option<Asked>, AllocError>
    ensures { IfOk result (λ asked. option_map asked_to_keep asked ≡ to_keep ixl.now.state.sited.site keeping (meant input.entry) (told reply) before.now (record { counts = counts; closings = wanted keeping ixl.now.state.sited.table ixl.now.state.ixl })) }
{
    if keeping == Keeping::Nothing {
        return Ok(None);
    }
    let layout = ixl.table().checked().layout();
    let closings = wanted(ixl, keeping);
    if !is_due(
        alloc,
        layout,
        is_always_kept(input, reply),
        before,
        &closings,
    )? {
        return Ok(None);
    }
    let unless = unless_kept(alloc, layout, named_by(input, reply))?;
    let all = ToKeep { counts, closings };
    Ok(Some(Asked { all, unless }))
}

/// What a step asked for isn't kept: if it gives another line, that is to be told in the place of the first one.
pub(crate) fn tell_instead(
    said: &mut VecDeque<String>,
    asked: Option<Asked>,
) -> Result<(), AllocError>
    ensures { OnOk result (texts said.new ≡ said_if false (option_map asked_to_keep asked) (texts said.old)) }
{
    let Some(asked) = asked else {
        return Ok(());
    };
    let Some(unless) = asked.unless else {
        return Ok(());
    };
    said.pop_front();
    said.push_front(unless)?;
    Ok(())
}
