//! What the rules read of a route: its row, what the field tells of its points, its sections and its signal, and what is
//! due for it.

ghost use Rattle.std.specs.Prelude.{◌≡◌, ◌<◌, Some, length, slice_get};
ghost use Rattle.ixl_state.specs.ixl_spec.Rules.{is_over_clear, is_unmoved};
ghost use Rattle.ixl_state.specs.ixl_spec.View.{all_clear, all_known, is_approach_clear, is_at_known_stop, is_clear, is_known, is_point_available, is_signal_ready};
ghost use Rattle.ixl_state.specs.State.{AtRoute};

use ixl_state::ixl_table::Row;
use ixl_state::{Aspect, Millis, Side, State};

/// The row of a route.
pub(crate) fn row_of(state: &State, number: usize) -> &Row
    requires { number < length state.now.sited.table.rows }
    ensures { slice_get state.now.sited.table.rows number ≡ Some result.now }
{
    &state.table().rows()[number]
}

/// The signal at which a route begins.
pub(crate) fn entry(state: &State, number: usize) -> usize
    requires { number < length state.now.sited.table.rows }
    ensures { AtRoute state.now number (λ row route. result ≡ row.entry) }
{
    row_of(state, number).entry()
}

/// The aspect that its signal shows for a route.
pub(crate) fn aspect(state: &State, number: usize) -> Aspect
    requires { number < length state.now.sited.table.rows }
    ensures { AtRoute state.now number (λ row route. result ≡ row.aspect) }
{
    row_of(state, number).aspect()
}

/// Whether a section is clear.
pub(crate) fn is_section_clear(state: &State, section: usize) -> bool
    ensures { result ≡ is_clear state.now.sited.table state.now.ixl section }
{
    state.field().is_clear(section)
}

/// Whether a point lies in a section that is clear.
pub(crate) fn is_over_clear(state: &State, point: usize) -> bool
    ensures { result ≡ is_over_clear state.now.sited.table state.now.ixl point }
{
    let sections = state.table().point_sections();
    point < sections.len() && is_section_clear(state, sections[point])
}

/// Whether a point's link is ready, and every move given in the present connection is answered.
pub(crate) fn is_point_available(state: &State, point: usize) -> bool
    ensures { result ≡ is_point_available state.now.ixl point }
{
    state.field().is_point_available(point)
}

/// Whether a point is known at a side.
pub(crate) fn is_point_known(state: &State, point: usize, side: Side) -> bool
    ensures { result ≡ is_known state.now.ixl point side }
{
    state.field().is_known(point, side)
}

/// Whether no move was given to a point in its present connection since a route was set.
pub(crate) fn is_point_unmoved(state: &State, point: usize, number: usize) -> bool
    ensures { result ≡ is_unmoved state.now.ixl point number }
{
    state.field().is_unmoved(point, number)
}

/// Whether each point that a route requires is known at its side.
pub(crate) fn are_points_known(state: &State, number: usize) -> bool
    requires { number < length state.now.sited.table.rows }
    ensures { AtRoute state.now number (λ row route. result ≡ all_known state.now.ixl row.needs) }
{
    let row = row_of(state, number);
    let field = state.field();
    row.right_row().is_subset(field.known_right()) && row.left_row().is_subset(field.known_left())
}

/// Whether each section of a route is clear.
pub(crate) fn are_sections_clear(state: &State, number: usize) -> bool
    requires { number < length state.now.sited.table.rows }
    ensures { AtRoute state.now number (λ row route. result ≡ all_clear state.now.sited.table state.now.ixl row.sections) }
{
    let row = row_of(state, number);
    row.section_row().is_subset(state.field().clear())
}

/// Whether the approach to a route's signal is known to be clear. Of a route that names no approach section it isn't.
pub fn is_approach_clear(state: &State, number: usize) -> bool
    requires { number < length state.now.sited.table.rows }
    ensures { AtRoute state.now number (λ row route. result ≡ is_approach_clear state.now.sited.table state.now.ixl row) }
{
    let row = row_of(state, number);
    !row.approach().is_empty() && row.approach_row().is_subset(state.field().clear())
}

/// Whether the link of a route's signal is ready.
pub(crate) fn is_signal_ready(state: &State, number: usize) -> bool
    requires { number < length state.now.sited.table.rows }
    ensures { AtRoute state.now number (λ row route. result ≡ is_signal_ready state.now.ixl row.entry) }
{
    state.field().is_signal_ready(entry(state, number))
}

/// Whether a route's signal is at known stop.
pub(crate) fn is_at_known_stop(state: &State, now: Millis, number: usize) -> bool
    requires { number < length state.now.sited.table.rows }
    ensures { AtRoute state.now number (λ row route. result ≡ is_at_known_stop now state.now.ixl row.entry) }
{
    state.field().is_at_known_stop(now, entry(state, number))
}
