//! The routes that a table lacks, as they are asked for.

ghost use Rattle.std.specs.Prelude.{◌≡◌, IfOk, None, option_copied};
ghost use Rattle.std.specs.List.{Contains};
ghost use Rattle.route_derivation.specs.control_table.layout.Station.{HasSignal};
ghost use Rattle.route_derivation.specs.control_table.layout.declared.ids.SignalId.{SignalId};
ghost use Rattle.table_review.specs.Asked.{AreAsked, IsLackingText};

use crate::block::{Form, routes_in};
use crate::fault::ReviewFault;
use crate::slow_key::slow_legs;
use crate::topology::layout_or_topology;
use route_derivation::control_table::layout::{Layout, Signal, SignalId};
use route_derivation::control_table::{Checked, check};
use route_derivation::{ApproachRule, DerivedRoute, all_signals, lacking_routes};
use std::alloc::Global;

/// What is asked: the text of a layout, the names of the signals at which the routes begin, with commas between, where
/// it isn't all, and the rule of approach.
#[derive(Clone, Copy)]
pub struct Asked<'a> {
    pub text: &'a str,
    pub from: Option<&'a str>,
    pub rule: ApproachRule,
}

/// A sound table, and the routes that it lacks.
#[derive(Drop)]
pub(crate) struct Lacking {
    pub(crate) table: Checked,
    pub(crate) routes: Vec<DerivedRoute>,
}

/// Whether a signal has a name.
fn is_called(signal: &Signal, name: &str) -> bool {
    signal.name.as_str() == name
}

/// The signal of a name, if there is one.
fn signal_called(layout: &Layout, name: &str) -> Option<SignalId> {
    for (place, signal) in layout.signals().iter().enumerate() {
        if is_called(signal, name) {
            return Some(SignalId(place));
        }
    }
    None
}

/// The signals of some names, with commas between.
fn signals_called(
    alloc: Global,
    layout: &Layout,
    names: &str,
) -> Result<Vec<SignalId>, ReviewFault> {
    let mut signals = Vec::new(alloc);
    for (before, name) in names.split(',').enumerate() {
        match signal_called(layout, name) {
            Some(signal) => signals.push(signal)?,
            None => return Err(ReviewFault::Signal(before.saturating_add(1))),
        }
    }
    Ok(signals)
}

/// The signals that are asked for: those of some names, or all.
fn signals_asked(
    alloc: Global,
    layout: &Layout,
    from: Option<&str>,
) -> Result<Vec<SignalId>, ReviewFault>
    ensures { option_copied from.entry ≡ None → IfOk result (λ v. (s : SignalId) → HasSignal layout.now s → Contains v.items s) }
{
    match from {
        Some(names) => signals_called(alloc, layout, names),
        None => Ok(all_signals(alloc, layout)?),
    }
}

/// The table of a text, and the routes that it lacks of those that are asked for.
pub(crate) fn lacking_of(alloc: Global, asked: &Asked<'_>) -> Result<Lacking, ReviewFault>
    ensures { IfOk result (λ found. AreAsked asked.now found.table found.routes.items) }
{
    let layout = layout_or_topology(alloc, asked.text)?;
    let slow = slow_legs(alloc, asked.text)?;
    let table = check(alloc, layout)?;
    let entries = signals_asked(alloc, table.layout(), asked.from)?;
    let routes = lacking_routes(alloc, table.layout(), &entries, &slow, asked.rule)?;
    Ok(Lacking { table, routes })
}

/// The routes that a table lacks of those that are asked for, as blocks `[[route]]`, each after an empty line. They may
/// be put at the end of a text that has no routes yet or ends in such blocks.
pub fn lacking_text(alloc: Global, asked: &Asked<'_>) -> Result<Vec<u8>, ReviewFault>
    ensures { IfOk result (λ text. IsLackingText asked.now text.items) }
{
    let found = lacking_of(alloc, asked)?;
    Ok(routes_in(alloc, found.table.layout(), &found.routes, Form::Block)?)
}
