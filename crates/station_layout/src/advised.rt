//! Which advice a text needs.

ghost use Rattle.std.specs.Prelude.{◌≡◌, ◌⊎◌};
ghost use Rattle.layout_text.specs.declared.fault.LayoutFault.TheVariants.{OutOfMemory};
ghost use Rattle.toml.specs.View.{table_view};
ghost use Rattle.station_layout.specs.AdviceTold.{IsAdvice, IsBroken, IsByDocument, IsByWritten, IsLayoutAdvice, IsTableAdvice, document_advice, written_advice};
ghost use Rattle.station_layout.specs.RouteDetails.{table_advice};
ghost use Rattle.station_layout.specs.declared.advice.Advice.TheVariants as advised;

use crate::advice::Advice;
use crate::entry_advice::{missing_told, wrong_told};
use crate::route_detail::table_detail;
use crate::shared::{double_told, port_told};
use crate::text_place::place_behind;
use crate::unknown::unknown_told;
use control_table::layout::LayoutFault;
use control_table::{Layout, TableFault, check};
use layout_text::{WrittenLayout, document, written};
use std::alloc::Global;
use toml::Table;

/// The advice for the first fault of a text.
pub(crate) fn advice_for(alloc: Global, text: &str) -> Advice
    ensures { IsAdvice text.now result }
{
    match Layout::read(alloc, text) {
        Ok(layout) => {
            let advice = advice_on(alloc, &layout);
            drop(layout);
            advice
        }
        Err(fault) => advice_at(alloc, text, fault),
    }
}

/// The advice for the table of a layout.
fn advice_on(alloc: Global, layout: &Layout) -> Advice
    ensures { IsTableAdvice layout.now result }
{
    let Ok(copy) = layout.copy(alloc) else {
        return Advice::Table(TableFault::OutOfMemory);
    };
    match check(alloc, copy).err() {
        Some(fault) => table_advice(layout, &fault),
        None => Advice::Nothing,
    }
}

/// The advice for a fault of the table.
fn table_advice(layout: &Layout, fault: &TableFault) -> Advice
    ensures { result ≡ table_advice layout.now fault.now }
{
    match table_detail(layout, fault) {
        Some(advice) => Advice::Route(advice),
        None => Advice::Table(*fault),
    }
}

/// The advice for a fault of the layout.
fn advice_at(alloc: Global, text: &str, fault: LayoutFault) -> Advice
    ensures { IsLayoutAdvice text.now fault result }
{
    match fault {
        LayoutFault::Toml => broken(alloc, text),
        LayoutFault::MissingKey(_) | LayoutFault::WrongKind(_) => by_document(alloc, text, fault),
        LayoutFault::UnknownName(_) | LayoutFault::DoubleName(_) | LayoutFault::DoubleJoint(_) => {
            by_written(alloc, text, fault)
        }
        other => Advice::Layout(other),
    }
}

/// The advice for a text that is no TOML: from where on it is broken, if memory isn't lacking now.
fn broken(alloc: Global, text: &str) -> Advice
    ensures { IsBroken text.now result }
{
    let Err(error) = toml::table_from_str(alloc, text) else {
        return Advice::Layout(LayoutFault::Toml);
    };
    match error.span() {
        Some(span) => Advice::Broken(place_behind(&text.as_bytes()[..span.start])),
        None => Advice::Layout(LayoutFault::Toml),
    }
}

/// The advice for a fault, by the document of its text.
#[tactic(auto, unfolding(crate::specs::AdviceTold::document_advice, crate::specs::AdviceTold::document_told))]
fn document_advice(document: &Table, fault: LayoutFault) -> Advice
    ensures { result ≡ document_advice (table_view document.now) fault }
{
    let told = match fault {
        LayoutFault::MissingKey(place) => missing_told(document, place),
        LayoutFault::WrongKind(place) => wrong_told(document, place),
        _ => None,
    };
    match told {
        Some(advice) => Advice::Entry(advice),
        None => Advice::Layout(fault),
    }
}

/// The advice where a key is missing, or a value is of another kind or form than is wanted.
fn by_document(alloc: Global, text: &str, fault: LayoutFault) -> Advice
    ensures { IsByDocument text.now (λ d. document_advice d fault) result ⊎ (result ≡ advised.Layout OutOfMemory) }
{
    match document(alloc, text) {
        Ok(document) => document_advice(&document, fault),
        Err(_) => Advice::Layout(LayoutFault::OutOfMemory),
    }
}

/// The advice for a fault, by what its text writes.
#[tactic(auto, unfolding(crate::specs::AdviceTold::written_advice, crate::specs::AdviceTold::written_told))]
fn written_advice(written: &WrittenLayout, fault: LayoutFault) -> Advice
    ensures { result ≡ written_advice written.now fault }
{
    let told = match fault {
        LayoutFault::UnknownName(place) => unknown_told(written, place),
        LayoutFault::DoubleName(place) => double_told(written, place),
        LayoutFault::DoubleJoint(place) => port_told(written, place),
        _ => None,
    };
    match told {
        Some(advice) => Advice::Entry(advice),
        None => Advice::Layout(fault),
    }
}

/// The advice where an entry names what isn't there, or has what an earlier one has.
fn by_written(alloc: Global, text: &str, fault: LayoutFault) -> Advice
    ensures { IsByWritten text.now (λ w. written_advice w fault) result ⊎ (result ≡ advised.Layout OutOfMemory) }
{
    let Ok(document) = document(alloc, text) else {
        return Advice::Layout(LayoutFault::OutOfMemory);
    };
    let written = written(alloc, &document);
    drop(document);
    match written {
        Ok(written) => written_advice(&written, fault),
        Err(_) => Advice::Layout(LayoutFault::OutOfMemory),
    }
}
