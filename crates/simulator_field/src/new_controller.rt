//! How one controller is made.

ghost use Rattle.std.specs.Prelude.{◌≡◌, ◌≤◌, IfOk, length, map};
ghost use Rattle.std.specs.List.{All};
ghost use Rattle.simulator_spec.specs.layout.Station.{HasSection};
ghost use Rattle.simulator_spec.specs.First as first;
ghost use Rattle.simulator_spec.specs.tds_ctl.Sections as tds;

use simulator_spec::ixl_spec::key_of;
use simulator_spec::object_host::{Controller, Hosted, Parties};
use simulator_spec::point_ctl::Point;
use simulator_spec::signal_ctl::Signal;
use simulator_spec::tds_ctl::Detection;
use simulator_spec::{
    Checked, Detector, Layout, Millis, Name, Occupancy, Point as PointEntry, Position, SectionId,
    Signal as SignalEntry, Start,
};
use std::alloc::{AllocError, Global};

/// The controller of this name and identity, with its clock in milliseconds and the number of its first PDU.
#[tactic(auto, unfolding(crate::proofs::Below::new_host, crate::proofs::Below::keeping, crate::proofs::Below::created))]
fn hosted<C: Controller>(
    alloc: Global,
    table: &Checked,
    own_name: Name,
    own: u32,
    object: C,
    start: Start,
) -> Result<Hosted<C>, AllocError>
    ensures host { IfOk result (λ hosted. hosted.host ≡ first.host_of C.behaviour table.now (record { clock = start.now; first = start.first_sequence_number }) own_name own object) }
    ensures clock { IfOk result (λ hosted. hosted.host.link.clock ≡ start.now) }
{
    let layout = table.layout();
    let station = layout.station();
    let parties = Parties {
        own,
        partner: station.id,
        own_name,
        peer_name: station.name,
        key: key_of(layout),
    };
    Hosted::new(alloc, parties, start, object, table.version())
}

/// A signal that was told nothing yet, with its clock in milliseconds and the number of its first PDU.
pub fn new_signal(
    alloc: Global,
    table: &Checked,
    entry: &SignalEntry,
    clock: Millis,
    first_sequence_number: u32,
) -> Result<Hosted<Signal>, AllocError>
    ensures host { IfOk result (λ hosted. hosted.host ≡ first.new_signal table.now (record { clock = clock; first = first_sequence_number }) entry.now) }
    ensures clock { IfOk result (λ hosted. hosted.host.link.clock ≡ clock) }
{
    let start = Start {
        first_sequence_number,
        now: clock,
    };
    hosted(alloc, table, entry.name, entry.id, Signal::new(), start)
}

/// A point that is sensed where it stands.
pub fn new_point(
    alloc: Global,
    table: &Checked,
    entry: &PointEntry,
    position: Position,
    clock: Millis,
    first_sequence_number: u32,
) -> Result<Hosted<Point>, AllocError>
    ensures host { IfOk result (λ hosted. hosted.host ≡ first.new_point table.now (record { clock = clock; first = first_sequence_number }) position entry.now) }
    ensures clock { IfOk result (λ hosted. hosted.host.link.clock ≡ clock) }
{
    let start = Start {
        first_sequence_number,
        now: clock,
    };
    hosted(
        alloc,
        table,
        entry.name,
        entry.id,
        Point::new(position),
        start,
    )
}

/// The sections of a detector by their names, and whether each is occupied.
fn named_sections(
    alloc: Global,
    layout: &Layout,
    occupied: &[Occupancy],
    sections: &[SectionId],
) -> Result<Vec<(Name, Occupancy)>, AllocError>
    requires { All (HasSection layout.now) sections.now }
    ensures { IfOk result (λ v. v.items ≡ map (first.named_section layout.now occupied.now) sections.now) }
{
    let mut named = Vec::new(alloc);
    for section in sections {
        let name = layout.sections()[section.0];
        let occupancy = occupied.get(section.0).copied().unwrap_or(Occupancy::Clear);
        named.push((name, occupancy))?;
    }
    Ok(named)
}

/// The sections of a detector as they are sensed.
fn detection(
    alloc: Global,
    table: &Checked,
    occupied: &[Occupancy],
    entry: &Detector,
) -> Result<Detection, AllocError>
    requires sections { All (HasSection table.now) entry.now.sections }
    requires few { length entry.now.sections ≤ 16 }
    ensures { IfOk result (λ detection. detection ≡ map (λ section. tds.made (first.named_section table.now occupied.now section)) entry.now.sections) }
{
    let named = named_sections(alloc, table.layout(), occupied, entry.sections())?;
    Ok(Detection::new(&named))
}

/// A detector that senses its sections as they are.
pub fn new_detector(
    alloc: Global,
    table: &Checked,
    entry: &Detector,
    occupied: &[Occupancy],
    clock: Millis,
    first_sequence_number: u32,
) -> Result<Hosted<Detection>, AllocError>
    requires sections { All (HasSection table.now) entry.now.sections }
    requires few { length entry.now.sections ≤ 16 }
    ensures host { IfOk result (λ hosted. hosted.host ≡ first.new_detector table.now (record { clock = clock; first = first_sequence_number }) occupied.now entry.now) }
    ensures clock { IfOk result (λ hosted. hosted.host.link.clock ≡ clock) }
{
    let detection = detection(alloc, table, occupied, entry)?;
    let start = Start {
        first_sequence_number,
        now: clock,
    };
    hosted(alloc, table, *entry.name(), entry.id(), detection, start)
}
