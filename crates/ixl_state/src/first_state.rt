//! How the state of an interlocking is made.

ghost use Rattle.std.specs.Prelude.{◌≡◌, ◌<◌, ◌≤◌, ◌∷◌, [], false, length, map, IfOk, OnErr, OnOk, slice_index_or};
ghost use Rattle.std.specs.List.{All};
ghost use Rattle.ixl_spec.specs.layout.declared.ids.SectionId.{SectionId as Section};
ghost use Rattle.ixl_spec.specs.sci_telegram.declared.message.Protocol.TheVariants as protocols;
ghost use Rattle.ixl_spec.specs.Table.{Row as RowAt};
ghost use Rattle.ixl_spec.specs.closings.Closed.{nothing};
ghost use Rattle.ixl_known.specs.Field.{kept};
ghost use Rattle.ixl_spec.specs.First.{Beginning, client_of, new_detector_of, new_ixl, new_known_signal_of, new_route_of, new_known_point_of};
ghost use Rattle.ixl_state.specs.inside.Kept.{IsState};

use crate::route::Route;
use crate::state::State;
use ixl_known::{Field, KnownDetector, KnownPoint, KnownSignal};
use ixl_spec::ixl_client::{Client, Peer};
use ixl_spec::{Checked, Closings, Layout, Millis, Name, Protocol, SectionId, Start, key_of};
use ixl_table::{Row, Table};
use route_lock::Locks;
use std::alloc::{AllocError, Global};

/// A controller: the protocol that it speaks, its name and identity, and the names of the objects that it tells of.
struct Controller {
    protocol: Protocol,
    name: Name,
    id: u32,
    objects: Vec<Name>,
}

/// The client of a controller.
fn client_of(
    alloc: Global,
    table: &Checked,
    start: Start,
    controller: Controller,
) -> Result<Client, AllocError>
    ensures { IfOk result (λ client. client ≡ client_of controller.protocol table.now (record { clock = start.now; first = start.first_sequence_number }) controller.name controller.id controller.objects.items) }
{
    let Controller {
        protocol,
        name,
        id,
        objects,
    } = controller;
    let station = table.layout().station();
    let peer = Peer {
        protocol,
        version: table.version(),
        own_name: station.name,
        name,
        objects,
    };
    let key = key_of(table.layout());
    Client::new(alloc, station.id, id, key, peer, start)
}

/// A list of one name.
fn alone(alloc: Global, name: Name) -> Result<Vec<Name>, AllocError>
    ensures { IfOk result (λ v. v.items ≡ name ∷ []) }
{
    let mut names = Vec::new(alloc);
    names.push(name)?;
    Ok(names)
}

/// The signals, of which nothing is known.
fn known_signals_of(
    alloc: Global,
    table: &Checked,
    start: Start,
) -> Result<Vec<KnownSignal>, AllocError>
    ensures { IfOk result (λ v. v.items ≡ map (new_known_signal_of table.now (record { clock = start.now; first = start.first_sequence_number })) table.now.signals) }
{
    let mut known_signals = Vec::new(alloc);
    for signal in table.layout().signals() {
        let objects = alone(alloc, signal.name)?;
        let client = client_of(
            alloc,
            table,
            start,
            Controller {
                protocol: Protocol::LightSignal,
                name: signal.name,
                id: signal.id,
                objects,
            },
        )?;
        known_signals.push(KnownSignal::new(client))?;
    }
    Ok(known_signals)
}

/// The points, of which nothing is known.
fn known_points_of(
    alloc: Global,
    table: &Checked,
    start: Start,
) -> Result<Vec<KnownPoint>, AllocError>
    ensures { IfOk result (λ v. v.items ≡ map (new_known_point_of table.now (record { clock = start.now; first = start.first_sequence_number })) table.now.points) }
{
    let mut known_points = Vec::new(alloc);
    for point in table.layout().points() {
        let objects = alone(alloc, point.name)?;
        let client = client_of(
            alloc,
            table,
            start,
            Controller {
                protocol: Protocol::Point,
                name: point.name,
                id: point.id,
                objects,
            },
        )?;
        known_points.push(KnownPoint::new(client))?;
    }
    Ok(known_points)
}

/// The names of sections.
fn names_of(alloc: Global, layout: &Layout, sections: &[SectionId]) -> Result<Vec<Name>, AllocError>
    requires { All (λ (section : Section). section.0 < length layout.now.sections) sections.now }
    ensures { IfOk result (λ v. v.items ≡ map (λ section. slice_index_or layout.now.sections section.0 []) sections.now) }
{
    let mut names = Vec::new(alloc);
    for section in sections {
        names.push(layout.sections()[section.0])?;
    }
    Ok(names)
}

/// The detectors, of whose sections nothing is known.
fn detectors_of(
    alloc: Global,
    table: &Checked,
    start: Start,
) -> Result<Vec<KnownDetector>, AllocError>
    ensures { IfOk result (λ v. v.items ≡ map (new_detector_of table.now (record { clock = start.now; first = start.first_sequence_number })) table.now.detectors) }
{
    let layout = table.layout();
    let mut detectors = Vec::new(alloc);
    for detector in layout.detectors() {
        let objects = names_of(alloc, layout, detector.sections())?;
        let client = client_of(
            alloc,
            table,
            start,
            Controller {
                protocol: Protocol::TrainDetection,
                name: *detector.name(),
                id: detector.id(),
                objects,
            },
        )?;
        detectors.push(KnownDetector::new(client))?;
    }
    Ok(detectors)
}

/// The routes, none of which is set.
fn routes_of(alloc: Global, rows: &[Row]) -> Result<Vec<Route>, AllocError>
    requires { All (λ (row : RowAt). (1 ≤ length row.sections) × (length row.sections ≤ 64)) rows.now }
    ensures { IfOk result (λ v. v.items ≡ map new_route_of rows.now) }
{
    let mut routes = Vec::new(alloc);
    for row in rows {
        routes.push(Route::new(row.sections().len()))?;
    }
    Ok(routes)
}

/// What a state keeps of its table's controllers, locks and routes.
#[derive(Debug, Drop)]
struct Begun {
    field: Field,
    locks: Locks,
    routes: Vec<Route>,
}

/// What is kept where no route is set and every link is in no connection.
fn begun_of(alloc: Global, table: &Table, start: Start) -> Result<Begun, AllocError>
    ensures ixl { IfOk result (λ b. kept b.field (record { routes = b.routes.items; created = start.now; resumed = false; closed = nothing }) ≡ new_ixl table.now.site table.now.table (record { clock = start.now; first = start.first_sequence_number })) }
    ensures whole { IfOk result (λ b. IsState table.now b.field b.routes.items b.locks) }
{
    let checked = table.checked();
    let locks = Locks::new(alloc, checked)?;
    let known_signals = known_signals_of(alloc, checked, start)?;
    let known_points = known_points_of(alloc, checked, start)?;
    let detectors = detectors_of(alloc, checked, start)?;
    let routes = routes_of(alloc, table.rows())?;
    let reporters = Vec::from_slice(alloc, table.reporters())?;
    let field = Field::new(known_signals, known_points, detectors, reporters);
    Ok(Begun {
        field,
        locks,
        routes,
    })
}

impl State {
    /// The state in which no route is set, nothing is closed, and every link is in no connection.
    pub fn new(
        alloc: Global,
        checked: Checked,
        first_sequence_number: u32,
        now: Millis,
    ) -> Result<State, AllocError>
        ensures site { IfOk result (λ s. s.sited.site ≡ checked) }
        ensures ixl { IfOk result (λ s. s.ixl ≡ new_ixl s.sited.site s.sited.table (record { clock = now; first = first_sequence_number })) }
    {
        let start = Start {
            first_sequence_number,
            now,
        };
        let table = Table::new(alloc, checked)?;
        let begun = begun_of(alloc, &table, start)?;
        Ok(State {
            table,
            field: begun.field,
            locks: begun.locks,
            routes: begun.routes,
            created: now,
            resumed: false,
            closed: Closings::none(),
        })
    }

    /// All but the table is made anew. Where there is no memory for that, nothing changes.
    pub fn restart(
        &mut self,
        alloc: Global,
        first_sequence_number: u32,
        now: Millis,
    ) -> Result<(), AllocError>
        ensures sited { self.new.sited ≡ self.old.sited }
        ensures ixl { OnOk result (self.new.ixl ≡ new_ixl self.old.sited.site self.old.sited.table (record { clock = now; first = first_sequence_number })) }
        ensures unchanged { OnErr result (self.new ≡ self.old) }
    {
        let start = Start {
            first_sequence_number,
            now,
        };
        let begun = begun_of(alloc, &self.table, start)?;
        self.field = begun.field;
        self.locks = begun.locks;
        self.routes = begun.routes;
        self.created = now;
        self.resumed = false;
        self.closed = Closings::none();
        Ok(())
    }
}
