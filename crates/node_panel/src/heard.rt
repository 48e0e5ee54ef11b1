//! What an interlocking's node has told.

ghost use Rattle.std.specs.Prelude.{◌≡◌, ◌∷◌, ◌++◌, [], IfOk, OnOk, length, replicate};
ghost use Rattle.node_panel.specs.ClosedHeard.{put_at};
ghost use Rattle.node_panel.specs.Heard.{answered_by, counts_with, forgotten, is_due, mode_after, put, put_link, put_network, told_by, unheard, wants_numbers};
ghost use Rattle.node_panel.specs.Noted.{noting_answer, noting_of};
ghost use Rattle.node_panel.specs.Turns.{begun, questioned_if, timed};

use crate::closed_heard::ClosedHeard;
use crate::noted::Noting;
use crate::told::Told;
use panel_desk::node_lines::{
    Authority, Auxiliary, AuxiliaryCounts, Known, LinkState, OperatorCommand,
};
use panel_desk::run_numbers::NumbersTold;
use panel_desk::{Aspect, Command, Fault, Layout, Mode, Occupancy, PanelNetwork, Side};
use std::alloc::{AllocError, Global};
use std::marker::Model;

/// How many milliseconds pass between two questions for the numbers at least.
const BETWEEN_QUESTIONS: u64 = 10_000;

/// What an interlocking's node has told since its operator's connection began, of each thing the last, and the commands that it didn't
/// answer yet.
pub struct Heard {
    pub(crate) millis: u64,
    pub(crate) joined: bool,
    pub(crate) mode: Mode,
    pub(crate) links: Vec<bool>,
    pub(crate) sections: Vec<Option<Occupancy>>,
    pub(crate) points: Vec<Option<Side>>,
    pub(crate) authorities: Vec<Option<Authority>>,
    pub(crate) indications: Vec<Option<Aspect>>,
    pub(crate) routes: Vec<bool>,
    /// Of each route, whether it was released in its present setting.
    pub(crate) released: Vec<bool>,
    pub(crate) closed: ClosedHeard,
    pub(crate) counts: AuxiliaryCounts,
    pub(crate) first_lost: Vec<Option<bool>>,
    pub(crate) second_lost: Vec<Option<bool>>,
    pub(crate) asked: Vec<OperatorCommand>,
    pub(crate) numbers: NumbersTold,
    /// When it was asked for its numbers last.
    pub(crate) questioned: Option<u64>,
}

// Written by hand, so that it is proved and compiled here alone.
impl Drop for Heard {
    fn drop(self) {
        let Self {
            millis: _,
            joined: _,
            mode: _,
            links: _,
            sections: _,
            points: _,
            authorities: _,
            indications: _,
            routes: _,
            released: _,
            closed: _,
            counts: _,
            first_lost: _,
            second_lost: _,
            asked: _,
            numbers: _,
            questioned: _,
        } = self;
    }
}

impl Model for Heard {
    ghost use Rattle.node_panel.specs.Heard.{HeardView};

    ghost Value = { HeardView };

    ghost view = { λ h. record { millis = h.millis; joined = h.joined; mode = h.mode; links = h.links.items; sections = h.sections.items; points = h.points.items; authorities = h.authorities.items; indications = h.indications.items; routes = h.routes.items; released = h.released.items; closed = h.closed; counts = h.counts; first_lost = h.first_lost.items; second_lost = h.second_lost.items; asked = h.asked.items; numbers = h.numbers; questioned = h.questioned } };
}

impl Heard {
    /// Of a station with this layout nothing was told yet.
    pub fn nothing(alloc: Global, layout: &Layout) -> Result<Heard, AllocError>
        ensures { IfOk result (λ heard. heard ≡ unheard layout.now) }
    {
        let signals = layout.signals().len();
        let points = layout.points().len();
        Ok(Heard {
            millis: 0,
            joined: false,
            mode: Mode::Ready,
            links: vec![in alloc; false; layout.links()]?,
            sections: vec![in alloc; None; layout.sections().len()]?,
            points: vec![in alloc; None; points]?,
            authorities: vec![in alloc; None; signals]?,
            indications: vec![in alloc; None; signals]?,
            routes: vec![in alloc; false; layout.routes().len()]?,
            released: vec![in alloc; false; layout.routes().len()]?,
            closed: ClosedHeard::nothing(alloc, layout)?,
            counts: AuxiliaryCounts::none(),
            first_lost: vec![in alloc; None; layout.links()]?,
            second_lost: vec![in alloc; None; layout.links()]?,
            asked: Vec::new(alloc),
            numbers: NumbersTold::nothing(alloc)?,
            questioned: None,
        })
    }

    /// All that was told is forgotten.
    pub(crate) fn forget(&mut self)
        ensures { self.new ≡ forgotten self.old }
    {
        self.joined = false;
        self.mode = Mode::Ready;
        put_all(&mut self.links, false);
        put_all(&mut self.sections, None);
        put_all(&mut self.points, None);
        put_all(&mut self.authorities, None);
        put_all(&mut self.indications, None);
        put_all(&mut self.routes, false);
        put_all(&mut self.released, false);
        self.closed.forget();
        self.counts = AuxiliaryCounts::none();
        put_all(&mut self.first_lost, None);
        put_all(&mut self.second_lost, None);
        self.asked.clear();
        self.numbers.forget();
        self.questioned = None;
    }

    /// A turn begins at a reading. All that was told is forgotten where the node was joined anew.
    pub(crate) fn begin(&mut self, began: bool, millis: u64)
        ensures { self.new ≡ timed millis (begun began self.old) }
    {
        if began {
            self.forget();
        }
        self.millis = millis;
    }

    /// A command was asked of the node.
    pub(crate) fn ask(&mut self, command: OperatorCommand) -> Result<(), AllocError>
        ensures { OnOk result (self.new ≡ record self.old { asked = self.old.asked ++ command ∷ [] }) }
    {
        self.asked.push(command)?;
        Ok(())
    }

    /// Whether the node is to be asked for its numbers: it has told something, and wasn't asked for 10 s.
    pub(crate) fn wants_numbers(&self) -> bool
        ensures { result ≡ wants_numbers self.now }
    {
        self.joined && is_due(self.questioned, self.millis)
    }

    /// It was asked for its numbers, or it wasn't.
    pub(crate) fn note_question(&mut self, asked: bool)
        ensures { self.new ≡ questioned_if asked self.old }
    {
        if asked {
            self.questioned = Some(self.millis);
        }
    }

    /// A line tells something. It answers what of it is noted.
    pub(crate) fn hear(&mut self, told: Result<Told, Fault>, text: &str) -> Noting
        ensures heard { self.new ≡ told_by text.now told self.old }
        ensures noting { result ≡ noting_of told self.old.asked }
    {
        match told {
            Ok(Told::Answer) => self.answer(text),
            Ok(Told::Tells(known)) => {
                self.joined = true;
                self.put(known);
                Noting::Nothing
            }
            Ok(
                Told::Network {
                    network,
                    node,
                    is_lost,
                },
            ) => {
                self.joined = true;
                self.put_network(network, node.0, is_lost);
                Noting::Nothing
            }
            Ok(Told::Counts(row, value)) => {
                self.numbers.tell(row, value);
                Noting::Nothing
            }
            Ok(Told::Process(_)) => Noting::Line,
            Err(_) => Noting::Nothing,
        }
    }

    /// The oldest command is answered, if one was asked.
    fn answer(&mut self, text: &str) -> Noting
        ensures heard { self.new ≡ answered_by text.now self.old.asked self.old }
        ensures noting { result ≡ noting_answer self.old.asked }
    {
        if self.asked.is_empty() {
            return Noting::Nothing;
        }
        let command = self.asked.remove(0);
        self.mode = mode_after(command, text, self.mode);
        Noting::Answer(command)
    }

    /// What is known of one thing is told.
    fn put(&mut self, known: Known)
        ensures { self.new ≡ put known self.old }
    {
        match known {
            Known::Link { node, state } => self.put_link(node.0, state),
            Known::Section { section, occupancy } => {
                put_at(&mut self.sections, section.0, occupancy);
            }
            Known::Point { point, side } => put_at(&mut self.points, point.0, side),
            Known::Signal { signal, authority } => {
                put_at(&mut self.authorities, signal.0, authority);
            }
            Known::Indicates { signal, aspect } => {
                put_at(&mut self.indications, signal.0, Some(aspect));
            }
            Known::Route { route, is_set } => {
                put_at(&mut self.routes, route.0, is_set);
                put_at(&mut self.released, route.0, false);
            }
            Known::Released { route } => put_at(&mut self.released, route.0, true),
            Known::Closing { thing, is_closed } => self.closed.put(thing, is_closed),
            Known::Counted { command, count } => self.counts = counts_with(
                self.counts,
                command,
                count,
            ),
            Known::Holding => self.mode = Mode::Holding,
            Known::WaitingForResume => self.mode = Mode::WaitingForResume,
        }
    }

    /// A network is lost at a node, or back.
    fn put_network(&mut self, network: PanelNetwork, node: usize, is_lost: bool)
        ensures { self.new ≡ put_network network node is_lost self.old }
    {
        let Some(place) = node.checked_sub(1) else {
            return;
        };
        match network {
            PanelNetwork::A => put_at(&mut self.first_lost, place, Some(is_lost)),
            PanelNetwork::B => put_at(&mut self.second_lost, place, Some(is_lost)),
        }
    }

    /// The link of a node is told. What its controller indicated isn't known any more where it is lost.
    fn put_link(&mut self, node: usize, state: LinkState)
        ensures { self.new ≡ put_link node state self.old }
    {
        let Some(place) = node.checked_sub(1) else {
            return;
        };
        match state {
            LinkState::Ready => put_at(&mut self.links, place, true),
            LinkState::Lost => {
                put_at(&mut self.links, place, false);
                put_at(&mut self.indications, place, None);
            }
        }
    }
}

/// The counts, of which this is told of a kind.
fn counts_with(counts: AuxiliaryCounts, command: Auxiliary, count: u64) -> AuxiliaryCounts
    ensures { result ≡ counts_with command count counts }
{
    match command {
        Auxiliary::Release => AuxiliaryCounts {
            releases: count,
            opens: counts.opens,
        },
        Auxiliary::Open => AuxiliaryCounts {
            releases: counts.releases,
            opens: count,
        },
    }
}

/// Whether 10 s have passed since a question, if there was one.
fn is_due(questioned: Option<u64>, millis: u64) -> bool
    ensures { result ≡ is_due questioned millis }
{
    match questioned {
        Some(questioned) => millis.saturating_sub(questioned) >= BETWEEN_QUESTIONS,
        None => true,
    }
}

/// What is taken after the answer to a command.
fn mode_after(command: OperatorCommand, text: &str, before: Mode) -> Mode
    ensures { result ≡ mode_after command text.now before }
{
    match command {
        OperatorCommand::One(Command::Resume) if text == "accepted" => Mode::Ready,
        _ => before,
    }
}

/// Puts a value at each place.
pub(crate) fn put_all<T: Copy>(all: &mut [T], value: T)
    ensures { all.new ≡ replicate (length all.old) value }
{
    for place in 0..all.len() {
        all[place] = value;
    }
}

/// Puts a value at a place; nothing where there is no such place.
pub(crate) fn put_at<T: Copy>(all: &mut [T], place: usize, value: T)
    ensures { all.new ≡ put_at place value all.old }
{
    if place < all.len() {
        all[place] = value;
    }
}
