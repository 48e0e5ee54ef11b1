//! What is told of one thing.

ghost use Rattle.std.specs.Prelude.{◌≡◌};
ghost use Rattle.panel_desk.specs.ShownLines.{route_or_none};

use crate::word_table::{
    closing_kind, driven_words, lost_word, mode_word, network_letter, signal_word, yes_or_no,
};
use node_lines::replay_lines::{point_word, route_word, section_word};
use node_lines::{
    Aspect, AuxiliaryCounts, Known, Layout, Named, NodeId, Occupancy, OperatorLine, OperatorText,
    PointId, Position, RouteId, SectionId, Side, SignalId, Thing,
};
use std::fmt;

/// What an interlocking takes.
#[derive(Clone, Copy, PartialEq, Eq)]
pub enum Mode {
    /// Every command.
    Ready,
    /// No command: less than 6000 ms have passed since it was made.
    Holding,
    /// A resume alone: it wasn't told to since it was made.
    WaitingForResume,
}

/// One of the two networks over which the nodes of a station send.
#[derive(Clone, Copy, PartialEq, Eq)]
pub enum PanelNetwork {
    A,
    B,
}

/// What is told of one thing.
#[derive(Clone, Copy)]
pub enum PanelLine {
    /// True time.
    Time {
        millis: u64,
    },
    /// What the interlocking takes.
    Interlocking(Mode),
    /// What the interlocking knows.
    Known(Known),
    /// What a signal shows.
    Shows {
        signal: SignalId,
        aspect: Aspect,
    },
    /// A signal's controller reports nothing, as far as is known.
    Silent {
        signal: SignalId,
    },
    /// Where a point lies, and to which side it is driven, if it is.
    Lies {
        point: PointId,
        position: Position,
        driven: Option<Side>,
    },
    /// Whether a train stands in a section.
    Stands {
        section: SectionId,
        occupancy: Occupancy,
    },
    /// The route for which a section is locked, if it is.
    Locked {
        section: SectionId,
        route: Option<RouteId>,
    },
    /// Whether a route was released in its present setting.
    Released {
        route: RouteId,
        is_released: bool,
    },
    /// Whether a thing is closed.
    Closed {
        thing: Thing,
        is_closed: bool,
    },
    /// How many auxiliary commands were accepted.
    Counted(AuxiliaryCounts),
    /// Whether a route is automatic.
    Automatic {
        route: RouteId,
        is_automatic: bool,
    },
    /// The place of a route among those that wait until they are set, if it does.
    Waits {
        route: RouteId,
        place: Option<usize>,
    },
    /// Whether what goes to a node and comes from it is lost.
    Cut {
        node: NodeId,
        is_cut: bool,
    },
    /// Whether a network is lost at a node, if that was ever told.
    Network {
        network: PanelNetwork,
        node: NodeId,
        is_lost: Option<bool>,
    },
    /// Whether a point doesn't reach an end position.
    Jam {
        point: PointId,
        is_jammed: bool,
    },
    /// Of the datagrams that are sent one in so many is lost; none where that is 0.
    Drop {
        one_in: u64,
    },
    /// By how much datagrams come late.
    Delay {
        millis: u64,
    },
    /// How many bytes the network's datagrams take, and with how many the panel stops.
    Memory {
        bytes: u64,
        limit: u64,
    },
}

/// What is told of one thing of a station with this layout.
#[derive(Clone, Copy)]
pub struct PanelText<'a> {
    pub layout: &'a Layout,
    pub line: PanelLine,
}

impl<'a> fmt::Display for PanelText<'a> {
    ghost use Rattle.std.specs.Prelude.{Some};
    ghost use Rattle.panel_desk.specs.ShownLines.{panel_text};

    ghost output = { λ text. Some (panel_text text.layout.now text.line) };

    fn fmt<W: fmt::Write>(&self, f: &mut fmt::Formatter<W>) -> fmt::Result {
        let layout = self.layout;
        match self.line {
            PanelLine::Time { millis } => write!(f, "time {millis}"),
            PanelLine::Interlocking(mode) => {
                let word = mode_word(mode);
                write!(f, "ixl {word}")
            }
            PanelLine::Known(known) => {
                let line = OperatorLine::Known(known);
                let known = OperatorText { layout, line };
                write!(f, "{known}")
            }
            PanelLine::Counted(counts) => {
                let AuxiliaryCounts { releases, opens } = counts;
                write!(f, "counted {releases} {opens}")
            }
            PanelLine::Drop { one_in } => write!(f, "drop {one_in}"),
            PanelLine::Delay { millis } => write!(f, "delay {millis}"),
            PanelLine::Memory { bytes, limit } => write!(f, "memory {bytes} {limit}"),
            line => {
                let thing = ThingText { layout, line };
                write!(f, "{thing}")
            }
        }
    }
}

/// What is told of a thing of the layout.
#[derive(Clone, Copy)]
struct ThingText<'a> {
    layout: &'a Layout,
    line: PanelLine,
}

impl<'a> fmt::Display for ThingText<'a> {
    ghost use Rattle.std.specs.Prelude.{Some};
    ghost use Rattle.panel_desk.specs.ShownLines.{thing_text};

    ghost output = { λ text. Some (thing_text text.layout.now text.line) };

    fn fmt<W: fmt::Write>(&self, f: &mut fmt::Formatter<W>) -> fmt::Result {
        let layout = self.layout;
        match self.line {
            PanelLine::Shows { signal, aspect } => {
                let signal = signal_word(layout, signal);
                let word = aspect.word();
                write!(f, "shows {signal} {word}")
            }
            PanelLine::Silent { signal } => {
                let signal = signal_word(layout, signal);
                write!(f, "indicates {signal} unknown")
            }
            PanelLine::Lies {
                point,
                position,
                driven,
            } => {
                let point = point_word(layout, point);
                let word = position.word();
                let driven = driven_words(driven);
                write!(f, "lies {point} {word}{driven}")
            }
            PanelLine::Stands { section, occupancy } => {
                let section = section_word(layout, section);
                let word = occupancy.word();
                write!(f, "stands {section} {word}")
            }
            PanelLine::Locked { section, route } => {
                let section = section_word(layout, section);
                let route = route_or_none(layout, route);
                write!(f, "locked {section} {route}")
            }
            PanelLine::Cut { node, is_cut } => {
                let cut = CutText {
                    layout,
                    node,
                    is_cut,
                };
                write!(f, "{cut}")
            }
            PanelLine::Network {
                network,
                node,
                is_lost,
            } => {
                let text = NetworkText {
                    layout,
                    network,
                    node,
                    is_lost,
                };
                write!(f, "{text}")
            }
            PanelLine::Jam { point, is_jammed } => {
                let point = point_word(layout, point);
                let word = yes_or_no(is_jammed);
                write!(f, "jam {point} {word}")
            }
            line => {
                let order = RouteText { layout, line };
                write!(f, "{order}")
            }
        }
    }
}

/// What is told of a route, and of what is closed.
#[derive(Clone, Copy)]
struct RouteText<'a> {
    layout: &'a Layout,
    line: PanelLine,
}

impl<'a> fmt::Display for RouteText<'a> {
    ghost use Rattle.std.specs.Prelude.{Some};
    ghost use Rattle.panel_desk.specs.ShownLines.{route_text};

    ghost output = { λ text. Some (route_text text.layout.now text.line) };

    fn fmt<W: fmt::Write>(&self, f: &mut fmt::Formatter<W>) -> fmt::Result {
        let layout = self.layout;
        match self.line {
            PanelLine::Released { route, is_released } => {
                let route = route_word(layout, route);
                let word = yes_or_no(is_released);
                write!(f, "released {route} {word}")
            }
            PanelLine::Closed { thing, is_closed } => {
                let kind = closing_kind(thing);
                let name = Named::One(thing).name_word(layout);
                let word = yes_or_no(is_closed);
                write!(f, "closed-{kind} {name} {word}")
            }
            PanelLine::Automatic {
                route,
                is_automatic,
            } => {
                let route = route_word(layout, route);
                let word = yes_or_no(is_automatic);
                write!(f, "automatic {route} {word}")
            }
            PanelLine::Waits {
                route,
                place: Some(place),
            } => {
                let route = route_word(layout, route);
                write!(f, "waits {route} {place}")
            }
            PanelLine::Waits { route, place: None } => {
                let route = route_word(layout, route);
                write!(f, "waits {route} -")
            }
            _ => Ok(()),
        }
    }
}

/// The word of a route, or a hyphen for none.
fn route_or_none(layout: &Layout, route: Option<RouteId>) -> &str
    ensures { result.now ≡ route_or_none layout.now route }
{
    match route {
        Some(route) => route_word(layout, route),
        None => "-",
    }
}

/// Whether a node is cut off.
#[derive(Clone, Copy)]
struct CutText<'a> {
    layout: &'a Layout,
    node: NodeId,
    is_cut: bool,
}

impl<'a> fmt::Display for CutText<'a> {
    ghost use Rattle.std.specs.Prelude.{Some};
    ghost use Rattle.panel_desk.specs.ShownLines.{cut_text};

    ghost output = { λ text. Some (cut_text text.layout.now text.node text.is_cut) };

    fn fmt<W: fmt::Write>(&self, f: &mut fmt::Formatter<W>) -> fmt::Result {
        let word = yes_or_no(self.is_cut);
        match self.layout.node_name(self.node) {
            Some(name) => {
                let name = name.as_str();
                write!(f, "cut {name} {word}")
            }
            None => write!(f, "cut _ {word}"),
        }
    }
}

/// Whether a network is lost at a node.
#[derive(Clone, Copy)]
struct NetworkText<'a> {
    layout: &'a Layout,
    network: PanelNetwork,
    node: NodeId,
    is_lost: Option<bool>,
}

impl<'a> fmt::Display for NetworkText<'a> {
    ghost use Rattle.std.specs.Prelude.{Some};
    ghost use Rattle.panel_desk.specs.ShownLines.{network_text};

    ghost output = { λ text. Some (network_text text.layout.now text.network text.node text.is_lost) };

    fn fmt<W: fmt::Write>(&self, f: &mut fmt::Formatter<W>) -> fmt::Result {
        let Some(is_lost) = self.is_lost else {
            return Ok(());
        };
        let letter = network_letter(self.network);
        let word = lost_word(is_lost);
        match self.layout.node_name(self.node) {
            Some(name) => {
                let name = name.as_str();
                write!(f, "network-{letter} {name} {word}")
            }
            None => write!(f, "network-{letter} _ {word}"),
        }
    }
}
