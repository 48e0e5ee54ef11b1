//! What an interlocking tells its operator.

ghost use Rattle.std.specs.Prelude.{◌≡◌};
ghost use Rattle.node_lines.specs.Known.{signal_word};

use crate::word_table::{
    auxiliary_word, closing_word, known_occupancy_word, known_side_word, link_word,
    route_state_word,
};
use closings::Auxiliary;
use replay_lines::ixl_spec::{
    Aspect, Layout, Named, Occupancy, PointId, Refusal, RouteId, SectionId, Side, SignalId, Thing,
    side_word,
};
use replay_lines::{AnswerText, point_word, route_word, section_word};
use simulator_event::{Answer, NodeId};
use std::fmt;

/// Whether the link to a controller carries commands and reports.
#[derive(Clone, Copy, PartialEq, Eq)]
pub enum LinkState {
    /// It is up, and the initialisation is completed.
    Ready,
    Lost,
}

/// The authority that was given at a signal.
#[derive(Clone, Copy, PartialEq, Eq)]
pub struct Authority {
    /// The aspect that the signal was told to show.
    pub aspect: Aspect,
    /// The route into which it leads.
    pub route: RouteId,
}

/// What an interlocking knows of one thing.
#[derive(Clone, Copy, PartialEq, Eq)]
pub enum Known {
    /// The link of a controller.
    Link {
        node: NodeId,
        state: LinkState,
    },
    /// What is known of a section, if anything is.
    Section {
        section: SectionId,
        occupancy: Option<Occupancy>,
    },
    /// At which side a point lies, if that is known.
    Point {
        point: PointId,
        side: Option<Side>,
    },
    /// The authority given at a signal, if there is one.
    Signal {
        signal: SignalId,
        authority: Option<Authority>,
    },
    /// What a signal's controller reports that it shows.
    Indicates {
        signal: SignalId,
        aspect: Aspect,
    },
    /// Whether a route is set.
    Route {
        route: RouteId,
        is_set: bool,
    },
    /// A route that is set was released.
    Released {
        route: RouteId,
    },
    /// Whether a thing is closed.
    Closing {
        thing: Thing,
        is_closed: bool,
    },
    /// How many commands of a kind its process has accepted.
    Counted {
        command: Auxiliary,
        count: u64,
    },
    /// It takes no request yet: less than `HOLD_TIME` has passed since it was made.
    Holding,
    /// The hold is over, and it wasn't told to resume yet.
    WaitingForResume,
}

/// A line to the operator.
#[derive(Clone, Copy)]
pub enum OperatorLine {
    /// The interlocking took the command.
    Accepted,
    /// It refused the command.
    Refused(Refusal),
    /// What it knows now.
    Known(Known),
}

/// A line to the operator of a station with this layout.
#[derive(Clone, Copy)]
pub struct OperatorText<'a> {
    pub layout: &'a Layout,
    pub line: OperatorLine,
}

impl<'a> fmt::Display for OperatorText<'a> {
    ghost use Rattle.std.specs.Prelude.{Some};
    ghost use Rattle.node_lines.specs.Known.{operator_text};

    ghost output = { λ text. Some (operator_text text.layout.now text.line) };

    fn fmt<W: fmt::Write>(&self, f: &mut fmt::Formatter<W>) -> fmt::Result {
        let layout = self.layout;
        match self.line {
            OperatorLine::Accepted => write!(f, "accepted"),
            OperatorLine::Refused(refusal) => {
                let answer = AnswerText {
                    layout,
                    answer: Ok(Answer::Refused(refusal)),
                };
                write!(f, "{answer}")
            }
            OperatorLine::Known(known) => {
                let known = KnownText { layout, known };
                write!(f, "{known}")
            }
        }
    }
}

/// What is known of one thing, as its line tells it.
#[derive(Clone, Copy)]
struct KnownText<'a> {
    layout: &'a Layout,
    known: Known,
}

impl<'a> fmt::Display for KnownText<'a> {
    ghost use Rattle.std.specs.Prelude.{Some};
    ghost use Rattle.node_lines.specs.Known.{known_text};

    ghost output = { λ text. Some (known_text text.layout.now text.known) };

    fn fmt<W: fmt::Write>(&self, f: &mut fmt::Formatter<W>) -> fmt::Result {
        let layout = self.layout;
        match self.known {
            Known::Link { node, state } => {
                let node = NodeWord { layout, node };
                let word = link_word(state);
                write!(f, "link {node} {word}")
            }
            Known::Section { section, occupancy } => {
                let section = section_word(layout, section);
                let word = known_occupancy_word(occupancy);
                write!(f, "section {section} {word}")
            }
            Known::Point { point, side } => {
                let point = point_word(layout, point);
                let word = known_side_word(side);
                write!(f, "point {point} {word}")
            }
            Known::Signal { signal, authority } => {
                let signal = signal_word(layout, signal);
                let authority = AuthorityText { layout, authority };
                write!(f, "signal {signal} {authority}")
            }
            Known::Indicates { signal, aspect } => {
                let signal = signal_word(layout, signal);
                let word = aspect.word();
                write!(f, "indicates {signal} {word}")
            }
            Known::Route { route, is_set } => {
                let route = route_word(layout, route);
                let word = route_state_word(is_set);
                write!(f, "route {route} {word}")
            }
            Known::Released { route } => {
                let route = route_word(layout, route);
                write!(f, "route {route} released")
            }
            Known::Closing { thing, is_closed } => {
                let closing = ClosingText {
                    layout,
                    thing,
                    is_closed,
                };
                write!(f, "{closing}")
            }
            Known::Counted { command, count } => {
                let word = auxiliary_word(command);
                write!(f, "counted {word} {count}")
            }
            Known::Holding => write!(f, "holding"),
            Known::WaitingForResume => write!(f, "waiting for resume"),
        }
    }
}

/// The word that stands for a node: its name, or `_` where the layout lacks it.
#[derive(Clone, Copy)]
struct NodeWord<'a> {
    layout: &'a Layout,
    node: NodeId,
}

impl<'a> fmt::Display for NodeWord<'a> {
    ghost use Rattle.std.specs.Prelude.{Some};
    ghost use Rattle.node_lines.specs.Known.{node_word};

    ghost output = { λ word. Some (node_word word.layout.now word.node) };

    fn fmt<W: fmt::Write>(&self, f: &mut fmt::Formatter<W>) -> fmt::Result {
        match self.layout.node_name(self.node) {
            Some(name) => {
                let name = name.as_str();
                write!(f, "{name}")
            }
            None => write!(f, "_"),
        }
    }
}

/// The authority given at a signal, as the signal's line tells it.
#[derive(Clone, Copy)]
struct AuthorityText<'a> {
    layout: &'a Layout,
    authority: Option<Authority>,
}

impl<'a> fmt::Display for AuthorityText<'a> {
    ghost use Rattle.std.specs.Prelude.{Some};
    ghost use Rattle.node_lines.specs.Known.{authority_text};

    ghost output = { λ text. Some (authority_text text.layout.now text.authority) };

    fn fmt<W: fmt::Write>(&self, f: &mut fmt::Formatter<W>) -> fmt::Result {
        match self.authority {
            Some(authority) => {
                let word = authority.aspect.word();
                let route = route_word(self.layout, authority.route);
                write!(f, "{word} {route}")
            }
            None => write!(f, "stop -"),
        }
    }
}

/// The word that stands for a signal: its name, or `_` where the layout lacks it.
fn signal_word(layout: &Layout, signal: SignalId) -> &str
    ensures { result.now ≡ signal_word layout.now signal }
{
    match layout.signals().get(signal.0) {
        Some(signal) => signal.name.as_str(),
        None => "_",
    }
}

/// Whether a thing is closed, as its line tells it.
#[derive(Clone, Copy)]
struct ClosingText<'a> {
    layout: &'a Layout,
    thing: Thing,
    is_closed: bool,
}

impl<'a> fmt::Display for ClosingText<'a> {
    ghost use Rattle.std.specs.Prelude.{Some};
    ghost use Rattle.node_lines.specs.Known.{closing_text};

    ghost output = { λ text. Some (closing_text text.layout.now text.thing text.is_closed) };

    fn fmt<W: fmt::Write>(&self, f: &mut fmt::Formatter<W>) -> fmt::Result {
        let named = Named::One(self.thing);
        let word = closing_word(self.is_closed);
        let name = named.name_word(self.layout);
        match named.side() {
            Some(side) => {
                let side = side_word(side);
                write!(f, "{word} {name} {side}")
            }
            None => write!(f, "{word} {name}"),
        }
    }
}
