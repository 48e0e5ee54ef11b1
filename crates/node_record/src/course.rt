//! How a node's record goes on, line by line, and what each line tells of a lane.

ghost use Rattle.std.specs.Prelude.{◌≡◌};
ghost use Rattle.node_record.specs.Courses.{orders, parted, read_at, step_by};
ghost use Rattle.control_table.specs.layout.Nodes.{meant_node};

use crate::known_told::known_said;
use crate::order_told::{order_number, told_by_order};
use crate::report_told::report_said;
use crate::told::Told;
use control_table::{Layout, Node};
use node_lines::{Order, read_order};
use replay_words::decimal;

/// How far a record is read.
#[derive(Clone, Copy)]
pub(crate) struct Course {
    /// The first reading of the node's clock, once there is one, in milliseconds.
    pub(crate) first: Option<u64>,
    /// The last one.
    pub(crate) reading: u64,
    /// The order that stands, once there is one.
    pub(crate) order: Option<Order>,
}

/// What a line comes to.
#[derive(Clone, Copy)]
pub(crate) struct Step {
    /// How far the record is read after it.
    pub(crate) course: Course,
    /// At which reading something was told of a lane, if it was.
    pub(crate) time: u64,
    pub(crate) told: Option<Told>,
}

/// Nothing is read.
pub(crate) const FIRST_COURSE: Course = Course {
    first: None,
    reading: 0,
    order: None,
};

/// The clock is read: the order that stands may have ended by itself.
fn read_at(whose: Node, course: Course, reading: u64) -> Step
    ensures { result ≡ read_at (meant_node whose) course reading }
{
    let first = course.first.or(Some(reading));
    let ended = match course.order {
        Some(Order::ShowProceed { until } | Order::ShowSlow { until }) => {
            Some((until, Order::ShowStop))
        }
        Some(Order::Drive { until, .. }) => Some((until, Order::DriveNone)),
        _ => None,
    };
    match ended {
        Some((time, left)) if time <= reading => Step {
            course: Course {
                first,
                reading,
                order: Some(left),
            },
            time,
            told: told_by_order(whose, left),
        },
        _ => Step {
            course: Course {
                first,
                reading,
                ..course
            },
            time: reading,
            told: None,
        },
    }
}

/// An order is given; one that is the same as the one that stands, but for its end, tells nothing new.
fn orders(whose: Node, course: Course, order: Order) -> Step
    ensures { result ≡ orders (meant_node whose) course order }
{
    let told = match course.order {
        Some(standing) if order_number(standing) == order_number(order) => None,
        _ => told_by_order(whose, order),
    };
    Step {
        course: Course {
            order: Some(order),
            ..course
        },
        time: course.reading,
        told,
    }
}

/// The first word of a line, and the text after it.
pub(crate) fn parted(line: &str) -> (&str, &str)
    ensures { (result.0.now, result.1.now) ≡ parted line.now }
{
    match line.split_once(' ') {
        Some((kind, text)) => (kind, text),
        None => (line, ""),
    }
}

/// What a line comes to, by its first word and the text after it. What is written is what an interlocking knows, or the order of a
/// controller. What is heard is a command, which changes no lane by itself, or what field equipment tells.
pub(crate) fn step_of(layout: &Layout, whose: Node, course: Course, kind: &str, text: &str) -> Step
    ensures { result ≡ step_by layout.now (meant_node whose) course kind.now text.now }
{
    let told = match kind {
        "at" => match decimal(text) {
            Ok(reading) => return read_at(whose, course, reading),
            Err(_) => None,
        },
        "hears" => match whose {
            Node::Interlocking => None,
            _ => report_said(layout, whose, text),
        },
        "writes" => match whose {
            Node::Interlocking => known_said(layout, text),
            _ => match read_order(text) {
                Ok(line) => return orders(whose, course, line.order),
                Err(_) => None,
            },
        },
        _ => None,
    };
    Step {
        course,
        time: course.reading,
        told,
    }
}
