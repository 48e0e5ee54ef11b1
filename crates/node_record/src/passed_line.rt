//! The line for a datagram of a record.

ghost use Rattle.std.specs.Prelude.{◌≡◌, IfOk, string_bytes};
ghost use Rattle.node_record.specs.CapturedRecord.{comment};
ghost use Rattle.node_record.specs.NodeLines.{line_text, name_or_none, over_text};
ghost use Rattle.node_record.specs.inside.Passing.{seen};

use crate::passage::{Passed, Reception, Way};
use control_table::{Layout, Name};
use simulator_event::NodeId;
use station_check::Network;
use station_decode::datagram_words;
use std::alloc::{AllocError, Global};

/// A node as a line calls it: by its name, and by `_` where the layout lacks it.
fn name_or_none(name: &Option<Name>) -> &str
    ensures { result.now ≡ name_or_none name.now }
{
    match name {
        Some(name) => name.as_str(),
        None => "_",
    }
}

/// Why a datagram wasn't delivered; nothing where it was, or where it was sent.
pub(crate) fn comment(way: Way) -> &'static str
    ensures { result.now ≡ comment way }
{
    let Way::Came { reception, .. } = way else {
        return "";
    };
    match reception {
        Reception::Delivered => "",
        Reception::FromNoPartner => "from no partner",
        Reception::ThrownAway => "thrown away",
        Reception::Unread => "not read",
    }
}

/// Over which of two networks a datagram came; nothing where there is one.
fn over_text(over: Network) -> &'static str
    ensures { result.now ≡ over_text over }
{
    match over {
        Network::Alone => "",
        Network::First => " over 1",
        Network::Second => " over 2",
    }
}

/// The line for a datagram in the record of the node of this place.
pub(crate) fn line(
    alloc: Global,
    layout: &Layout,
    node: usize,
    one: &Passed<'_>,
) -> Result<String, AllocError>
    ensures { IfOk result (λ line. string_bytes line ≡ line_text layout.now node (seen one.now)) }
{
    let words = datagram_words(alloc, Some(layout), one.bytes)?;
    let reading = one.reading;
    let own = layout.node_name(NodeId(node));
    let own = name_or_none(&own);
    match one.way {
        Way::Sent { to } => {
            let to = layout.node_name(NodeId(to));
            let to = name_or_none(&to);
            format!(in alloc; "{reading}.000 sent by {own} to {to}: {words}\n")
        }
        Way::Came {
            over,
            reception,
            ..
        } => {
            let over = over_text(over);
            match reception {
                Reception::Delivered => format!(in alloc;
                    "{reading}.000 delivered to {own}{over}: {words}\n"
                ),
                _ => {
                    let why = comment(one.way);
                    format!(in alloc;
                        "{reading}.000 not delivered to {own}{over}, {why}: {words}\n"
                    )
                }
            }
        }
    }
}
