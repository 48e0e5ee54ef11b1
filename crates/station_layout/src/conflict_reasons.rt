//! Why two routes conflict.

ghost use Rattle.std.specs.Prelude.{◌≡◌, ◌++◌, ◌<◌, length, OnOk, string_bytes};
ghost use Rattle.station_layout.specs.Names.{spaced};
ghost use Rattle.station_layout.specs.Reasons.{AreReasons, reason_words};

use crate::cells::add;
use control_table::{Checked, RouteId};
use std::alloc::AllocError;

/// Which reasons two routes have to conflict.
#[derive(Clone, Copy)]
pub struct ConflictReasons {
    /// They have the same entry signal.
    pub entry: bool,
    /// They share a section.
    pub section: bool,
    /// They require a point at different sides.
    pub point: bool,
    /// One of them lists the other as an extra conflict.
    pub extra: bool,
}

/// The reasons that two routes have to conflict. A route has some to conflict with itself, and doesn't.
pub(crate) fn reasons(table: &Checked, a: RouteId, b: RouteId) -> ConflictReasons
    requires first { a.0 < length table.now.routes }
    requires second { b.0 < length table.now.routes }
    ensures { AreReasons table.now a b result }
{
    let first = table.masks(a);
    let second = table.masks(b);
    ConflictReasons {
        entry: first.entry.0 == second.entry.0,
        section: first.sections.intersects(second.sections),
        point: first.right.intersects(second.left) | first.left.intersects(second.right),
        extra: first.extra.contains(b.0) | second.extra.contains(a.0),
    }
}

/// Adds the words for reasons, in their order.
pub(crate) fn add_reasons(reasons: ConflictReasons, cell: &mut String) -> Result<(), AllocError>
    ensures { OnOk result (string_bytes cell.new ≡ string_bytes cell.old ++ spaced (reason_words reasons)) }
{
    let rows = [
        (reasons.entry, "entry"),
        (reasons.section, "section"),
        (reasons.point, "point"),
        (reasons.extra, "extra"),
    ];
    let mut before = "";
    for (holds, word) in rows {
        if holds {
            add(cell, before, word)?;
            before = " ";
        }
    }
    Ok(())
}
