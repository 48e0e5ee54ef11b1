//! What is seen is shown on the desk.

ghost use Rattle.std.specs.Prelude.{◌≡◌, ◌++◌, IfOk, OnOk};
ghost use Rattle.panel_desk.specs.Boards.{shown_anew};
ghost use Rattle.station_panel.specs.Opened.{place_count};
ghost use Rattle.station_panel.specs.Shown.{cut_lines, fault_lines, jam_lines, own_lines};

use crate::counted::ready_links;
use crate::faults::Faults;
use panel_desk::{
    AuxiliaryCounts, Desk, NodeId, PanelLine, Pictured, PointId, StandingOrders, show_lines,
};
use station_drive::Station;
use std::alloc::{AllocError, Global};

/// What a panel shows of itself, beside its station.
#[derive(Clone, Copy)]
pub(crate) struct OwnPicture<'a> {
    /// What is disturbed.
    pub(crate) faults: &'a Faults,
    /// What it does by itself.
    pub(crate) orders: &'a StandingOrders,
    /// How many auxiliary commands were accepted.
    pub(crate) counts: AuxiliaryCounts,
    /// How much memory is taken, in bytes, and of how much.
    pub(crate) bytes: u64,
    pub(crate) limit: u64,
}

/// How many places a board needs for the picture of a station, with what a panel shows of itself.
pub fn places<S: Station + Pictured>(alloc: Global, station: &S) -> Result<usize, AllocError>
    ensures { IfOk result (λ places. places ≡ place_count (S.site station.now) (S.lines station.now)) }
{
    let mut lines = station.picture(alloc)?;
    let layout = station.table().layout();
    let faults = Faults::none(alloc, layout.nodes(), layout.points().len())?;
    let orders = StandingOrders::none(alloc, layout.routes().len())?;
    let own = OwnPicture {
        faults: &faults,
        orders: &orders,
        counts: AuxiliaryCounts::none(),
        bytes: 0,
        limit: 0,
    };
    add_own_lines(&mut lines, &own)?;
    Ok(lines.len())
}

/// Shows the picture of a station anew, with what a panel shows of itself. It answers how many links are ready.
pub(crate) fn show_picture<S: Station + Pictured>(
    alloc: Global,
    station: &S,
    own: &OwnPicture<'_>,
    desk: &mut Desk,
) -> Result<u64, AllocError>
    ensures { OnOk result (desk.new ≡ shown_anew (S.site station.now) (S.lines station.now ++ own_lines own.now.faults.now own.now.orders.now own.now.counts own.now.bytes own.now.limit) desk.old) }
{
    let mut lines = station.picture(alloc)?;
    let ready = ready_links(&lines);
    add_own_lines(&mut lines, own)?;
    desk.count();
    show_lines(alloc, station.table().layout(), &lines, desk)?;
    Ok(ready)
}

/// Adds what a panel shows of itself.
fn add_own_lines(lines: &mut Vec<PanelLine>, own: &OwnPicture<'_>) -> Result<(), AllocError>
    ensures { OnOk result (lines.new.items ≡ lines.old.items ++ own_lines own.now.faults.now own.now.orders.now own.now.counts own.now.bytes own.now.limit) }
{
    add_fault_lines(lines, own.faults, own.bytes, own.limit)?;
    lines.push(PanelLine::Counted(own.counts))?;
    own.orders.add_lines(lines)
}

/// Adds what is disturbed, and how much memory is taken.
pub(crate) fn add_fault_lines(
    lines: &mut Vec<PanelLine>,
    faults: &Faults,
    bytes: u64,
    limit: u64,
) -> Result<(), AllocError>
    ensures { OnOk result (lines.new.items ≡ lines.old.items ++ fault_lines faults.now bytes limit) }
{
    add_cut_lines(lines, &faults.cut)?;
    add_jam_lines(lines, &faults.jammed)?;
    let one_in = faults.one_in;
    let millis = faults.millis;
    lines.push(PanelLine::Drop { one_in })?;
    lines.push(PanelLine::Delay { millis })?;
    lines.push(PanelLine::Memory { bytes, limit })?;
    Ok(())
}

fn add_cut_lines(lines: &mut Vec<PanelLine>, cut: &[bool]) -> Result<(), AllocError>
    ensures { OnOk result (lines.new.items ≡ lines.old.items ++ cut_lines 0 cut.now) }
{
    for (place, is_cut) in cut.iter().enumerate() {
        lines.push(PanelLine::Cut {
            node: NodeId(place),
            is_cut: *is_cut,
        })?;
    }
    Ok(())
}

fn add_jam_lines(lines: &mut Vec<PanelLine>, jammed: &[bool]) -> Result<(), AllocError>
    ensures { OnOk result (lines.new.items ≡ lines.old.items ++ jam_lines 0 jammed.now) }
{
    for (place, is_jammed) in jammed.iter().enumerate() {
        lines.push(PanelLine::Jam {
            point: PointId(place),
            is_jammed: *is_jammed,
        })?;
    }
    Ok(())
}
