//! What `station panel --node` does.

ghost use Rattle.std.specs.Prelude.{◌≡◌, ◌≤◌, IfOk, OnOk, length};
ghost use Rattle.panel_desk.specs.StandingOrders.{none_standing};
ghost use Rattle.node_panel.specs.Heard.{unheard};
ghost use Rattle.node_panel.specs.Panels.{Explained, IsOpened, Stood, until};
ghost use Rattle.panel_desk.specs.node_lines.layout.Entries.{Site};
ghost use Rattle.station_check.specs.Report.{IsSound};

use crate::attendance::{Room, attend_node};
use crate::failure::NodePanelFailure;
use crate::heard::Heard;
use crate::stoppable::Stoppable;
use node_network::{Caller, NodeClock};
use panel_connections::{Loopback, tell_address};
use panel_desk::{Checked, PageAsked, Pictured, StandingOrders, open_desk};
use run_files::StopFile;
use station_check::{table_of, tell};
use std::alloc::Global;
use std::fs::Files;
use std::io::Write;
use std::net::{Net, SocketAddr};
use std::random::RandomSource;
use std::time::Clock as Timer;

/// What a panel of a node is asked.
#[derive(Clone, Copy)]
pub struct NodePanelOptions<'a> {
    pub page: PageAsked<'a>,
    /// The path of a record. None is written: the node writes one.
    pub record: Option<&'a str>,
    /// The address at which the node serves its operator.
    pub node: &'a str,
    /// For how many milliseconds it stands, if not for ever.
    pub for_ms: Option<u64>,
    /// The path of the file that ends it by being there, if there is to be one.
    pub stop_file: Option<&'a str>,
}

/// Attends a panel of an interlocking that runs as a process of its own. A browser of this machine gets a page, whose address is
/// written to `out`. The node is called again where it doesn't answer. It ends after its time, or where the file is there that ends it: its
/// clock comes to its last moment then. The status is 0, or 1 where anything failed; `err` is then told why.
pub fn panel_of_node<R: Files + Net + Timer + RandomSource + AllocGlobal, O: Write, E: Write>(
    rt: &R,
    asked: &NodePanelOptions<'_>,
    out: &mut O,
    err: &mut E,
) -> u8
    ensures status { result ≤ 1 }
    ensures done { result ≡ 0 → (site : Site) × IsSound asked.now.page.layout.now site × Stood site asked.now.page (until asked.now.for_ms) }
    ensures faulty { ((site : Site) → IsSound asked.now.page.layout.now site → ⊥) → (result ≡ 1) × (out.new ≡ out.old) }
    ensures silent { result ≡ 0 → err.new ≡ err.old }
    // Only a beginning of the line was told where a write to `err` failed.
    ensures explains { result ≡ 1 → Explained asked.now.page.layout.now out.old out.new (E.contents err.old) (E.contents err.new) }
{
    let table = match table_of(rt.alloc(), asked.page.layout) {
        Ok(table) => table,
        Err(failure) => return tell(&failure, err),
    };
    match open(rt, asked, &table, out) {
        Ok(()) => 0,
        Err(failure) => {
            failure.tell(err);
            1
        }
    }
}

/// Opens what the panel has outside.
fn open<R: Files + Net + Timer + RandomSource + AllocGlobal, O: Write>(
    rt: &R,
    asked: &NodePanelOptions<'_>,
    table: &Checked,
    out: &mut O,
) -> Result<(), NodePanelFailure>
    ensures { OnOk result (Stood table.now asked.now.page (until asked.now.for_ms)) }
{
    if asked.record.is_some() {
        return Err(NodePanelFailure::Record);
    }
    let Ok(address) = asked.node.parse::<SocketAddr>() else {
        return Err(NodePanelFailure::Address);
    };
    let Ok(clock) = NodeClock::start(rt, 0) else {
        return Err(NodePanelFailure::NoClock);
    };
    let Ok(listener) = Loopback::open(rt, asked.page.port) else {
        return Err(NodePanelFailure::NoPort);
    };
    let caller = Caller::new(rt.alloc(), clock, rt, address);
    let stop = StopFile::new(rt, asked.stop_file);
    let outside = Stoppable::new(caller, stop, asked.for_ms.unwrap_or(u64::MAX));
    attend_opened(rt, asked, table, outside, listener, out)
}

/// Opens the desk, tells where the page is, and attends the panel.
fn attend_opened<R: Files + Net + Timer + RandomSource + AllocGlobal, O: Write>(
    rt: &R,
    asked: &NodePanelOptions<'_>,
    table: &Checked,
    mut outside: Stoppable<'_, Caller<'_, R>, R>,
    mut listener: Loopback,
    out: &mut O,
) -> Result<(), NodePanelFailure>
    requires { outside.latest ≡ 0 }
    ensures { OnOk result (Stood table.now asked.now.page (until asked.now.for_ms)) }
{
    let mut room = open_room(rt, rt.alloc(), table, &asked.page)?;
    tell_address(asked.page.port, out)?;
    attend_node(
        rt,
        rt.alloc(),
        &mut outside,
        &mut listener,
        &mut room,
        asked.for_ms.unwrap_or(u64::MAX),
    )?;
    Ok(())
}

/// Nothing was told yet, and a desk is opened that shows this.
fn open_room<'a, R: RandomSource>(
    rt: &R,
    alloc: Global,
    table: &'a Checked,
    page: &PageAsked<'_>,
) -> Result<Room<'a>, NodePanelFailure>
    ensures table { IfOk result (λ room. room.table.now ≡ table.now) }
    ensures heard { IfOk result (λ room. room.heard ≡ unheard table.now) }
    ensures orders { IfOk result (λ room. room.orders ≡ none_standing (length table.now.routes)) }
    ensures desk { IfOk result (λ room. IsOpened table.now page.now room.desk) }
{
    let layout = table.layout();
    let heard = Heard::nothing(alloc, layout)?;
    let orders = StandingOrders::none(alloc, layout.routes().len())?;
    let mut lines = heard.picture(alloc)?;
    orders.add_lines(&mut lines)?;
    let desk = open_desk(rt, alloc, table.copy(alloc)?, lines.len(), page)?;
    Ok(Room {
        table,
        heard,
        orders,
        desk,
    })
}
