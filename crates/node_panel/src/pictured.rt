//! The picture of what an interlocking's node has told.

ghost use Rattle.std.specs.Prelude.{◌≡◌, ◌++◌, OnOk};
ghost use Rattle.node_panel.specs.ClosedHeard.{each};
ghost use Rattle.node_panel.specs.Heard.{authority_line, indication_line, link_line, network_line, pictured, point_line, released_line, route_line, section_line};

use crate::heard::Heard;
use panel_desk::node_lines::{Authority, Known, LinkState};
use panel_desk::{
    Aspect, NodeId, Occupancy, PanelLine, PanelNetwork, Pictured, PointId, RouteId, SectionId,
    Side, SignalId,
};
use std::alloc::{AllocError, Global};

impl Pictured for Heard {
    ghost use Rattle.node_panel.specs.Heard.{pictured};

    ghost lines = { λ heard. pictured heard };

    fn picture(&self, alloc: Global) -> Result<Vec<PanelLine>, AllocError> {
        let mut lines = Vec::new(alloc);
        let millis = self.millis;
        lines.push(PanelLine::Time { millis })?;
        lines.push(PanelLine::Interlocking(self.mode))?;
        lines.push(link_line(0, self.joined))?;
        add_links(&mut lines, &self.links)?;
        add_sections(&mut lines, &self.sections)?;
        add_points(&mut lines, &self.points)?;
        add_authorities(&mut lines, &self.authorities)?;
        add_indications(&mut lines, &self.indications)?;
        add_routes(&mut lines, &self.routes)?;
        add_released(&mut lines, &self.released)?;
        self.closed.add_lines(&mut lines)?;
        lines.push(PanelLine::Counted(self.counts))?;
        add_networks(&mut lines, PanelNetwork::A, &self.first_lost)?;
        add_networks(&mut lines, PanelNetwork::B, &self.second_lost)?;
        Ok(lines)
    }
}

/// The link to a node.
fn link_line(node: usize, ready: bool) -> PanelLine
    ensures { result ≡ link_line node ready }
{
    let state = if ready {
        LinkState::Ready
    } else {
        LinkState::Lost
    };
    PanelLine::Known(Known::Link {
        node: NodeId(node),
        state,
    })
}

/// What a signal's controller indicates, as far as it is known.
fn indication_line(place: usize, aspect: Option<Aspect>) -> PanelLine
    ensures { result ≡ indication_line place aspect }
{
    let signal = SignalId(place);
    match aspect {
        Some(aspect) => PanelLine::Known(Known::Indicates { signal, aspect }),
        None => PanelLine::Silent { signal },
    }
}

fn add_links(lines: &mut Vec<PanelLine>, links: &[bool]) -> Result<(), AllocError>
    ensures { OnOk result (lines.new.items ≡ lines.old.items ++ each link_line 1 links.now) }
{
    for (place, ready) in links.iter().enumerate() {
        lines.push(link_line(place.saturating_add(1), *ready))?;
    }
    Ok(())
}

fn add_sections(
    lines: &mut Vec<PanelLine>,
    sections: &[Option<Occupancy>],
) -> Result<(), AllocError>
    ensures { OnOk result (lines.new.items ≡ lines.old.items ++ each section_line 0 sections.now) }
{
    for (place, occupancy) in sections.iter().enumerate() {
        lines.push(PanelLine::Known(Known::Section {
            section: SectionId(place),
            occupancy: *occupancy,
        }))?;
    }
    Ok(())
}

fn add_points(lines: &mut Vec<PanelLine>, points: &[Option<Side>]) -> Result<(), AllocError>
    ensures { OnOk result (lines.new.items ≡ lines.old.items ++ each point_line 0 points.now) }
{
    for (place, side) in points.iter().enumerate() {
        lines.push(PanelLine::Known(Known::Point {
            point: PointId(place),
            side: *side,
        }))?;
    }
    Ok(())
}

fn add_authorities(
    lines: &mut Vec<PanelLine>,
    authorities: &[Option<Authority>],
) -> Result<(), AllocError>
    ensures { OnOk result (lines.new.items ≡ lines.old.items ++ each authority_line 0 authorities.now) }
{
    for (place, authority) in authorities.iter().enumerate() {
        lines.push(PanelLine::Known(Known::Signal {
            signal: SignalId(place),
            authority: *authority,
        }))?;
    }
    Ok(())
}

fn add_indications(
    lines: &mut Vec<PanelLine>,
    indications: &[Option<Aspect>],
) -> Result<(), AllocError>
    ensures { OnOk result (lines.new.items ≡ lines.old.items ++ each indication_line 0 indications.now) }
{
    for (place, aspect) in indications.iter().enumerate() {
        lines.push(indication_line(place, *aspect))?;
    }
    Ok(())
}

fn add_routes(lines: &mut Vec<PanelLine>, routes: &[bool]) -> Result<(), AllocError>
    ensures { OnOk result (lines.new.items ≡ lines.old.items ++ each route_line 0 routes.now) }
{
    for (place, is_set) in routes.iter().enumerate() {
        lines.push(PanelLine::Known(Known::Route {
            route: RouteId(place),
            is_set: *is_set,
        }))?;
    }
    Ok(())
}

fn add_released(lines: &mut Vec<PanelLine>, released: &[bool]) -> Result<(), AllocError>
    ensures { OnOk result (lines.new.items ≡ lines.old.items ++ each released_line 0 released.now) }
{
    for (place, is_released) in released.iter().enumerate() {
        lines.push(PanelLine::Released {
            route: RouteId(place),
            is_released: *is_released,
        })?;
    }
    Ok(())
}

fn add_networks(
    lines: &mut Vec<PanelLine>,
    network: PanelNetwork,
    lost: &[Option<bool>],
) -> Result<(), AllocError>
    ensures { OnOk result (lines.new.items ≡ lines.old.items ++ each (network_line network) 1 lost.now) }
{
    for (place, is_lost) in lost.iter().enumerate() {
        lines.push(PanelLine::Network {
            network,
            node: NodeId(place.saturating_add(1)),
            is_lost: *is_lost,
        })?;
    }
    Ok(())
}
