//! The sections on which a train comes to a signal.

ghost use Rattle.std.specs.Prelude.{◌≡◌, IfOk, OnOk, length};
ghost use Rattle.control_table.specs.Topology.{StandsAt};
ghost use Rattle.route_derivation.specs.Approach.{IsApproach};
ghost use Rattle.route_derivation.specs.inside.ApproachSearch.{is_track, goes_back, holds_port, may_come, port_from, port_back, with_port, with_ports, AreReached, lies_in, leads_over, sections_below};

use crate::passage::{Passage, first_out, second_out};
use crate::rule::ApproachRule;
use crate::topology::{is_port, joined_to, port_of, section_of, signal_at};
use control_table::layout::{Element, Layout, Port, SectionId, SignalId};
use std::alloc::{AllocError, Global};

/// Whether an element is a track.
fn is_track(element: Element) -> bool
    ensures { result ≡ is_track element }
{
    matches!(element, Element::Track(_))
}

/// Whether a rule goes back from one element to another.
fn goes_back(rule: ApproachRule, from: Element, to: Element) -> bool
    ensures { result ≡ goes_back rule from to }
{
    match rule {
        ApproachRule::Signal => true,
        ApproachRule::Berth => is_track(from) && is_track(to),
    }
}

/// Whether a port stands in a list.
fn holds_port(ports: &[Port], port: Port) -> bool
    ensures { result ≡ holds_port ports.now port }
{
    ports.iter().any(|one| is_port(*one, port))
}

/// Whether a train may come to a port's element from a port: no other signal stands there.
#[tactic(auto, unfolding(crate::specs::inside::ApproachSearch::may_come))]
fn may_come(layout: &Layout, rule: ApproachRule, to: Port, port: Port) -> bool
    ensures { result ≡ may_come layout.now rule to port }
{
    goes_back(rule, to.element, port.element) && !signal_at(layout.signals(), port).is_some()
}

/// The port from which a train comes, of the one that is joined, if it may.
fn port_from(layout: &Layout, rule: ApproachRule, to: Port, joined: Option<Port>) -> Option<Port>
    ensures { result ≡ port_from layout.now rule to joined }
{
    match joined {
        Some(port) if may_come(layout, rule, to, port) => Some(port),
        _ => None,
    }
}

/// The port from which a train comes to a passage, which is given in the other direction.
fn port_back(layout: &Layout, rule: ApproachRule, back: Option<Passage>) -> Option<Port>
    ensures { result ≡ port_back layout.now rule back }
{
    match back {
        Some(back) => port_from(
            layout,
            rule,
            back.entered,
            joined_to(layout.joints(), back.left),
        ),
        None => None,
    }
}

/// Adds a port to a list, unless it stands there.
fn add_port(reached: &mut Vec<Port>, port: Option<Port>) -> Result<(), AllocError>
    ensures { OnOk result (reached.new.items ≡ with_port reached.old.items port) }
{
    let Some(port) = port else {
        return Ok(());
    };
    if holds_port(reached, port) {
        return Ok(());
    }
    reached.push(port)?;
    Ok(())
}

/// Adds the ports from which a train comes to the element of a port that was reached.
#[tactic(auto, unfolding(crate::specs::inside::ApproachSearch::with_ports))]
fn add_ports(
    layout: &Layout,
    rule: ApproachRule,
    reached: &mut Vec<Port>,
    port: Port,
) -> Result<(), AllocError>
    ensures { OnOk result (reached.new.items ≡ with_ports layout.now rule reached.old.items port) }
{
    add_port(reached, port_back(layout, rule, first_out(port)))?;
    add_port(reached, port_back(layout, rule, second_out(port)))
}

/// The ports by which a train comes to a signal, which stands at a port.
fn ports_before(
    alloc: Global,
    layout: &Layout,
    rule: ApproachRule,
    signal: SignalId,
    at: Port,
) -> Result<Vec<Port>, AllocError>
    requires { StandsAt layout.now signal at }
    ensures { IfOk result (λ v. AreReached layout.now rule signal v.items) }
{
    let mut reached = Vec::new(alloc);
    reached.push(at)?;
    // Each port that is reached after the first stands in a joint, and is reached once.
    let most = 2 * layout.joints().len() + 1;
    for index in 0..most {
        let port = match reached.get(index) {
            Some(port) => *port,
            None => return Ok(reached),
        };
        add_ports(layout, rule, &mut reached, port)?;
    }
    Ok(reached)
}

/// Whether a section is this one.
fn lies_in(lies: Option<SectionId>, section: SectionId) -> bool
    ensures { result ≡ lies_in lies section }
{
    match lies {
        Some(lies) => lies.0 == section.0,
        None => false,
    }
}

/// Whether an element that is left at one of some ports lies in a section.
fn leads_over(layout: &Layout, ports: &[Port], section: SectionId) -> bool
    ensures { result ≡ leads_over layout.now ports.now section }
{
    ports
        .iter()
        .any(|port| lies_in(section_of(layout, port.element), section))
}

/// The sections in which elements lie that are left at some ports, in layout order.
#[tactic(auto, unfolding(crate::specs::inside::ApproachSearch::sections_below))]
fn sections_over(
    alloc: Global,
    layout: &Layout,
    ports: &[Port],
) -> Result<Vec<SectionId>, AllocError>
    ensures { IfOk result (λ v. v.items ≡ sections_below layout.now ports.now (length layout.now.sections)) }
{
    let mut sections = Vec::new(alloc);
    let names = layout.sections();
    for place in 0..names.len() {
        if leads_over(layout, ports, SectionId(place)) {
            sections.push(SectionId(place))?;
        }
    }
    Ok(sections)
}

/// The sections on which a train comes to a signal, in layout order.
pub fn approach_of(
    alloc: Global,
    layout: &Layout,
    rule: ApproachRule,
    signal: SignalId,
) -> Result<Vec<SectionId>, AllocError>
    ensures { IfOk result (λ v. IsApproach layout.now rule signal v.items) }
{
    layout.joints();
    let at = match port_of(layout.signals(), signal) {
        Some(at) => at,
        None => return Ok(Vec::new(alloc)),
    };
    let ports = ports_before(alloc, layout, rule, signal, at)?;
    sections_over(alloc, layout, &ports)
}
