//! What a panel does by itself: routes that are set again and again, and routes that wait until they are set.

ghost use Rattle.std.specs.Prelude.{◌≡◌, ◌<◌, ◌↔◌, ◌+◌, ◌++◌, ◌^◌, IfOk, IfSome, IsTrue, OnOk, filter, length, not, slice_get};
ghost use Rattle.std.specs.List.{position};
ghost use Rattle.panel_desk.specs.Inside.{IsLetBy, IsOpposed, LetsBy, TriedOne, begins_by};
ghost use Rattle.panel_desk.specs.StandingOrders.{IsTried, MayBeTried, Tried, TriedFrom, begun, dropped, is_apart_in, is_of, is_set_in, is_shut_in, is_waiting, left, none_standing, obeyed, obeyed_all, obeyed_order, place_among, rested, standing_lines, tells_set, waits_with};

use crate::flags::{clear_flags, is_any_set, set_flag};
use crate::in_the_way::{conflicts, is_hindered, stands_against};
use crate::panel_command::PanelCommand;
use crate::panel_line::{Mode, PanelLine};
use crate::standing_order::StandingOrder;
use node_lines::{Checked, Command, Event, Known, LinkState, NodeId, RouteId};
use std::alloc::{AllocError, Global};
use std::marker::Model;

/// How many milliseconds pass between two tries to set a route at least.
const BETWEEN_TRIES: u64 = 1000;

/// A route that waits until it is set.
#[derive(Clone, Copy)]
pub struct Waiting {
    pub route: RouteId,
    /// When it was tried to set it last, in milliseconds, if that was tried.
    pub tried: Option<u64>,
}

/// What a panel does by itself: which routes are automatic, and which wait, the one that waits longest first.
pub struct StandingOrders {
    automatic: Vec<bool>,
    waiting: Vec<Waiting>,
}

// Written by hand, so that it is proved and compiled here alone.
impl Drop for StandingOrders {
    fn drop(self) {
        let Self {
            automatic: _,
            waiting: _,
        } = self;
    }
}

impl Model for StandingOrders {
    ghost use Rattle.panel_desk.specs.StandingOrders.{StandingView};

    ghost Value = { StandingView };

    ghost view = { λ s. record { automatic = s.automatic.items; waiting = s.waiting.items } };
}

impl StandingOrders {
    /// Of a station with so many routes none is automatic, and none waits.
    pub fn none(alloc: Global, routes: usize) -> Result<StandingOrders, AllocError>
        ensures { IfOk result (λ orders. orders ≡ none_standing routes) }
    {
        Ok(StandingOrders {
            automatic: vec![in alloc; false; routes]?,
            waiting: Vec::new(alloc),
        })
    }

    // ---- what an operator asks for

    /// What commands ask for is done, one after the other.
    pub fn obey(&mut self, commands: &[PanelCommand]) -> Result<(), AllocError>
        ensures { OnOk result (self.new ≡ obeyed_all commands.now self.old) }
    {
        for command in commands {
            self.obey_one(command)?;
        }
        Ok(())
    }

    /// What one command asks for is done.
    fn obey_one(&mut self, command: &PanelCommand) -> Result<(), AllocError>
        ensures { OnOk result (self.new ≡ obeyed command.now self.old) }
    {
        match command {
            PanelCommand::Stand(order) => self.obey_order(*order),
            PanelCommand::Event(Event::Request(Command::Cancel(route) | Command::Release(route))) =>
                {
                    self.drop_route(*route);
                    Ok(())
                }
            PanelCommand::CancelAll => {
                self.drop_all();
                Ok(())
            }
            _ => Ok(()),
        }
    }

    /// A standing order is obeyed.
    fn obey_order(&mut self, order: StandingOrder) -> Result<(), AllocError>
        ensures { OnOk result (self.new ≡ obeyed_order order self.old) }
    {
        match order {
            StandingOrder::Automatic(route) => {
                set_flag(&mut self.automatic, route.0, true);
                Ok(())
            }
            StandingOrder::Queue(route) => self.wait(route),
            StandingOrder::Manual(route) => {
                self.drop_route(route);
                Ok(())
            }
        }
    }

    /// A route waits, unless it does already. It is the last then.
    fn wait(&mut self, route: RouteId) -> Result<(), AllocError>
        ensures { OnOk result (self.new ≡ record self.old { waiting = waits_with route self.old.waiting }) }
    {
        if !is_waiting(&self.waiting, route) {
            self.waiting.push(Waiting { route, tried: None })?;
        }
        Ok(())
    }

    /// A route is neither automatic nor waits any more.
    fn drop_route(&mut self, route: RouteId)
        ensures { self.new ≡ dropped route self.old }
    {
        set_flag(&mut self.automatic, route.0, false);
        drop_waiting(&mut self.waiting, route);
    }

    /// No route is automatic, and none waits.
    fn drop_all(&mut self)
        ensures { self.new ≡ none_standing (length self.old.automatic) }
    {
        clear_flags(&mut self.automatic);
        self.waiting.clear();
    }

    // ---- what is done by itself

    /// Whether nothing is to be done: no route is automatic, and none waits.
    pub fn is_empty(&self) -> bool
        ensures { IsTrue result ↔ (self.now ≡ none_standing (length self.now.automatic)) }
    {
        self.waiting.is_empty() && !is_any_set(&self.automatic)
    }

    /// The routes that are tried to be set now, by what a panel shows at a reading of its clock.
    pub fn try_routes(
        &mut self,
        alloc: Global,
        table: &Checked,
        lines: &[PanelLine],
        millis: u64,
    ) -> Result<Vec<RouteId>, AllocError>
        ensures { IfOk result (λ routes. Tried table.now lines.now millis self.old routes.items self.new) }
    {
        let mut routes = Vec::new(alloc);
        if is_shut(lines) {
            self.drop_all();
            return Ok(routes);
        }
        if is_apart(lines) {
            return Ok(routes);
        }
        self.leave_set(lines);
        self.begin_to_wait(lines)?;
        self.try_each(table, lines, millis, &mut routes)?;
        Ok(routes)
    }

    /// Routes that are set wait no more.
    fn leave_set(&mut self, lines: &[PanelLine])
        ensures { self.new ≡ record self.old { waiting = left lines.now self.old.waiting } }
    {
        leave(&mut self.waiting, lines);
    }

    /// Each automatic route that is free begins to wait, unless it does already.
    fn begin_to_wait(&mut self, lines: &[PanelLine]) -> Result<(), AllocError>
        ensures { OnOk result (self.new ≡ record self.old { waiting = begun lines.now self.old.automatic self.old.waiting }) }
    {
        for place in 0..self.automatic.len() {
            self.begin_one(lines, place)?;
        }
        Ok(())
    }

    /// A route begins to wait if it is automatic and free, unless it does already.
    fn begin_one(&mut self, lines: &[PanelLine], place: usize) -> Result<(), AllocError>
        requires { place < length self.old.automatic }
        ensures begun { OnOk result (self.new ≡ record self.old { waiting = begins_by lines.now (record { 0 = place }) (slice_get self.old.automatic place) self.old.waiting }) }
    {
        let route = RouteId(place);
        if self.automatic[place] && !is_set(lines, route) {
            self.wait(route)?;
        }
        Ok(())
    }

    /// Each route that waits is tried, if it is its turn.
    fn try_each(
        &mut self,
        table: &Checked,
        lines: &[PanelLine],
        millis: u64,
        routes: &mut Vec<RouteId>,
    ) -> Result<(), AllocError>
        ensures tried { OnOk result (TriedFrom table.now lines.now millis self.old.waiting routes.old.items routes.new.items self.new.waiting) }
        ensures automatic { self.new.automatic ≡ self.old.automatic }
    {
        for place in 0..self.waiting.len() {
            self.try_one(table, lines, millis, place, routes)?;
        }
        Ok(())
    }

    /// The route at a place among those that wait is tried, if it is its turn.
    fn try_one(
        &mut self,
        table: &Checked,
        lines: &[PanelLine],
        millis: u64,
        place: usize,
        routes: &mut Vec<RouteId>,
    ) -> Result<(), AllocError>
        requires { place < length self.old.waiting }
        ensures tried { OnOk result (TriedOne table.now lines.now millis place self.old.waiting routes.old.items self.new.waiting routes.new.items) }
        ensures automatic { self.new.automatic ≡ self.old.automatic }
    {
        if is_tried(table, lines, millis, &self.waiting, place) {
            routes.push(self.waiting[place].route)?;
            self.waiting[place].tried = Some(millis);
        }
        Ok(())
    }

    // ---- what is shown of it

    /// Adds what is shown of each route: whether it is automatic, and its place among those that wait.
    pub fn add_lines(&self, lines: &mut Vec<PanelLine>) -> Result<(), AllocError>
        ensures { OnOk result (lines.new.items ≡ lines.old.items ++ standing_lines self.now) }
    {
        for place in 0..self.automatic.len() {
            let route = RouteId(place);
            lines.push(PanelLine::Automatic {
                route,
                is_automatic: self.automatic[place],
            })?;
            lines.push(PanelLine::Waits {
                route,
                place: place_among(&self.waiting, route),
            })?;
        }
        Ok(())
    }
}

/// A route waits no more.
fn drop_waiting(waiting: &mut Vec<Waiting>, route: RouteId)
    ensures { waiting.new.items ≡ filter (λ one. not (is_of route one)) waiting.old.items }
{
    waiting.retain(|one| one.route != route);
}

/// Routes that are set wait no more.
fn leave(waiting: &mut Vec<Waiting>, lines: &[PanelLine])
    ensures { waiting.new.items ≡ left lines.now waiting.old.items }
{
    waiting.retain(|one| !is_set(lines, one.route));
}

/// Whether a route waits.
fn is_waiting(waiting: &[Waiting], route: RouteId) -> bool
    ensures { result ≡ is_waiting route waiting.now }
{
    waiting.iter().any(|one| one.route == route)
}

/// The place of a route among those that wait, from 1 on, if it does.
fn place_among(waiting: &[Waiting], route: RouteId) -> Option<usize>
    ensures { result ≡ place_among route waiting.now }
{
    let place = place_before(waiting, route)?;
    Some(place.saturating_add(1))
}

/// How many wait longer than a route, if it waits.
fn place_before(waiting: &[Waiting], route: RouteId) -> Option<usize>
    ensures place { result ≡ position (is_of route) waiting.now }
    ensures fits { IfSome result (λ place. place + 1 < 2 ^ 64) }
{
    waiting.iter().position(|one| one.route == route)
}

/// Whether the interlocking takes no requests: it holds, or waits for resume.
fn is_shut(lines: &[PanelLine]) -> bool
    ensures { result ≡ is_shut_in lines.now }
{
    lines.iter().any(|line| matches!(
        line,
        PanelLine::Interlocking(Mode::Holding | Mode::WaitingForResume)
    ))
}

/// Whether the node of the interlocking doesn't answer, so that nothing is known.
fn is_apart(lines: &[PanelLine]) -> bool
    ensures { result ≡ is_apart_in lines.now }
{
    lines.iter().any(|line| {
        matches!(
            line,
            PanelLine::Known(Known::Link {
                node: NodeId(0),
                state: LinkState::Lost,
            })
        )
    })
}

/// Whether a route is told as set.
fn is_set(lines: &[PanelLine], route: RouteId) -> bool
    ensures { result ≡ is_set_in lines.now route }
{
    lines.iter().any(|line| tells_set(*line, route))
}

/// Whether a line tells that a route is set.
fn tells_set(line: PanelLine, route: RouteId) -> bool
    ensures { result ≡ tells_set line route }
{
    match line {
        PanelLine::Known(
            Known::Route {
                route: other,
                is_set,
            },
        ) => is_set && other == route,
        _ => false,
    }
}

/// Whether 1 s has passed since a route was tried last, if it was.
fn is_rested(tried: Option<u64>, millis: u64) -> bool
    ensures { result ≡ rested tried millis }
{
    match tried {
        Some(tried) => millis.saturating_sub(tried) >= BETWEEN_TRIES,
        None => true,
    }
}

/// Whether the route at a place among those that wait is tried.
fn is_tried(
    table: &Checked,
    lines: &[PanelLine],
    millis: u64,
    waiting: &[Waiting],
    place: usize,
) -> bool
    requires { place < length waiting.now }
    ensures { IsTrue result ↔ IsTried table.now lines.now millis waiting.now place }
{
    may_be_tried(table, lines, millis, &waiting[..place], waiting[place])
}

/// Whether a route that waits behind others is tried: nothing that is told stands against it, each that waits longer lets it by, and it
/// wasn't tried within the last second.
fn may_be_tried(
    table: &Checked,
    lines: &[PanelLine],
    millis: u64,
    earlier: &[Waiting],
    one: Waiting,
) -> bool
    ensures { IsTrue result ↔ MayBeTried table.now lines.now millis earlier.now one }
{
    if one.route.0 >= table.layout().routes().len() {
        return false;
    }
    if is_opposed(table, lines, one.route) {
        return false;
    }
    if !is_let_by(table, lines, earlier, one.route) {
        return false;
    }
    is_rested(one.tried, millis)
}

/// Whether something that is told stands against a route.
fn is_opposed(table: &Checked, lines: &[PanelLine], route: RouteId) -> bool
    requires { route.0 < length table.now.routes }
    ensures { IsTrue result ↔ IsOpposed table.now lines.now route }
{
    lines.iter().any(|line| stands_against(table, route, *line))
}

/// Whether each of those that wait longer lets a route by.
fn is_let_by(table: &Checked, lines: &[PanelLine], earlier: &[Waiting], route: RouteId) -> bool
    requires { route.0 < length table.now.routes }
    ensures { IsTrue result ↔ IsLetBy table.now lines.now earlier.now route }
{
    earlier
        .iter()
        .all(|other| lets_by(table, lines, other.route, route))
}

/// Whether a route that waits longer lets another one by: it doesn't conflict with it, or something hinders it. Only while nothing but set
/// routes stands against it does it keep the other one waiting.
fn lets_by(table: &Checked, lines: &[PanelLine], longer: RouteId, route: RouteId) -> bool
    requires { route.0 < length table.now.routes }
    ensures { IsTrue result ↔ LetsBy table.now lines.now longer route }
{
    !conflicts(table, route, longer) || is_hindered(table, lines, longer)
}
