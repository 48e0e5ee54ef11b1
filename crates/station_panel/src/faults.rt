//! What an operator disturbs.

ghost use Rattle.std.specs.Prelude.{◌≡◌, IfOk};
ghost use Rattle.station_panel.specs.Faults.{disturbed, flag_set, no_faults};

use panel_desk::Disturbance;
use std::alloc::{AllocError, Global};
use std::marker::Model;

/// What is disturbed now.
#[derive(Drop)]
pub(crate) struct Faults {
    /// Of each node, whether what goes to it or comes from it is lost.
    pub(crate) cut: Vec<bool>,
    /// Of each point, whether it doesn't reach an end position.
    pub(crate) jammed: Vec<bool>,
    /// Of the datagrams that are sent one in so many is lost; none where that is 0.
    pub(crate) one_in: u64,
    /// By how many milliseconds datagrams come late.
    pub(crate) millis: u64,
}

impl Model for Faults {
    ghost use Rattle.station_panel.specs.Faults.{FaultsView};

    ghost Value = { FaultsView };

    ghost view = { λ f. record { cut = f.cut.items; jammed = f.jammed.items; one_in = f.one_in; millis = f.millis } };
}

impl Faults {
    /// Nothing is disturbed.
    pub(crate) fn none(alloc: Global, nodes: usize, points: usize) -> Result<Faults, AllocError>
        ensures { IfOk result (λ faults. faults ≡ no_faults nodes points) }
    {
        Ok(Faults {
            cut: vec![in alloc; false; nodes]?,
            jammed: vec![in alloc; false; points]?,
            one_in: 0,
            millis: 0,
        })
    }

    /// Something is disturbed, or isn't any more.
    pub(crate) fn disturb(&mut self, disturbance: Disturbance)
        ensures { self.new ≡ disturbed disturbance self.old }
    {
        match disturbance {
            Disturbance::Cut(node) => set_flag(&mut self.cut, node.0, true),
            Disturbance::Mend(node) => set_flag(&mut self.cut, node.0, false),
            Disturbance::Drop { one_in } => self.one_in = one_in,
            Disturbance::Delay { millis } => self.millis = millis,
            Disturbance::Jam(point) => set_flag(&mut self.jammed, point.0, true),
            Disturbance::Unjam(point) => set_flag(&mut self.jammed, point.0, false),
        }
    }
}

/// Sets a flag; nothing where there is none at this place.
fn set_flag(flags: &mut [bool], place: usize, value: bool)
    ensures { flags.new ≡ flag_set place value flags.old }
{
    if place < flags.len() {
        flags[place] = value;
    }
}
