//! A station that is driven, with its network and its record.

ghost use Rattle.std.specs.Prelude.{◌≡◌, length};
ghost use Rattle.replay_lines.specs.Names.{node_names};

use simulator_event::Station;
use std::alloc::Global;
use std::io::Write;
use std::marker::Model;

/// A station that is driven, with its network and its record.
pub struct Engine<S, N, W: Write> {
    pub alloc: Global,
    pub station: S,
    pub net: N,
    pub recorder: W,
}

// Written by hand, so that it is proved and compiled here alone.
impl<S: Drop, N: Drop, W: Write + Drop> Drop for Engine<S, N, W> {
    fn drop(self) {
        let Self {
            alloc: _,
            station: _,
            net: _,
            recorder: _,
        } = self;
    }
}

impl<S, N, W: Write> Model for Engine<S, N, W> {
    ghost use Rattle.station_drive.specs.Engines.{EngineView};

    ghost Value = { EngineView S N };

    ghost view = { λ e. record { station = e.station; net = e.net; text = W.contents e.recorder } };
}

impl<S: Station, N, W: Write> Engine<S, N, W> {
    /// How many nodes the station has.
    pub(crate) fn nodes(&self) -> usize
        ensures { result ≡ length (node_names (S.site self.now.station)) }
    {
        self.station.table().layout().nodes()
    }
}

impl<S, N, W: Write> Engine<S, N, W> {
    /// The allocator, the station, the network and the recorder, which are handed back.
    pub fn into_parts(self) -> (Global, S, N, W)
        ensures station { result.1 ≡ self.station }
        ensures net { result.2 ≡ self.net }
        ensures text { W.contents result.3 ≡ self.text }
    {
        let Engine {
            alloc,
            station,
            net,
            recorder,
        } = self;
        (alloc, station, net, recorder)
    }
}

impl<S: Drop, N, W: Write> Engine<S, N, W> {
    /// Its network and its recorder, which are handed back.
    pub fn into_outside(self) -> (N, W)
        ensures net { result.0 ≡ self.net }
        ensures text { W.contents result.1 ≡ self.text }
    {
        let Engine {
            alloc: _,
            station: _,
            net,
            recorder,
        } = self;
        (net, recorder)
    }
}
