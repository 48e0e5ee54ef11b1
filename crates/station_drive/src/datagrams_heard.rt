//! The nodes hear what has come to them.

ghost use Rattle.std.specs.Prelude.{◌≡◌, [], ◌∷◌, IfNone, IfSome, List, OnErr, OnOk, length};
ghost use Rattle.simulator_event.specs.declared.event.Event.TheVariants.{Deliver};
ghost use Rattle.replay_lines.specs.Names.{node_names};
ghost use Rattle.station_drive.specs.Doings.{Applying, Asking};
ghost use Rattle.station_drive.specs.Engines.{EnginePerforms, EngineStops};
ghost use Rattle.station_drive.specs.Told.{Datagram, Heard};
ghost use Rattle.station_drive.specs.Rounds.{Hearing, IsSilence, hearing_of, hearings};

use crate::Received;
use crate::datagrams::Datagrams;
use crate::engine::Engine;
use crate::fault::DriveFault;
use simulator_event::{Event, NodeId, RawDatagram, Station};
use std::io::Write;

impl<S: Station, N: Datagrams, W: Write> Engine<S, N, W> {
    /// Each node hears, in order.
    pub(crate) fn hear_all(&mut self) -> Result<(), DriveFault>
        ensures done { OnOk result ((heard : List Hearing) × (length heard ≡ length (node_names (S.site self.old.station))) × EnginePerforms S.Station N.Datagrams (hearings 0 heard) self.old self.new) }
        ensures stopped { OnErr result ((heard : List Hearing) × (length heard ≡ length (node_names (S.site self.old.station))) × EngineStops S.Station N.Datagrams (hearings 0 heard) self.old self.new) }
    {
        for node in 0..self.nodes() {
            self.hear(NodeId(node))?;
        }
        Ok(())
    }

    /// Delivers to a node each datagram that it receives, until it receives none.
    fn hear(&mut self, node: NodeId) -> Result<(), DriveFault>
        ensures done { OnOk result ((hearing : Hearing) × EnginePerforms S.Station N.Datagrams (hearing_of node hearing) self.old self.new) }
        ensures stopped { OnErr result ((hearing : Hearing) × EngineStops S.Station N.Datagrams (hearing_of node hearing) self.old self.new) }
    {
        for _ in 0..u64::MAX {
            let Some(bytes) = self.ask(node) else {
                return Ok(());
            };
            self.deliver(node, &bytes)?;
        }
        // No record is so long.
        Err(DriveFault::WriteFailed)
    }

    /// The datagram that a node receives, if there is one. A call that fails is silence.
    fn ask(&mut self, node: NodeId) -> Option<Received>
        ensures heard { IfSome result (λ bytes. EnginePerforms S.Station N.Datagrams (Asking node (Datagram bytes.items) ∷ []) self.old self.new) }
        ensures silence { IfNone result ((last : Heard) × IsSilence last × EnginePerforms S.Station N.Datagrams (Asking node last ∷ []) self.old self.new) }
    {
        match self.net.receive(node) {
            Ok(heard) => heard,
            Err(_) => None,
        }
    }

    /// Delivers a datagram to a node.
    fn deliver(&mut self, node: NodeId, bytes: &Received) -> Result<(), DriveFault>
        ensures done { OnOk result (EnginePerforms S.Station N.Datagrams (Applying (Deliver node bytes.now.items) ∷ []) self.old self.new) }
        ensures stopped { OnErr result (EngineStops S.Station N.Datagrams (Applying (Deliver node bytes.now.items) ∷ []) self.old self.new) }
    {
        let bytes = RawDatagram::of(Vec::from_slice(self.alloc, bytes)?);
        self.perform(&Event::Deliver { node, bytes })
    }
}
