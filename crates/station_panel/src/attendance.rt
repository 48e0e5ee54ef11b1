//! A panel is attended.

ghost use Rattle.std.specs.Prelude.{IfOk, OnErr, OnOk};
ghost use Rattle.station_panel.specs.Inside.{AttendsUntil, BreaksAfter};
ghost use Rattle.station_panel.specs.Turns.{IsLived, IsLivedShort};

use crate::ending::{Ending, Limits};
use crate::panel::Panel;
use panel_connections::{Connections, Listens};
use panel_desk::Pictured;
use station_drive::{Clock, Datagrams, DriveFault, Station};
use std::io::Write;
use std::random::RandomSource;

impl<S: Station + Pictured, N: Datagrams, W: Write> Panel<'_, S, N, W> {
    /// Attends the panel up to its limits, or until its clock tells that it is to end. Each reading of the clock makes a turn: the requests that have come are answered, what
    /// the commands ask for happens in a round of the station, each once and in order, and the desk shows the picture after it.
    pub(crate) fn attend<R: RandomSource, C: Clock, L: Listens>(
        &mut self,
        rt: &R,
        clock: &mut C,
        listener: &mut L,
        limits: Limits,
    ) -> Result<Ending, DriveFault>
        ensures done { IfOk result (AttendsUntil S.Station N.Datagrams S.Pictured limits (C.readings clock.old) (C.readings clock.new) self.old self.new) }
        ensures stopped { OnErr result (BreaksAfter S.Station N.Datagrams S.Pictured limits self.old self.new) }
    {
        let mut connections = Connections::new(self.engine.alloc);
        for _ in 0..u64::MAX {
            let reading = clock.read();
            self.answer(rt, &mut connections, listener, reading);
            self.turn(reading, limits.memory)?;
            if let Some(ending) = self.ending(reading, limits) {
                return Ok(ending);
            }
            if clock.is_stopped() {
                return Ok(Ending::Stopped);
            }
        }
        // No record is so long.
        Err(DriveFault::WriteFailed)
    }

    /// What a turn does after the answers to its requests.
    fn turn(&mut self, reading: u64, limit: u64) -> Result<(), DriveFault>
        ensures done { OnOk result (IsLived S.Station N.Datagrams S.Pictured limit reading self.old self.new) }
        ensures stopped { OnErr result (IsLivedShort S.Station N.Datagrams S.Pictured reading self.old self.new) }
    {
        let events = self.want(reading)?;
        self.live(reading, &events)?;
        self.show(&events, reading, limit)?;
        Ok(())
    }
}
