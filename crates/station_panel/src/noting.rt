//! A station whose answers to what is asked for are noted.

ghost use Rattle.std.specs.Prelude.{◌≡◌};
ghost use Rattle.station_panel.specs.Asked.{may_be_asked};

use crate::asked::may_be_asked;
use panel_desk::{
    Answer, Checked, Event, PanelLine, Pictured, PointId, Refused, Reply, Side, recorded,
};
use station_drive::{Outgoing, Station};
use std::alloc::{AllocError, Global};

/// A station, and what it answered to the events that an operator may ask for since it was last told to forget.
#[derive(Drop)]
pub struct Noting<S> {
    pub station: S,
    pub(crate) answers: Vec<Result<Answer, Refused>>,
}

impl<S> Noting<S> {
    /// This station, which has answered nothing yet.
    pub fn of(alloc: Global, station: S) -> Noting<S>
        ensures { result.station ≡ station }
    {
        Noting {
            station,
            answers: Vec::new(alloc),
        }
    }

    /// It forgets what it answered.
    pub(crate) fn forget(&mut self)
        ensures { self.new.station ≡ self.old.station }
    {
        self.answers.clear();
    }

    /// An answer is noted; where memory is lacking it isn't.
    fn note(&mut self, event: &Event, reply: Result<Reply, Refused>)
        ensures { self.new.station ≡ self.old.station }
    {
        if may_be_asked(event) {
            let _ = self.answers.push(recorded(reply));
        }
    }
}

impl<S: Station> Station for Noting<S> {
    ghost State = { S.State };

    ghost state = { λ n. S.state n.station };

    ghost does = { S.does };

    ghost site = { λ n. S.site n.station };

    fn apply(&mut self, event: &Event) -> Result<Reply, Refused> {
        let reply = self.station.apply(event);
        self.note(event, reply);
        reply
    }

    fn table(&self) -> &Checked {
        self.station.table()
    }

    fn sent_count(&self) -> usize {
        self.station.sent_count()
    }

    fn sent_at(&self, place: usize) -> Option<Outgoing<'_>> {
        self.station.sent_at(place)
    }

    fn arrival(&self, place: usize) -> Option<Outgoing<'_>> {
        self.station.arrival(place)
    }

    fn driven(&self, point: PointId) -> Option<Side> {
        self.station.driven(point)
    }
}

impl<S: Pictured> Pictured for Noting<S> {
    ghost lines = { λ n. S.lines n.station };

    fn picture(&self, alloc: Global) -> Result<Vec<PanelLine>, AllocError> {
        self.station.picture(alloc)
    }
}
