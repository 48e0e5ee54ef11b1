//! The host of an end of a line.

ghost use Rattle.std.specs.Prelude.{◌≡◌, ◌↔◌, ◌≤◌, ◌⊎◌, ℕ, true, false, [], Some, None, Ok, IfOk, IfErr, IfSome, IsOk, IsErr, IsTrue, drop, length, slice_get};
ghost use Rattle.std.specs.Option.{option_map};
ghost use Rattle.rasta_core.specs.Calls.{MayStep, created};
ghost use Rattle.rasta_core.specs.Outbox.{HasRoomFor};
ghost use Rattle.whole_file.specs.Calls.{failed_call, recorded};
ghost use Rattle.line_laws.specs.End.{File, file_of};
ghost use Rattle.line_host.specs.Sites.{kept_file};
ghost use Rattle.line_host.specs.Talk.{Stays};
ghost use Rattle.line_host.specs.Host.{begun, emptied, file_calls, given, host_step, identity_of, left, looked, new_host, reported, ticked, to_do, told, writes};

use crate::input::Input;
use crate::parties::Parties;
use crate::report::Report;
use crate::talk::{Taken, Talk};
use arrayvec::ArrayVec;
use line_end::{Kept, LineEnd, Output, Seen, Side, lock_moves_only_where_driven};
use line_file::Name;
use line_laws::Item;
use line_telegram::Greeting;
use rasta_core::{Link, Millis, Outbox, Start};
use rasta_pdu::Datagram;
use std::alloc::{AllocError, Global};
use std::marker::Model;
use whole_file::{NotKept, Place};

/// An end of a line with its link, the greeting of its connection, and what it keeps.
#[derive(Drop)]
pub struct LineHost {
    talk: Talk,
    end: LineEnd,
    line: Name,
    busy: bool,
    over: bool,
}

impl Model for LineHost {
    ghost use Rattle.std.specs.Prelude.{◌≡◌};
    ghost use Rattle.line_host.specs.Host.{HostState};

    ghost Value = { HostState };

    ghost view = { λ h. record { talk = h.talk; end = h.end; line = h.line; busy = h.busy; over = h.over } };

    ghost invariant = { λ h. h.talk.outbox.capacity ≡ 128 };
}

/// For how many links the outbox has room: a step hands out fewer than two links may.
const OWN_LINKS: usize = 2;

/// The link of an end: the first end is its client.
fn new_link(alloc: Global, parties: &Parties, start: Start) -> Result<Link, AllocError>
    ensures { IfOk result (λ link. link ≡ created (identity_of parties.now) start.first_sequence_number start.now) }
{
    let Start {
        first_sequence_number,
        now,
    } = start;
    match parties.side {
        Side::First => Link::client(
            alloc,
            parties.own,
            parties.partner,
            parties.key,
            first_sequence_number,
            now,
        ),
        Side::Second => Link::server(
            alloc,
            parties.own,
            parties.partner,
            parties.key,
            first_sequence_number,
            now,
        ),
    }
}

impl LineHost {
    /// The host of an end that is made anew from what its file has. Its link isn't in a connection.
    pub fn new(
        alloc: Global,
        parties: Parties,
        start: Start,
        version: u8,
        kept: Kept,
    ) -> Result<LineHost, AllocError>
        ensures { IfOk result (λ host. host ≡ new_host parties start.first_sequence_number start.now version kept) }
    {
        let talk = Talk {
            link: new_link(alloc, &parties, start)?,
            greeting: Greeting::new(parties.side, version),
            own_name: parties.own_name,
            peer_name: parties.peer_name,
            outbox: Outbox::for_links(alloc, OWN_LINKS)?,
        };
        Ok(LineHost {
            talk,
            end: LineEnd::new(parties.side, kept),
            line: parties.line,
            busy: true,
            over: false,
        })
    }

    /// Whether a step at this clock reading may be made: the clock hasn't fallen.
    pub fn may_step(&self, now: Millis) -> bool
        ensures { IsTrue result ↔ MayStep now self.now.talk.link }
    {
        self.talk.link.may_step(now)
    }

    /// Whether the file couldn't be kept: the end makes no more steps.
    pub fn is_over(&self) -> bool
        ensures { result ≡ self.now.over }
    {
        self.over
    }

    /// Takes out all datagrams.
    fn clear(&mut self)
        ensures host { self.new ≡ emptied self.old }
        ensures room { HasRoomFor 128 self.new.talk.outbox }
    {
        self.talk.empty();
    }

    /// The file couldn't be kept: nothing leaves, and the end is over.
    fn give_up(&mut self)
        ensures { self.new ≡ record (emptied self.old) { over = true } }
    {
        self.talk.empty();
        self.over = true;
    }

    /// Where the link isn't joined, the end is out of any connection.
    fn leave(&mut self)
        ensures { self.new ≡ left self.old }
    {
        if !self.talk.is_joined() {
            self.end.unlink();
        }
    }

    /// The clock rules of the link, and a loss that they bring.
    #[tactic(auto, using(crate::proofs::Staying::then_stays, crate::proofs::Staying::more_stays, crate::proofs::Staying::at_once), unfolding(crate::specs::Host::begun))]
    fn begin(&mut self, now: Millis)
        requires clock { MayStep now self.old.talk.link }
        requires room { HasRoomFor 26 self.old.talk.outbox }
        ensures host { self.new ≡ begun now self.old }
        ensures stays { Stays now 2 self.old.talk self.new.talk }
    {
        self.talk.settle(now);
        self.talk.meet(now);
        self.leave();
    }

    /// What the step is made for. It answers what is told to the end of the line.
    #[tactic(auto, using(crate::proofs::Staying::then_stays, crate::proofs::Staying::more_stays, crate::proofs::Staying::at_once), unfolding(crate::specs::Host::given))]
    fn give(&mut self, now: Millis, input: &Input) -> Taken
        requires clock { self.old.talk.link.clock ≡ now }
        requires room { HasRoomFor 56 self.old.talk.outbox }
        ensures given { record { host = self.new; items = result.items } ≡ given now input.now self.old }
        ensures stays { Stays now 30 self.old.talk self.new.talk }
    {
        match input {
            Input::Datagram(datagram) => self.talk.hear(now, datagram),
            Input::Tick | Input::Look => ArrayVec::new(),
        }
    }

    /// The end makes its step.
    fn look(&mut self, seen: &Seen, items: &[Item]) -> Output
        ensures host { self.new ≡ looked seen.now (record { host = self.old; items = items.now }) }
        ensures output { result ≡ to_do seen.now (record { host = self.old; items = items.now }) }
    {
        self.busy = seen.busy();
        let up = self.talk.is_joined();
        self.end.step(up, seen, items)
    }

    /// The file of the end is kept, if it is to be.
    fn keep<P: Place>(&self, place: &mut P, written: Option<Kept>) -> Result<(), NotKept>
        ensures { P.calls place.new ≡ recorded (file_calls self.now.line self.now.end.side written (failed_call result)) (P.calls place.old) }
    {
        match written {
            Some(kept) => line_file::keep(place, &self.line, self.end.side(), kept),
            None => Ok(()),
        }
    }

    /// What a tick does: the heartbeat that is due, and the first end opens a link that is down.
    #[tactic(auto, using(crate::proofs::Staying::then_stays, crate::proofs::Staying::more_stays, crate::proofs::Staying::at_once), unfolding(crate::specs::Host::ticked))]
    fn tick(&mut self, now: Millis, input: &Input)
        requires clock { self.old.talk.link.clock ≡ now }
        requires room { HasRoomFor 26 self.old.talk.outbox }
        ensures host { self.new ≡ record self.old { talk = ticked now input.now self.old.talk } }
        ensures stays { Stays now 2 self.old.talk self.new.talk }
    {
        if matches!(input, Input::Tick) {
            self.talk.beat(now);
            self.talk.open(now);
        }
    }

    /// What the end said goes to its partner.
    #[tactic(auto, using(crate::proofs::Staying::then_stays, crate::proofs::Staying::more_stays, crate::proofs::Staying::at_once))]
    fn tell(&mut self, now: Millis, input: &Input, items: &[Item])
        requires clock { self.old.talk.link.clock ≡ now }
        requires room { HasRoomFor 40 self.old.talk.outbox }
        requires few { length items.now ≤ 5 }
        ensures told { self.new ≡ told now input.now items.now self.old }
        ensures stays { Stays now 12 self.old.talk self.new.talk }
    {
        self.talk.give_all(now, items);
        self.tick(now, input);
        self.leave();
    }

    /// A step at a clock reading that hasn't fallen: the clock, the input, and then the end looks. Where the token came or
    /// went, or the lock moved, the file is kept; only then the datagrams of the step are there to be taken, and the
    /// report. Where that fails the end is over.
    pub fn step<P: Place>(
        &mut self,
        place: &mut P,
        now: Millis,
        input: &Input,
        seen: &Seen,
    ) -> Result<(), NotKept>
        requires clock { MayStep now self.old.talk.link }
        requires going { self.old.over ≡ false }
        ensures done { IsOk result → self.new ≡ host_step now input.now seen.now (emptied self.old) }
        ensures over { IsErr result → (self.new.over ≡ true) × (self.new.talk.outbox.datagrams ≡ []) }
        ensures file { P.calls place.new ≡ recorded (file_calls self.old.line self.old.end.side (writes now input.now seen.now (emptied self.old)) (failed_call result)) (P.calls place.old) }
    {
        self.clear();
        self.begin(now);
        let items = self.give(now, input);
        let output = self.look(seen, items.as_slice());
        match self.keep(place, output.written()) {
            Ok(()) => {
                self.tell(now, input, output.items());
                Ok(())
            }
            Err(fault) => {
                self.give_up();
                Err(fault)
            }
        }
    }

    /// The same step of a host whose caller keeps the file. It answers what is to be kept, if the file is to change: nothing of
    /// the step may leave before that is on disk.
    pub fn step_kept_by_caller(&mut self, now: Millis, input: &Input, seen: &Seen) -> Option<Kept>
        requires clock { MayStep now self.old.talk.link }
        requires going { self.old.over ≡ false }
        ensures host { self.new ≡ host_step now input.now seen.now (emptied self.old) }
        ensures written { result ≡ writes now input.now seen.now (emptied self.old) }
        // What the file has where it is kept is the token and the lock of the end, as before.
        ensures kept { (file : File) → file ≡ file_of self.old.end.end → kept_file result file ≡ file_of self.new.end.end }
        // The lock moves only where it is driven.
        ensures lock { (self.new.end.end.lock ≡ self.old.end.end.lock) ⊎ (seen.now.drive ≡ Some self.new.end.end.lock) }
        ensures clock { self.new.talk.link.clock ≡ now }
        ensures going { self.new.over ≡ false }
        ensures few { length self.new.talk.outbox.datagrams ≤ 44 }
    {
        lock_moves_only_where_driven();
        self.clear();
        self.begin(now);
        let items = self.give(now, input);
        let output = self.look(seen, items.as_slice());
        self.tell(now, input, output.items());
        output.written()
    }

    /// Takes the oldest datagram of the last step out. Of an end that is over none is left.
    pub fn take_first(&mut self) -> Option<Datagram>
        ensures value { option_map (λ d. d.items) result ≡ slice_get self.old.talk.outbox.datagrams 0 }
        ensures rest { self.new ≡ record self.old { talk = record self.old.talk { outbox = record self.old.talk.outbox { datagrams = drop 1 self.old.talk.outbox.datagrams } } } }
    {
        self.talk.take_first()
    }

    /// What the end tells its station and its operator, none where it is over.
    pub fn report(&self) -> Option<Report>
        ensures { result ≡ reported self.now }
    {
        if self.over {
            return None;
        }
        Some(Report {
            lock: self.end.lock(),
            clear: self.end.tells_clear(self.busy),
            token: self.end.has_token(),
            asked: self.end.is_asked(),
            joined: self.talk.is_joined(),
        })
    }
}
