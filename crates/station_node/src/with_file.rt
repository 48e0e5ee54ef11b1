//! What the process of an interlocking has outside, with the file of what is closed and counted.

ghost use Rattle.std.specs.Prelude.{◌≡◌, ◌∷◌, [], None, IfErr, IfOk, IsTrue, OnErr, OnOk, is_ok};
ghost use Rattle.closings_file.specs.declared.unkept.Unkept.TheVariants.{OutOfMemory};
ghost use Rattle.closings_file.specs.Files.{after_keep, file_calls, has};
ghost use Rattle.closings_file.specs.Texts.{heading, writing};
ghost use Rattle.node_kinds.specs.node_drive.Calls.{AsksDatagram, AsksLine, AsksListener, BreaksOff, Complains, Keeps, Reads, Rests, Sends, ThrowsAway, Writes, datagram_heard, line_heard};
ghost use Rattle.station_node.specs.Closings.{IsKept};
ghost use Rattle.station_node.specs.Takeover.{CallsUntold, Finds, TakesOver, untold};
ghost use Rattle.whole_file.specs.Calls.{recorded};

use crate::takeover::{Takeover, take_over};
use closings_file::{Keeper, Place, Unkept};
use node_kinds::Fault;
use node_kinds::node_drive::node_lines::AuxiliaryCounts;
use node_kinds::node_drive::{
    BrokenOff, NextDatagram, NextLine, NodeId, Outside, ThrownAway, ToKeep,
};
use node_kinds::simulator_spec::Layout;
use std::alloc::{AllocError, Global};
use std::io::Eprint;
use whole_file::Call;

/// What is told of a file that lacks what was to be kept last.
const UNKEPT: &str = "closings not kept";

/// What the process of an interlocking has outside, with the file of what is closed. A process that begins tells its node to close
/// each thing that the file has, by lines as those of an operator, before it hears anything else. What is to be kept is in the file
/// on disk before a line of its step goes out. It tells no calls.
pub struct WithFile<'a, O, P, E> {
    alloc: Global,
    layout: &'a Layout,
    outside: O,
    place: P,
    keeper: Keeper,
    /// What the process found in the file, and how far its node is told that.
    takeover: Takeover,
    /// Whether the file lacks what was to be kept last.
    is_unkept: bool,
    /// Where it is told why a file can't be read or written.
    complaints: &'a E,
}

// Written by hand, so that it is proved and compiled here alone.
impl<O: Drop, P: Drop, E> Drop for WithFile<'_, O, P, E> {
    fn drop(self) {
        let Self {
            alloc: _,
            layout: _,
            outside: _,
            place: _,
            keeper: _,
            takeover: _,
            is_unkept: _,
            complaints: _,
        } = self;
    }
}

/// What failed as a file was to be kept.
fn failed_word(unkept: &Unkept) -> &'static str {
    match unkept {
        Unkept::OutOfMemory => "memory is lacking",
        Unkept::Failed(not_kept) => match not_kept.call {
            Call::Write => "it can't be written",
            Call::Sync => "it can't be synced",
            Call::Replace => "it can't be renamed",
            Call::SyncFolder => "its folder can't be synced",
        },
    }
}

impl<'a, O: Outside + Drop, P: Place + Drop, E: Eprint> WithFile<'a, O, P, E> {
    /// A process that begins, in a station of this layout, whose text has this digest.
    pub fn begin(
        alloc: Global,
        layout: &'a Layout,
        digest: &str,
        outside: O,
        place: P,
        complaints: &'a E,
    ) -> Result<WithFile<'a, O, P, E>, AllocError>
        ensures outside { IfOk result (λ with. with.outside ≡ outside) }
        ensures layout { IfOk result (λ with. with.layout.now ≡ layout.now) }
        ensures keeper { IfOk result (λ with. with.keeper ≡ record { head = heading digest.now; known = None }) }
        ensures takeover { IfOk result (λ with. Finds layout.now (heading digest.now) with.takeover) }
    {
        let keeper = Keeper::new(alloc, digest)?;
        let takeover = take_over(alloc, layout, &keeper, place.read())?;
        if let Some(fault) = takeover.found().fault {
            // Where this can't be written, the operator is told all the same.
            let _ = complaints.eprintln(format_args!("closings lost: {fault}"));
        }
        Ok(WithFile {
            alloc,
            layout,
            outside,
            place,
            keeper,
            takeover,
            is_unkept: false,
            complaints,
        })
    }
}

impl<'a, O: Outside, P: Place, E: Eprint> WithFile<'a, O, P, E> {
    /// How many auxiliary commands were counted before, by what the process found.
    pub fn counts(&self) -> AuxiliaryCounts
        ensures { result ≡ self.now.takeover.found.counts }
    {
        self.takeover.found().counts
    }

    /// The file is written so that it has all this, where it isn't known to have it.
    fn keep_all(&mut self, all: ToKeep) -> Result<(), Unkept>
        ensures calls { P.calls self.new.place ≡ recorded (file_calls (writing self.old.layout.now self.old.keeper.head all.counts all.closings) self.old.keeper result) (P.calls self.old.place) }
        ensures keeper { self.new.keeper ≡ after_keep (writing self.old.layout.now self.old.keeper.head all.counts all.closings) self.old.keeper result }
        ensures known { IsTrue (has (writing self.old.layout.now self.old.keeper.head all.counts all.closings) self.old.keeper) → IfErr result (λ unkept. unkept ≡ OutOfMemory) }
        ensures others { self.new ≡ record self.old { keeper = self.new.keeper; place = self.new.place } }
    {
        self.keeper.keep(
            self.alloc,
            &mut self.place,
            self.layout,
            all.counts,
            &all.closings,
        )
    }

    /// Whether a file was kept. The first failure after a success is told on standard error.
    fn note(&mut self, kept: Result<(), Unkept>) -> bool
        ensures answer { result ≡ is_ok kept }
        ensures others { self.new ≡ record self.old { is_unkept = self.new.is_unkept } }
    {
        let Err(unkept) = kept else {
            self.is_unkept = false;
            return true;
        };
        if !self.is_unkept {
            self.is_unkept = true;
            let why = failed_word(&unkept);
            // Where this can't be written, the operator is told all the same.
            let _ = self
                .complaints
                .eprintln(format_args!("closings not kept: {why}"));
        }
        false
    }

    /// An operator who begins to listen is told why the file wasn't taken at its word, and that it lacks what was to be kept last. A
    /// line that can't be written isn't told.
    fn tell(&mut self) -> Result<(), AllocError>
        ensures clock { (O.told self.new.outside).latest ≡ (O.told self.old.outside).latest }
        ensures others { self.new ≡ record self.old { outside = self.new.outside } }
    {
        if let Some(fault) = self.takeover.found().fault {
            let line = format!(in self.alloc; "closings lost: {fault}")?;
            let _ = self.outside.write_line(line.as_str());
        }
        if self.is_unkept {
            let _ = self.outside.write_line(UNKEPT);
        }
        Ok(())
    }
}

impl<'a, O: Outside, P: Place, E: Eprint> Outside for WithFile<'a, O, P, E> {
    ghost told = { λ with. untold (O.told with.outside) };

    #[tactic(auto, using(crate::proofs::Silent::silent, crate::proofs::Silent::silent_then))]
    fn rest(&mut self)
        ensures calls { CallsUntold (O.told self.old.outside) (O.told self.new.outside) (Rests ∷ []) }
        ensures others { self.new ≡ record self.old { outside = self.new.outside } }
    {
        self.outside.rest();
    }

    #[tactic(auto, using(crate::proofs::Silent::silent, crate::proofs::Silent::silent_then))]
    fn read_clock(&mut self) -> u64
        ensures calls { CallsUntold (O.told self.old.outside) (O.told self.new.outside) (Reads result ∷ []) }
        ensures others { self.new ≡ record self.old { outside = self.new.outside } }
    {
        self.outside.read_clock()
    }

    /// The operator isn't let in before the node was told all.
    #[tactic(auto, using(crate::proofs::Silent::silent, crate::proofs::Silent::silent_then))]
    fn has_listener(&mut self) -> bool
        ensures calls { CallsUntold (O.told self.old.outside) (O.told self.new.outside) (AsksListener result ∷ []) }
        ensures takeover { TakesOver self.old.layout.now (AsksListener result) self.old.takeover self.new.takeover }
        ensures others { self.new ≡ record self.old { outside = self.new.outside; takeover = self.new.takeover } }
    {
        if !self.takeover.lets_in() {
            return false;
        }
        let began = self.outside.has_listener();
        if began {
            // Where memory is lacking for a line, those after it aren't told.
            let _ = self.tell();
        }
        began
    }

    /// Nobody speaks before the operator may listen.
    #[tactic(auto, using(crate::proofs::Silent::silent, crate::proofs::Silent::silent_then))]
    fn next_line(&mut self, alloc: Global) -> Result<NextLine, AllocError>
        ensures heard { IfOk result (λ line. CallsUntold (O.told self.old.outside) (O.told self.new.outside) (AsksLine (line_heard line) ∷ [])) }
        ensures none { OnErr result (CallsUntold (O.told self.old.outside) (O.told self.new.outside) []) }
        ensures takeover { IfOk result (λ line. TakesOver self.old.layout.now (AsksLine (line_heard line)) self.old.takeover self.new.takeover) }
        ensures unasked { OnErr result (self.new.takeover ≡ self.old.takeover) }
        ensures quiet { IsTrue self.old.takeover.giving → self.new.outside ≡ self.old.outside }
        ensures others { self.new ≡ record self.old { outside = self.new.outside; takeover = self.new.takeover } }
    {
        if self.takeover.is_giving() {
            return self.takeover.next_line(alloc, self.layout);
        }
        self.outside.next_line(alloc)
    }

    /// No datagram is heard before the node was told all.
    #[tactic(auto, using(crate::proofs::Silent::silent, crate::proofs::Silent::silent_then))]
    fn next_datagram(&mut self) -> NextDatagram
        ensures calls { CallsUntold (O.told self.old.outside) (O.told self.new.outside) (AsksDatagram (datagram_heard result) ∷ []) }
        ensures takeover { TakesOver self.old.layout.now (AsksDatagram (datagram_heard result)) self.old.takeover self.new.takeover }
        ensures quiet { IsTrue self.old.takeover.giving → self.new.outside ≡ self.old.outside }
        ensures others { self.new ≡ record self.old { outside = self.new.outside } }
    {
        if self.takeover.is_giving() {
            return NextDatagram::Failed;
        }
        self.outside.next_datagram()
    }

    #[tactic(auto, using(crate::proofs::Silent::silent, crate::proofs::Silent::silent_then))]
    fn throw_away(&mut self) -> ThrownAway
        ensures calls { CallsUntold (O.told self.old.outside) (O.told self.new.outside) (ThrowsAway result.count result.found_empty ∷ []) }
        ensures others { self.new ≡ record self.old { outside = self.new.outside } }
    {
        self.outside.throw_away()
    }

    /// Before an operator may listen a line goes nowhere.
    #[tactic(auto, using(crate::proofs::Silent::silent_done, crate::proofs::Silent::silent_failed))]
    fn write_line(&mut self, text: &str) -> Result<(), BrokenOff>
        ensures done { OnOk result (CallsUntold (O.told self.old.outside) (O.told self.new.outside) (Writes text.now ∷ [])) }
        ensures failed { OnErr result (CallsUntold (O.told self.old.outside) (O.told self.new.outside) (BreaksOff text.now ∷ [])) }
        ensures quiet { IsTrue self.old.takeover.giving → self.new.outside ≡ self.old.outside }
        ensures others { self.new ≡ record self.old { outside = self.new.outside } }
    {
        if self.takeover.is_giving() {
            return Ok(());
        }
        self.outside.write_line(text)
    }

    #[tactic(auto, using(crate::proofs::Silent::silent, crate::proofs::Silent::silent_then))]
    fn send(&mut self, to: NodeId, bytes: &[u8])
        ensures calls { CallsUntold (O.told self.old.outside) (O.told self.new.outside) (Sends to bytes.now ∷ []) }
        ensures others { self.new ≡ record self.old { outside = self.new.outside } }
    {
        self.outside.send(to, bytes);
    }

    #[tactic(auto, using(crate::proofs::Silent::silent, crate::proofs::Silent::silent_then))]
    fn complain(&mut self, line: u64, fault: Fault)
        ensures calls { CallsUntold (O.told self.old.outside) (O.told self.new.outside) (Complains line fault ∷ []) }
        ensures others { self.new ≡ record self.old { outside = self.new.outside } }
    {
        self.outside.complain(line, fault);
    }

    #[tactic(auto, using(crate::proofs::Silent::silent, crate::proofs::Silent::silent_then))]
    fn keep(&mut self, all: ToKeep) -> bool
        ensures calls { CallsUntold (O.told self.old.outside) (O.told self.new.outside) (Keeps all result ∷ []) }
        ensures kept { IsKept self.old.layout.now self.old.takeover all self.old.keeper self.new.keeper (P.calls self.old.place) (P.calls self.new.place) result }
        ensures others { self.new ≡ record self.old { keeper = self.new.keeper; place = self.new.place; is_unkept = self.new.is_unkept } }
    {
        let all = self.takeover.all_to_keep(all);
        let kept = self.keep_all(all);
        self.note(kept)
    }
}
