//! What keeps a file of closings beside an interlocking.

ghost use Rattle.std.specs.Prelude.{◌≡◌, None, Err, IfErr, IfOk, IsErr, IsTrue};
ghost use Rattle.std.specs.Option.{option_map};
ghost use Rattle.whole_file.specs.Calls.{recorded};
ghost use Rattle.closings_file.specs.declared.fault.FileFault.TheVariants.{Unreadable};
ghost use Rattle.closings_file.specs.declared.unkept.Unkept.TheVariants.{OutOfMemory};
ghost use Rattle.closings_file.specs.Texts.{heading, writing};
ghost use Rattle.closings_file.specs.Files.{after_keep, file_calls, found_in, found_of, has};

use crate::fault::FileFault;
use crate::found::{Found, found_of};
use crate::reader::read;
use crate::unkept::Unkept;
use crate::writer::{heading, write};
use closings::{AuxiliaryCounts, Closings, Layout};
use std::alloc::{AllocError, Global};
use std::io;
use std::marker::Model;
use whole_file::Place;

/// Keeps the file of what is closed, and of how many auxiliary commands were counted. A command that was accepted takes effect in the interlocking, then its closings are
/// kept, and only then `accepted` may be told, where the keep answered Ok. So the file has what was told to be closed, or
/// more: an `open` takes effect before it leaves the file.
#[derive(Drop)]
pub struct Keeper {
    /// The first line of the file.
    head: String,
    /// What the file has, where that is known.
    known: Option<String>,
}

impl Model for Keeper {
    ghost use Rattle.std.specs.Prelude.{string_bytes};
    ghost use Rattle.std.specs.Option.{option_map};
    ghost use Rattle.closings_file.specs.Files.{KeeperState};

    ghost Value = { KeeperState };

    ghost view = { λ k. record { head = string_bytes k.head; known = option_map string_bytes k.known } };
}

impl Keeper {
    /// For the file of a layout of this digest. What the file has isn't known.
    pub fn new(alloc: Global, digest: &str) -> Result<Keeper, AllocError>
        ensures { IfOk result (λ keeper. keeper ≡ record { head = heading digest.now; known = None }) }
    {
        Ok(Keeper {
            head: heading(alloc, digest)?,
            known: None,
        })
    }

    /// What is closed and counted when a process begins, where this is what the place of its file answered when it was read. Where
    /// the file isn't there, can't be read, is cut off, of another layout, or names what the layout doesn't have, every
    /// section and every point is closed, and none was counted.
    pub fn found(&self, layout: &Layout, answer: io::Result<Option<Vec<u8>>>) -> Found
        ensures read { IfOk answer (λ file. result ≡ found_in layout.now self.now.head (option_map (λ bytes. bytes.items) file)) }
        ensures unreadable { IsErr answer → result ≡ found_of layout.now (Err Unreadable) }
    {
        let said = match answer {
            Ok(Some(bytes)) => read(layout, self.head.as_bytes(), &bytes),
            Ok(None) => Err(FileFault::Missing),
            Err(_) => Err(FileFault::Unreadable),
        };
        found_of(layout, said)
    }

    /// Whether the file is known to have a text.
    fn has(&self, text: &str) -> bool
        ensures { result ≡ has text.now self.now }
    {
        match &self.known {
            Some(known) => known.as_str() == text,
            None => false,
        }
    }

    /// Keeps the file, so that it has what is closed and counted now. Where it is known to have just that, no call is made. Where it
    /// answers Ok the file is on disk; where it doesn't, the next keep tries again.
    pub fn keep<P: Place>(
        &mut self,
        alloc: Global,
        place: &mut P,
        layout: &Layout,
        counts: AuxiliaryCounts,
        closings: &Closings,
    ) -> Result<(), Unkept>
        ensures calls { P.calls place.new ≡ recorded (file_calls (writing layout.now self.old.head counts closings.now) self.old result) (P.calls place.old) }
        ensures keeper { self.new ≡ after_keep (writing layout.now self.old.head counts closings.now) self.old result }
        ensures known { IsTrue (has (writing layout.now self.old.head counts closings.now) self.old) → IfErr result (λ unkept. unkept ≡ OutOfMemory) }
    {
        let Ok(text) = write(alloc, layout, self.head.as_str(), counts, closings) else {
            return Err(Unkept::OutOfMemory);
        };
        if self.has(text.as_str()) {
            return Ok(());
        }
        match whole_file::keep(place, text.as_bytes()) {
            Ok(()) => {
                self.known = Some(text);
                Ok(())
            }
            Err(not_kept) => {
                self.known = None;
                Err(Unkept::Failed(not_kept))
            }
        }
    }
}
