//! Keeping a file.

ghost use Rattle.std.specs.Prelude.{◌≡◌, IfErr, is_ok};
ghost use Rattle.whole_file.specs.Calls.{failed_call, keep_calls, recorded};

use crate::call::{Call, NotKept};
use crate::place::Place;
use std::io;

/// What failed, if it did.
fn done(call: Call, answer: io::Result<()>) -> Result<(), NotKept>
    ensures done { is_ok result ≡ is_ok answer }
    ensures call { IfErr result (λ not_kept. not_kept.call ≡ call) }
{
    match answer {
        Ok(()) => Ok(()),
        Err(error) => Err(NotKept { call, error }),
    }
}

/// Keeps these bytes: they are written under a new name, synced, put in the place of the old file, and its folder is
/// synced. It answers Ok only where all four were done; with the first that fails it ends.
pub fn keep<P: Place>(place: &mut P, bytes: &[u8]) -> Result<(), NotKept>
    ensures { P.calls place.new ≡ recorded (keep_calls bytes.now (failed_call result)) (P.calls place.old) }
{
    done(Call::Write, place.write_new(bytes))?;
    done(Call::Sync, place.sync_new())?;
    done(Call::Replace, place.replace())?;
    done(Call::SyncFolder, place.sync_folder())
}
