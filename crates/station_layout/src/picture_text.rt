//! The lines of a picture.

ghost use Rattle.std.specs.Prelude.{◌≡◌, [], ◌∷◌, ◌++◌, OnOk, IfErr, Ok};
ghost use Rattle.replay_lines.specs.Given.{Fails};
ghost use Rattle.replay_lines.specs.Text.{Tells};
ghost use Rattle.station_layout.specs.Sightings.{sighting, sightings};
ghost use Rattle.station_layout.specs.declared.sighting.Sighting.{Sighting};

use crate::sighting::{Sighting, read_sighting};
use control_table::Checked;
use replay_lines::SessionFault;
use replay_words::{Fault, Lines, is_passed_over};
use std::alloc::Global;

/// What the lines of a picture say that aren't passed over, or where the first faulty one is. Fault 7 comes only where
/// memory was refused, at the line that was being read.
pub(crate) fn read_sightings(
    alloc: Global,
    table: &Checked,
    text: &str,
) -> Result<Vec<Sighting>, SessionFault>
    ensures { Tells (λ lines. lines.items) (sightings table.now text.now) result }
{
    let mut said = Vec::new(alloc);
    for (number, line) in Lines::of(text) {
        if is_passed_over(line) {
            continue;
        }
        let kept = keep_line(table, line, &mut said);
        if let Err(fault) = kept {
            return Err(SessionFault {
                line: number,
                number: fault.number(),
            });
        }
    }
    Ok(said)
}

/// Keeps what one line says after those before it.
fn keep_line(table: &Checked, line: &str, said: &mut Vec<Sighting>) -> Result<(), Fault>
    ensures ok { OnOk result ((this : Sighting) × (sighting table.now line.now ≡ Ok this) × (said.new.items ≡ said.old.items ++ this ∷ [])) }
    ensures err { IfErr result (λ fault. Fails fault (sighting table.now line.now)) }
{
    let this = read_sighting(table.layout(), line)?;
    said.push(this)?;
    Ok(())
}
