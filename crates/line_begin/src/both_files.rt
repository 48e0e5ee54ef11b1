//! Writing the files of both ends of a line.

ghost use Rattle.std.specs.Prelude.{◌≡◌, None};
ghost use Rattle.line_laws.specs.declared.words.Side.TheVariants.{First, Second};
ghost use Rattle.whole_file.specs.Calls.{failed_call, keep_calls, recorded};
ghost use Rattle.line_begin.specs.Asked.{refusal_of, why_refused};
ghost use Rattle.line_begin.specs.Files.{calls_at, end_text, outcome};

use crate::asked::{Asked, NotBegun, why_refused};
use line_file::{Name, NotKept, Place, Side, beginning, keep};

/// Keeps the file of an end of a line that begins.
fn keep_end<P: Place>(place: &mut P, name: &Name, side: Side) -> Result<(), NotKept>
    ensures { P.calls place.new ≡ recorded (keep_calls (end_text name.now side) (failed_call result)) (P.calls place.old) }
{
    keep(place, name, side, beginning(side))
}

/// Keeps the files of both ends, that of the second end first.
#[tactic(auto, using(crate::proofs::Untouched::nothing_recorded))]
fn keep_both<P: Place>(first: &mut P, second: &mut P, name: &Name) -> Result<(), NotBegun>
    ensures refusal { refusal_of result ≡ None }
    ensures second { P.calls second.new ≡ recorded (calls_at name.now Second (outcome result)) (P.calls second.old) }
    ensures first { P.calls first.new ≡ recorded (calls_at name.now First (outcome result)) (P.calls first.old) }
{
    if let Err(why) = keep_end(second, name, Side::Second) {
        return Err(NotBegun::NotKept(Side::Second, why));
    }
    match keep_end(first, name, Side::First) {
        Ok(()) => Ok(()),
        Err(why) => Err(NotBegun::NotKept(Side::First, why)),
    }
}

/// Begins a line of this name: keeps the files of its two ends, by the places of the first end's file and of the second's. The file of
/// the second end, which has no token, is kept before that of the first is touched. Where it is refused, nothing is written.
#[tactic(auto, using(crate::proofs::Untouched::nothing_recorded))]
pub fn begin<P: Place>(
    first: &mut P,
    second: &mut P,
    name: &Name,
    asked: Asked<'_>,
) -> Result<(), NotBegun>
    ensures refusal { refusal_of result ≡ why_refused name.now asked.entry }
    ensures second { P.calls second.new ≡ recorded (calls_at name.now Second (outcome result)) (P.calls second.old) }
    ensures first { P.calls first.new ≡ recorded (calls_at name.now First (outcome result)) (P.calls first.old) }
{
    match why_refused(name, asked) {
        Some(why) => Err(NotBegun::Refused(why)),
        None => keep_both(first, second, name),
    }
}
