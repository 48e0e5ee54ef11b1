//! The sections of a detector, as C tells them.

ghost use Rattle.std.specs.Prelude.{◌≡◌, ◌≤◌, ◌+◌, ◌++◌, ℕ, List, IfSome, IsSome, length, drop, map};
ghost use Rattle.sci_telegram.specs.Names.{IsName};
ghost use Rattle.sci_telegram.specs.declared.message.Occupancy.{Occupancy};
ghost use Rattle.tds_ctl.specs.Sections.{made};
ghost use Rattle.controllers_c.specs.Sections.{AreNamed, occupancy_of, sensed_by, spelled, spelled_all};

use object_host::Sense;
use sci_telegram::{Name, Occupancy};
use tds_ctl::Detection;

/// How many sections a detector has at most.
const MOST: usize = 16;

/// What stands before a name: how its section stands, and how many bytes the name has.
const HEAD: usize = 2;

/// The state of a number, if it is that of one.
fn occupancy_of(number: u32) -> Option<Occupancy>
    ensures { result ≡ occupancy_of number }
{
    match number {
        0 => Some(Occupancy::Clear),
        1 => Some(Occupancy::Occupied),
        _ => None,
    }
}

/// What the contacts of a section tell by a number.
pub(crate) fn contact_of(place: usize, number: u32) -> Option<Sense>
    ensures { result ≡ sensed_by place (occupancy_of number) }
{
    match occupancy_of(number) {
        Some(occupancy) => Some(Sense::Section(place, occupancy)),
        None => None,
    }
}

/// A name that stands where no section does.
fn no_section() -> Name {
    match Name::of(b"-") {
        Some(name) => name,
        None => unreachable!(),
    }
}

/// The section that is spelled at the front of bytes, if there is one.
fn first_section(bytes: &[u8]) -> Option<(Name, Occupancy)>
    ensures spelled { IfSome result (λ section. bytes.now ≡ spelled section ++ drop (2 + length section.0) bytes.now) }
    ensures within { IfSome result (λ section. 2 + length section.0 ≤ length bytes.now) }
    ensures only { (section : List ℕ × Occupancy) (more : List ℕ) → IsName section.0 → bytes.now ≡ spelled section ++ more → IsSome result }
{
    if bytes.len() < HEAD {
        return None;
    }
    let occupancy = occupancy_of(u32::from(bytes[0]))?;
    let length = usize::from(bytes[1]);
    let (_, after) = bytes.split_at(HEAD);
    if after.len() < length {
        return None;
    }
    let (front, _) = after.split_at(length);
    let name = Name::of(front)?;
    Some((name, occupancy))
}

/// The detector of these sections, of which there are at most 16.
pub(crate) fn detection_of(bytes: &[u8]) -> Option<Detection>
    ensures told { IfSome result (λ detection. (sections : List (List ℕ × Occupancy)) × (detection ≡ map made sections) × (bytes.now ≡ spelled_all sections) × (length sections ≤ 16)) }
    ensures only { (sections : List (List ℕ × Occupancy)) → AreNamed sections → length sections ≤ 16 → bytes.now ≡ spelled_all sections → IsSome result }
{
    let mut sections = [(no_section(), Occupancy::Clear); MOST];
    let mut count = 0;
    let mut rest = bytes;
    while !rest.is_empty() {
        if count >= MOST {
            return None;
        }
        let section = first_section(rest)?;
        let (_, more) = rest.split_at(HEAD + section.0.bytes().len());
        sections[count] = section;
        count += 1;
        rest = more;
    }
    let (told, _) = sections.split_at(count);
    Some(Detection::new(told))
}
