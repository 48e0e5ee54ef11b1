//! Things of a station by their names.

ghost use Rattle.std.specs.Prelude.{◌≡◌, ◌≢◌, ◌++◌, ℕ, List, Some, drop, length};
ghost use Rattle.embedded_ixl.specs.Embedded.{EmbeddedIxlState};
ghost use Rattle.embedded_ixl.specs.Places.{count_of, name_in, place_in};
ghost use Rattle.embedded_ixl.specs.declared.places.Kind.{Kind};
ghost use Rattle.interlocking_c.specs.Kept.{held_interlocking};
ghost use Rattle.interlocking_c.specs.Places.{answer_by_name, answer_to_count, answer_to_name, answer_to_name_in, answer_to_place, answer_to_place_in, kind_of};

use crate::answers::{NOT_STARTED, OK, PLACE, ROOM, VALUE};
use crate::handle::Handle;
use crate::held::Held;
use embedded_ixl::Kind;

/// The kind of a number, if it is that of one.
pub(crate) fn kind_of(number: u32) -> Option<Kind>
    ensures { result ≡ kind_of number }
{
    match number {
        0 => Some(Kind::Signal),
        1 => Some(Kind::Point),
        2 => Some(Kind::Section),
        3 => Some(Kind::Route),
        4 => Some(Kind::Node),
        _ => None,
    }
}

impl Held {
    fn count(&self, kind: Kind) -> usize
        ensures { result ≡ count_of self.now.embedded.interlocking.state.sited.site kind }
    {
        self.embedded.count(kind)
    }

    fn place(&self, kind: u32, name: &[u8], place: &mut usize) -> u32
        ensures answer { result ≡ answer_to_place (kind_of kind) name.now self.now.embedded }
        ensures place { result ≡ 0 → (known : Kind) → kind_of kind ≡ Some known → Some place.new ≡ place_in self.now.embedded.interlocking.state.sited.site known name.now }
        ensures same { result ≢ 0 → place.new ≡ place.old }
    {
        let Some(known) = kind_of(kind) else {
            return VALUE;
        };
        match self.embedded.place(known, name) {
            Some(found) => {
                *place = found;
                OK
            }
            None => PLACE,
        }
    }

    fn name(&self, kind: u32, place: usize, out: &mut [u8], size: &mut usize) -> u32
        ensures answer { result ≡ answer_to_name (length out.old) (kind_of kind) place self.now.embedded }
        ensures name { result ≡ 0 → (known : Kind) (name : List ℕ) → kind_of kind ≡ Some known → name_in self.now.embedded.interlocking.state.sited.site known place ≡ Some name → (size.new ≡ length name) × (out.new ≡ name ++ drop (length name) out.old) }
        ensures same { result ≢ 0 → (size.new ≡ size.old) × (out.new ≡ out.old) }
    {
        let Some(known) = kind_of(kind) else {
            return VALUE;
        };
        let Some(name) = self.embedded.name(known, place) else {
            return PLACE;
        };
        put_name(name.bytes(), out, size)
    }
}

/// Puts a name at the front of `out`, where there is room for it.
fn put_name(name: &[u8], out: &mut [u8], size: &mut usize) -> u32
    ensures answer { result ≡ answer_by_name (length out.old) (Some name.now) }
    ensures name { result ≡ 0 → (size.new ≡ length name.now) × (out.new ≡ name.now ++ drop (length name.now) out.old) }
    ensures same { result ≢ 0 → (size.new ≡ size.old) × (out.new ≡ out.old) }
{
    if out.len() < name.len() {
        return ROOM;
    }
    *size = name.len();
    let (front, _) = out.split_at_mut(name.len());
    front.copy_from_slice(name);
    OK
}

/// How many things of a kind there are: 0 signals, 1 points, 2 sections, 3 routes, 4 nodes.
#[unsafe(no_mangle)]
pub extern "C" fn zendurai_interlocking_count(
    handle: &mut Handle,
    kind: u32,
    count: &mut usize,
) -> u32
    ensures answer { result ≡ answer_to_count (kind_of kind) (held_interlocking handle.old.held) }
    ensures held { handle.new.held ≡ handle.old.held }
    ensures count { result ≡ 0 → (it : EmbeddedIxlState) (known : Kind) → held_interlocking handle.old.held ≡ Some it → kind_of kind ≡ Some known → count.new ≡ count_of it.interlocking.state.sited.site known }
    ensures same { result ≢ 0 → count.new ≡ count.old }
{
    if !handle.is_started() {
        return NOT_STARTED;
    }
    match kind_of(kind) {
        Some(known) => {
            *count = handle.get().count(known);
            OK
        }
        None => VALUE,
    }
}

/// The place of the thing of a kind that has this name, counted from 0.
#[unsafe(no_mangle)]
pub extern "C" fn zendurai_interlocking_place(
    handle: &mut Handle,
    kind: u32,
    name: &[u8],
    place: &mut usize,
) -> u32
    ensures answer { result ≡ answer_to_place_in (kind_of kind) name.now (held_interlocking handle.old.held) }
    ensures held { handle.new.held ≡ handle.old.held }
    ensures place { result ≡ 0 → (it : EmbeddedIxlState) (known : Kind) → held_interlocking handle.old.held ≡ Some it → kind_of kind ≡ Some known → Some place.new ≡ place_in it.interlocking.state.sited.site known name.now }
    ensures same { result ≢ 0 → place.new ≡ place.old }
{
    if !handle.is_started() {
        return NOT_STARTED;
    }
    handle.get().place(kind, name, place)
}

/// Puts the name of the thing of a kind at a place at the front of `out`, and tells its size.
#[unsafe(no_mangle)]
pub extern "C" fn zendurai_interlocking_name(
    handle: &mut Handle,
    kind: u32,
    place: usize,
    out: &mut [u8],
    size: &mut usize,
) -> u32
    ensures answer { result ≡ answer_to_name_in (length out.old) (kind_of kind) place (held_interlocking handle.old.held) }
    ensures held { handle.new.held ≡ handle.old.held }
    ensures name { result ≡ 0 → (it : EmbeddedIxlState) (known : Kind) (name : List ℕ) → held_interlocking handle.old.held ≡ Some it → kind_of kind ≡ Some known → name_in it.interlocking.state.sited.site known place ≡ Some name → (size.new ≡ length name) × (out.new ≡ name ++ drop (length name) out.old) }
    ensures same { result ≢ 0 → (size.new ≡ size.old) × (out.new ≡ out.old) }
{
    if !handle.is_started() {
        return NOT_STARTED;
    }
    handle.get().name(kind, place, out, size)
}
