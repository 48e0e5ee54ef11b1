//! What a command changes, what is listed, and which words say what.

ghost use Rattle.std.specs.Prelude.{◌≡◌, ◌⊎◌, ◌↔◌, ℕ, List, Option, Some, true, Contains};
ghost use Rattle.std.specs.List.{list_all};
ghost use Rattle.control_table.specs.bit_row.Places.{Places};
ghost use Rattle.control_table.specs.sci_telegram.declared.message.Side.{Side};
ghost use Rattle.control_table.specs.layout.Entries.{Site};
ghost use Rattle.control_table.specs.layout.Once.{Once};
ghost use Rattle.control_table.specs.layout.Station.{IsStation};
ghost use Rattle.closings.specs.declared.thing.Thing.{Thing};
ghost use Rattle.closings.specs.declared.thing.Named.{Named};
ghost use Rattle.closings.specs.declared.closed.Closings.{Closings};
ghost use Rattle.closings.specs.Things.{HasNamed, HasThing, IsOfTrack, IsTrack, Names};
ghost use Rattle.closings.specs.Closed.{IsClosed, all_track, closed_things, either, nothing, track, with_named, without_named};
ghost use Rattle.closings.specs.Words.{Says, is_plain, named, named_by, words_of};

/// What a command closes or opens is what it names, and nothing else.
pub fn a_command_changes_what_it_names_alone()
    ensures closed { (c : Closings) (n : Named) (t : Thing) → IsClosed (with_named c n) t ↔ (Names n t ⊎ IsClosed c t) }
    ensures opened { (c : Closings) (n : Named) (t : Thing) → IsClosed (without_named c n) t ↔ (¬ (Names n t) × IsClosed c t) }
{}

/// Where nothing is closed no thing is; where all track is closed the sections and points of the layout are, and no
/// signal and no route.
pub fn all_track_is_closed()
    ensures none { (t : Thing) → ¬ (IsClosed nothing t) }
    ensures all { (l : Site) (t : Thing) → IsClosed (all_track l) t ↔ IsTrack l t }
{}

/// What is closed by either of two closings is what one of them closes; and of a track just its sections and its points
/// at both sides are closed.
pub fn what_either_closes_is_closed()
    ensures either { (c d : Closings) (t : Thing) → IsClosed (either c d) t ↔ (IsClosed c t ⊎ IsClosed d t) }
    ensures track { (sections points : Places) (t : Thing) → IsClosed (track sections points) t ↔ IsOfTrack sections points t }
{}

/// The list of what is closed has just the things of the layout that are closed.
pub fn what_is_listed_is_there_and_closed()
    ensures { (l : Site) (c : Closings) (t : Thing) → Contains (closed_things l c) t ↔ (HasThing l t × IsClosed c t) }
{}

/// What a layout has is read as it is written, in letters, digits, hyphens and spaces.
pub fn words_are_read_again()
    ensures read { (l : Site) (n : Named) → Once l → IsStation l → HasNamed l n → named_by l (words_of l n) ≡ Some n }
    ensures plain { (l : Site) (n : Named) → IsStation l → HasNamed l n → list_all is_plain (words_of l n) ≡ true }
{}

/// A name, and a side where there is one, name just what has this name, and is given with this side.
pub fn a_name_names_what_has_it()
    ensures { (l : Site) (n : Named) (word : List ℕ) (side : Option Side) → Once l → (named l word side ≡ Some n) ↔ Says l n word side }
{}

/// What words name is there, and they are its words.
pub fn words_say_what_is_there()
    ensures { (l : Site) (n : Named) (words : List ℕ) → named_by l words ≡ Some n → HasNamed l n × (words ≡ words_of l n) }
{}
