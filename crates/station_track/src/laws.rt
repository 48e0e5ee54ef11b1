//! What holds of the track of every checked layout.

ghost use Rattle.std.specs.Prelude.{◌≡◌, ◌≢◌, ◌<◌, ℕ, true, false, length, List, Option, Some};
ghost use Rattle.std.specs.List.{Contains};
ghost use Rattle.train_machine.specs.Lists.{IsFirst, IsOf};
ghost use Rattle.train_machine.specs.Moves.{May, Move};
ghost use Rattle.train_machine.specs.Promise.{HasWay, IsApart};
ghost use Rattle.train_machine.specs.Run.{MayRun, MayStand, first, right_rules, run};
ghost use Rattle.train_machine.specs.Track as machine;
ghost use Rattle.train_machine.specs.Track.{IsSound};
ghost use Rattle.control_table.specs.bit_row.Places.{Places};
ghost use Rattle.control_table.specs.layout.declared.ids.BorderId.{BorderId};
ghost use Rattle.control_table.specs.layout.declared.ids.RouteId.{RouteId};
ghost use Rattle.control_table.specs.layout.Entries.{RouteEntry, Site};
ghost use Rattle.control_table.specs.layout.Once.{Once};
ghost use Rattle.control_table.specs.layout.Station.{IsStation};
ghost use Rattle.control_table.specs.Topology.{IsRoute};
ghost use Rattle.control_table.specs.Path.{Passage, Path};
ghost use Rattle.control_table.specs.Table.{Sound};
ghost use Rattle.station_track.specs.declared.place.Place.{Place};
ghost use Rattle.station_track.specs.declared.place.Place.TheVariants as place;
ghost use Rattle.station_track.specs.declared.ahead.Ahead.TheVariants.{Onto, Out};
ghost use Rattle.station_track.specs.Ahead.{ComesOnto, ahead};
ghost use Rattle.station_track.specs.Places.{HasPlace, place_at, place_number};
ghost use Rattle.station_track.specs.Ports.{front};
ghost use Rattle.station_track.specs.Throats.{has_signal};
ghost use Rattle.station_track.specs.Meaning.{IsMadeOn, IsNumberOf, IsOutside, MeansPlace, MeansRoute};
ghost use Rattle.station_track.specs.Tracks.{track_of};

/// Each layout whose control table is sound gives a track that is sound. None has to be refused beside what `check` refuses.
pub fn tracks_of_checked_layouts_are_sound()
    ensures { (l : Site) → Once l → IsStation l → Sound l → IsSound (track_of l) }
{}

/// On the track of a checked layout, after every list of moves of the machine of trains from its first state, no two trains stand in one
/// section, and each point under a train stands undriven at its leg (*apart*). Whatever train's head comes onto a point next, the point
/// stands undriven at its leg (*way*).
pub fn trains_are_kept_apart_on_checked_layouts()
    ensures apart { (l : Site) (standing : ℕ → List ℕ) (positions : ℕ → Option machine.Side) (moves : List Move) → Once l → IsStation l → Sound l
        → MayStand (track_of l) standing → MayRun right_rules (track_of l) moves (first standing positions)
        → IsApart (track_of l) (run right_rules (track_of l) moves (first standing positions)) }
    ensures way { (l : Site) (standing : ℕ → List ℕ) (positions : ℕ → Option machine.Side) (moves : List Move) (move : Move) → Once l → IsStation l → Sound l
        → MayStand (track_of l) standing → MayRun right_rules (track_of l) moves (first standing positions)
        → May (track_of l) (run right_rules (track_of l) moves (first standing positions)) move
        → HasWay (track_of l) (run right_rules (track_of l) moves (first standing positions)) move }
{
    train_machine::trains_are_kept_apart();
}

/// A place that is there has a number, which is that of no other place, and each number that has a place is the place's.
pub fn places_have_numbers_of_their_own()
    ensures at { (l : Site) (p : Place) → HasPlace l p → place_at l (place_number l p) ≡ Some p }
    ensures back { (l : Site) (n : ℕ) (p : Place) → place_at l n ≡ Some p → IsNumberOf l n p }
    ensures differ { (l : Site) (p q : Place) → HasPlace l p → HasPlace l q → p ≢ q → place_number l p ≢ place_number l q }
{}

/// What the track says of the number of a place is so in the layout (*place*), and a signal of it is there (*signal*).
pub fn numbers_mean_places()
    ensures place { (l : Site) (n : ℕ) (p : Place) → Once l → IsStation l → IsNumberOf l n p → MeansPlace l n p }
    ensures signal { (l : Site) (n s : ℕ) → (track_of l).signal n ≡ Some s → s < length l.signals }
{}

/// What the track says of a route is so in the table: its entry, and its path, of which each passage is made on its place.
pub fn numbers_mean_routes()
    ensures route { (l : Site) (a : RouteId) (r : RouteEntry) (passages : List Passage) → Once l → IsStation l → IsRoute l a r → Path l r passages → MeansRoute l a r passages }
    ensures passage { (l : Site) (a : RouteId) (r : RouteEntry) (passages : List Passage) → Once l → IsStation l → IsRoute l a r → Path l r passages
        → (g : Passage) → Contains passages g → (p : Place) × IsMadeOn l g p }
{}

/// The head of a train comes onto the place that is ahead: it is joined, and a point that is entered by its tip is left by the leg at which it
/// lies (*onto*). Where a border is ahead, nothing else is (*out*).
pub fn heads_come_onto_what_is_ahead()
    ensures onto { (l : Site) (right : Places) (p q : Place) → Once l → IsStation l → HasPlace l p → ahead l right p ≡ Onto q
        → HasPlace l q × ComesOnto l right (place_number l p) (place_number l q) }
    ensures out { (l : Site) (right : Places) (p : Place) (next : ℕ) → Once l → HasPlace l p → ahead l right p ≡ Out
        → (track_of l).follows (place_number l p) next ≡ true → ⊥ }
{}

/// A throat is what is outside of its border, where a signal stands at the border's own port (*outside*). Otherwise it begins with what is
/// ahead of it, however the points lie (*first*), and lies in sections of the station (*inside*).
pub fn throats_lead_from_borders()
    ensures outside { (l : Site) (b : BorderId) → Once l → IsStation l → has_signal l (front (place.Outside b)) ≡ true → IsOutside l b }
    ensures first { (l : Site) (right : Places) (b : BorderId) (n : ℕ) → has_signal l (front (place.Outside b)) ≡ false → IsFirst n ((track_of l).throat b.0)
        → (p : Place) × (ahead l right (place.Outside b) ≡ Onto p) × (place_number l p ≡ n) }
    ensures inside { (l : Site) (b : BorderId) (n : ℕ) → IsStation l → has_signal l (front (place.Outside b)) ≡ false → IsOf n ((track_of l).throat b.0)
        → (track_of l).section n < length l.sections }
{}
