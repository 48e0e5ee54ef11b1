//! When it is told that a network is lost, or back.

ghost use Rattle.std.specs.Prelude.{◌≡◌, ◌+◌, ◌≤◌, ◌∷◌, ℕ, All, List, Some, true};
ghost use Rattle.datagram_hold.specs.declared.network.Network.{Network as Which};
ghost use Rattle.network_watch.specs.Histories.{IsLost, IsUpSince, Rises, Round, after, came_in, IsBefore, news_in};
ghost use Rattle.network_watch.specs.Worked.{Worked};
ghost use Rattle.network_watch.specs.declared.path_seen.News.TheVariants.{Back, Lost};

/// That a network is lost is told only where it wasn't, where nothing came over it for 1500 ms, and where the link was up all that
/// time: something was sent 1500 ms before or earlier, and from then on again within each 1500 ms.
#[tactic(auto, using(crate::proofs::Told::silent_where_lost, crate::proofs::Told::up_where_lost))]
pub fn lost_is_told_of_silence_alone()
    ensures silent { (over : Which) (last : Round) (rounds : List Round) → Rises (last ∷ rounds) → news_in over (last ∷ rounds) ≡ Some Lost → All (IsBefore over last.reading) (last ∷ rounds) }
    ensures up { (over : Which) (last : Round) (rounds : List Round) → Rises (last ∷ rounds) → news_in over (last ∷ rounds) ≡ Some Lost
        → (since : ℕ) × (since + 1500 ≤ last.reading) × IsUpSince since last.reading (last ∷ rounds) }
{}

/// Where nothing came over a network for 1500 ms, and the link was up all that time, the network is lost at the end of the round:
/// that was told then or before, and it wasn't told back since.
#[tactic(auto, using(crate::proofs::Told::lost_where_silent))]
pub fn each_silence_is_told()
    ensures { (over : Which) (since : ℕ) (last : Round) (rounds : List Round) → Rises (last ∷ rounds) → All (IsBefore over last.reading) (last ∷ rounds) → since + 1500 ≤ last.reading
        → IsUpSince since last.reading (last ∷ rounds) → IsLost over (last ∷ rounds) }
{}

/// That a network is back is told only where something came over it, after it was told lost and nothing else was told since.
#[tactic(auto, using(crate::proofs::Told::lost_where_back))]
pub fn back_is_told_after_lost()
    ensures { (over : Which) (last : Round) (rounds : List Round) → news_in over (last ∷ rounds) ≡ Some Back → (came_in over last ≡ true) × IsLost over rounds }
{}

/// Small runs, worked by hand.
#[tactic(auto, using(crate::proofs::WorkedWatches::worked))]
pub fn watches_are_as_worked_by_hand()
    ensures { Worked }
{}
