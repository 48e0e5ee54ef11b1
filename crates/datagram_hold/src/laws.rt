//! What a hold comes to.

ghost use Rattle.std.specs.Prelude.{◌≡◌, ◌≤◌, ◌<◌, ◌^◌, ◌++◌, [], ℕ, false, true, List, Option, None, Some, IsSome, length, replicate, All, IsPermutation};
ghost use Rattle.datagram_hold.specs.Came.{Came};
ghost use Rattle.datagram_hold.specs.Hold.{HoldState, asked, deadline, handing, is_early, taken};
ghost use Rattle.datagram_hold.specs.Intake.{IntakeCall, IntakeState, ReadsOn, first_ready, intake_run, is_fresh, new_hold};
ghost use Rattle.datagram_hold.specs.Order.{IsNear, IsSettled, LeavesNoGap, round};
ghost use Rattle.datagram_hold.specs.Sequence.{number_of};
ghost use Rattle.datagram_hold.specs.Runs.{Call, IsAskedOut, IsYoung, came, run};
ghost use Rattle.datagram_hold.specs.Worked.{Worked};

/// What is handed out came, each datagram at most once for each time that it came; and what came was handed out or waits: nothing is
/// lost, and nothing is made.
#[tactic(auto, using(crate::proofs::Keeping::all_keep))]
pub fn nothing_is_lost()
    ensures { (calls : List Call) (hold : HoldState) → IsPermutation (hold.held ++ came calls) ((run calls hold).0 ++ (run calls hold).1.held) }
{}

/// Who asked at a reading until there was none leaves nothing waiting that came so long before as the hold lasts. From then on it gets
/// nothing that came longer than that before that reading, where nothing comes that did. So whoever asks at readings that are at most
/// so far apart gets nothing that waited for longer than both together.
#[tactic(auto, using(crate::proofs::Time::young_left))]
pub fn nothing_waits_for_long()
    ensures waits { (now : ℕ) (hold : HoldState) → IsAskedOut now hold → All (IsYoung hold.millis now) hold.held }
    ensures handed { (now bound : ℕ) (hold : HoldState) (calls : List Call) → hold.millis ≤ bound → IsAskedOut now hold → All (IsYoung bound now) (came calls)
        → All (IsYoung bound now) (run calls hold).0 }
{}

/// What isn't 1 to 8 ahead of the number that is expected is handed out by the call by which it comes.
#[tactic(auto, using(crate::proofs::Time::at_once))]
pub fn what_isnt_ahead_is_handed_out_at_once()
    ensures { (one : Came) (hold : HoldState) → is_early hold.expected one ≡ false → taken one hold ≡ handing one hold.held hold }
{}

/// A hold of 0 hands out all that comes, in the order in which it comes, and nothing waits.
#[tactic(auto, using(crate::proofs::Time::none_waits))]
pub fn a_hold_of_0_holds_nothing()
    ensures handed { (calls : List Call) (expected : Option ℕ) → (run calls (record { millis = 0; expected = expected; held = [] })).0 ≡ came calls }
    ensures waits { (calls : List Call) (expected : Option ℕ) → (run calls (record { millis = 0; expected = expected; held = [] })).1.held ≡ [] }
{}

/// Where each datagram that comes is at most 8 ahead of the number that is expected, or behind it, and none waits for too long, what
/// is handed out leaves no gap: each has the number after the one before it, or comes again or late.
#[tactic(auto, using(crate::proofs::Ordered::no_gap, crate::proofs::Ordered::stays_settled))]
pub fn what_is_handed_out_leaves_no_gap()
    ensures gap { (one : Came) (hold : HoldState) → IsSettled hold → 0 < hold.millis → length hold.held < 8 → number_of one.bytes < 2 ^ 32 → IsNear hold.expected one → All (IsYoung hold.millis one.at) hold.held
        → LeavesNoGap hold.expected (run (round one) hold).0 }
    ensures settled { (one : Came) (hold : HoldState) → IsSettled hold → 0 < hold.millis → length hold.held < 8 → number_of one.bytes < 2 ^ 32 → IsNear hold.expected one → All (IsYoung hold.millis one.at) hold.held
        → IsSettled (run (round one) hold).1 }
{}

/// Before its deadline nothing that waits has waited for long enough, and at it something is handed out.
#[tactic(auto, using(crate::proofs::Deadline::one_is_due_then))]
pub fn the_deadline_is_the_first()
    ensures before { (hold : HoldState) (due now : ℕ) → deadline hold ≡ Some due → now < due → All (IsYoung hold.millis now) hold.held }
    ensures then { (hold : HoldState) (due : ℕ) → deadline hold ≡ Some due → due < 18446744073709551615 → IsSome (asked due hold).0 }
{}

/// Where at a reading each network was found empty less than so long before, and nothing is left to be handed out, all that an intake
/// hands out from then on came less than that before the reading, or after it: each datagram counts from the reading before its own
/// network was last found empty. The holds last no longer than that, and the clock doesn't fall.
pub fn nothing_is_older()
    ensures { (bound : ℕ) (intake : IntakeState) (calls : List IntakeCall) → 0 < bound → All (λ (hold : HoldState). hold.millis ≤ bound) intake.holds
        → first_ready intake.latest intake.holds ≡ None → is_fresh bound intake ≡ true → ReadsOn intake.latest calls → All (IsYoung bound intake.latest) (intake_run calls intake).0 }
{}

/// The holds of an intake last as long as it was made for, whatever is called.
pub fn holds_last_as_long()
    ensures first { (senders millis : ℕ) → All (λ (hold : HoldState). hold.millis ≡ millis) (replicate senders (new_hold millis)) }
    ensures kept { (millis : ℕ) (calls : List IntakeCall) (intake : IntakeState) → All (λ (hold : HoldState). hold.millis ≡ millis) intake.holds
        → All (λ (hold : HoldState). hold.millis ≡ millis) (intake_run calls intake).1.holds }
{}

/// Small runs, worked by hand: what was overtaken, what comes again or late, numbers that go round, partners that begin anew, damaged
/// numbers, and more than 8 that wait.
#[tactic(auto, using(crate::proofs::WorkedHolds::worked))]
pub fn holds_are_as_worked_by_hand()
    ensures { Worked }
{}
