//! What the rounds of a node's process come to.

ghost use Rattle.std.specs.Prelude.{◌≡◌, ◌≤◌, ◌<◌, ◌+◌, ◌*◌, ◌∷◌, [], ◌++◌, ℕ, IsSome, List};
ghost use Rattle.std.specs.List.{AllByRecursion};
ghost use Rattle.node_drive.specs.Ages.{SendsBy, SentInTime, WaitedBriefly};
ghost use Rattle.node_drive.specs.Budget.{at_receiver, at_sender, in_network, in_socket, oldest, unseen};
ghost use Rattle.node_drive.specs.Calls.{Call};
ghost use Rattle.node_drive.specs.Lives.{came, inputs_of, state_after};
ghost use Rattle.node_drive.specs.Rounds.{Coming, Datagram, Ends, Standing, all_come};
ghost use Rattle.node_drive.specs.Seen.{all_seen, nothing_seen};
ghost use Rattle.node_drive.specs.Waiting.{Waiting, leaving};
ghost use Rattle.node_drive.specs.Worked.{Worked};
ghost use Rattle.node_drive.specs.declared.outside.Origin.{Origin};
ghost use Rattle.node_drive.specs.declared.outside.ThrownAway.{ThrownAway};
ghost use Rattle.node_lines.specs.ixl_spec.rasta_core.Bag.{lifetime};
ghost use Rattle.node_lines.specs.ixl_spec.rasta_core.time.TheConstants.{LIFETIME};

/// How a kind of node behaves, for the laws. It has no code.
pub trait Behaves {
    ghost use Rattle.node_drive.specs.Kinds.{Kind as NodeKind};

    /// What its answers depend on.
    ghost State: { Type 0 };

    /// What comes to it.
    ghost Input: { Type 0 };

    /// How it behaves.
    ghost does: { NodeKind State Input };
}

/// A node is what came of it by all that came to it, one after another: what waits, what is in force and what is written changes
/// nothing of it.
#[tactic(auto, using(crate::proofs::Lives::node_is_what_came))]
pub fn a_node_is_what_came_to_it<B: Behaves>()
    ensures { (comings : List (ℕ × Coming)) (standing : Standing B.State) → (all_come B.does comings standing).1.state ≡ state_after B.does (came B.does comings standing) standing.state }
{}

/// The last order that was written is what the node's equipment has to do, after all that came to it, where its equipment always
/// does something. It is so at first where the order of a new node was the last that was written before it was made.
#[tactic(auto, using(crate::proofs::LastOrder::last_order_stands))]
pub fn the_last_order_stands<B: Behaves>()
    ensures { ((state : B.State) → IsSome (B.does.order state)) → (comings : List (ℕ × Coming)) (standing : Standing B.State) → standing.course.order ≡ B.does.order standing.state
        → (all_come B.does comings standing).1.course.order ≡ B.does.order (all_come B.does comings standing).1.state }
{}

/// What leaves at a reading is of a step whose line is in force, and waited for less than 500 ms.
#[tactic(auto, using(crate::proofs::Leaving::all_free))]
pub fn datagrams_wait_for_their_line()
    ensures { (now in_force : ℕ) (waiting : List Waiting) → AllByRecursion (λ (one : Waiting). (one.behind ≤ in_force) × (now < one.since + 500)) (leaving now in_force waiting) }
{}

/// What a process keeps of its clock and its socket is what its calls tell.
#[tactic(auto, using(crate::proofs::Ages::all_keep))]
pub fn what_was_seen_was_called<B: Behaves>()
    ensures { (comings : List (ℕ × Coming)) (standing : Standing B.State) → (all_come B.does comings standing).1.course.seen ≡ all_seen (all_come B.does comings standing).0 standing.course.seen }
{}

/// Each datagram that comes to a node has waited for at most 400 ms since none was seen to wait: the reading that was taken once it had
/// come is at most so much later than one after which that was so, by the calls that the process made before. Unseen it may have come
/// less than 90 ms before that.
pub fn what_is_heard_waited_briefly<B: Behaves>()
    ensures { (earlier : List Call) (comings : List (ℕ × Coming)) (standing : Standing B.State) → standing.course.seen ≡ all_seen earlier nothing_seen
        → (now : ℕ) (origin : Origin) (bytes : List ℕ) (thrown : ThrownAway) (ends : Ends) → inputs_of B.does now (Datagram origin bytes thrown ends) (all_come B.does comings standing).1 ≡ (now, B.does.datagram bytes) ∷ []
        → WaitedBriefly now (earlier ++ (all_come B.does comings standing).0) }
{}

/// Each datagram that is sent was handed out by a step less than 500 ms before the last reading in front of it, which is taken once
/// all lines are written.
#[tactic(auto, using(crate::proofs::SentInTime::all_in_time))]
pub fn what_is_sent_is_sent_in_time<B: Behaves>()
    ensures { (comings : List (ℕ × Coming)) (standing : Standing B.State) → SendsBy (SentInTime B.does comings standing) standing.course.seen (all_come B.does comings standing).0 }
{}

/// What a datagram may take from its step to its being heard is `LIFETIME` in all, for which a link has a datagram live, and what the
/// program takes of it is no more than its share.
#[tactic(auto, using(crate::proofs::Budgeted::sum_is, crate::proofs::Budgeted::lives_as_long))]
pub fn the_ages_add_up()
    ensures sum { at_sender + in_network + at_receiver ≡ LIFETIME }
    ensures lifetime { 1000 * oldest ≡ lifetime }
    ensures socket { in_socket + unseen ≤ at_receiver }
{}

/// Rounds worked by hand.
#[tactic(auto, using(crate::proofs::WorkedRounds::worked))]
pub fn rounds_are_as_worked_by_hand()
    ensures { Worked }
{}
