//! What holds of every step of a host, for every lawful object.

ghost use Rattle.std.specs.Prelude.{◌≡◌, ◌≤◌, ℕ, true, false, List};
ghost use Rattle.rasta_core.specs.Clock.{settled};
ghost use Rattle.rasta_core.specs.State.{LinkState, is_open};
ghost use Rattle.rasta_core.specs.identity.Identity.{Identity};
ghost use Rattle.object_host.specs.Host.{HostState, LinkCall, is_completed};
ghost use Rattle.object_host.specs.Hosted.{IsHosted, IsNamedAs, IsSteady, new_host};
ghost use Rattle.object_host.specs.Made.{ActsOn, AreCallsFor, AreOwn, IsMadeOf, calls_made, items_taken};
ghost use Rattle.object_host.specs.Step.{host_step};
ghost use Rattle.object_host.specs.Told.{IsToldIn};
ghost use Rattle.object_host.specs.declared.input.Input.{Input};

use crate::controller::Controller;

/// A step is a list of calls of the link at its clock, once the clock rules were applied. A datagram is received first;
/// all other calls are the host's own.
#[tactic(auto, using(crate::proofs::Made::step_made, crate::proofs::Made::step_calls))]
pub fn step_is_calls<C: Controller>()
    ensures first { (now : ℕ) (input : Input) (host : HostState C) → AreCallsFor input (host_step C.behaviour now input host).calls }
    ensures made { (now : ℕ) (input : Input) (host : HostState C) → IsMadeOf now (settled now host.link) (host_step C.behaviour now input host) }
{}

/// The object is told what the items taken in a step command, in order and each once, up to one that closes the link.
#[tactic(auto, using(crate::proofs::Acts::step_acts))]
pub fn step_tells_what_was_taken<C: Controller>()
    ensures { (now : ℕ) (input : Input) (host : HostState C) → ActsOn (items_taken now (host_step C.behaviour now input host).calls (settled now host.link)) (host_step C.behaviour now input host) }
{}

/// What a step does to its object is a list of the object's calls, in the order of a step and at its clock reading. What
/// is sent are first the telegrams of the initialisation, and then the reports that are paid, each as it was owed then.
#[tactic(auto, using(crate::proofs::Told::step_told))]
pub fn step_is_told_to_the_object<C: Controller>()
    ensures { (now : ℕ) (input : Input) (host : HostState C) → IsToldIn C.behaviour now input host (host_step C.behaviour now input host) }
{}

/// A new host is as a host always is between its steps. The clock rules leave it steady, and a step makes a steady one so
/// again. Every step keeps the names. Once the initialisation
/// was completed it stays so while the link is open.
#[tactic(auto, using(crate::proofs::Keeps::step_names, crate::proofs::Keeps::step_completed))]
pub fn steps_keep_a_host<C: Controller>()
    ensures new { (identity : Identity) (own_name peer_name : List ℕ) (first_sequence_number now : ℕ) (object : C) (version : ℕ) → IsHosted C.behaviour (new_host C.behaviour identity own_name peer_name first_sequence_number now object version) }
    ensures steady { (host : HostState C) → IsHosted C.behaviour host → IsSteady C.behaviour host }
    ensures clocked { (now : ℕ) (host : HostState C) → IsSteady C.behaviour host → IsSteady C.behaviour (record host { link = settled now host.link }) }
    ensures hosted { (now : ℕ) (input : Input) (host : HostState C) → IsSteady C.behaviour host → IsHosted C.behaviour (host_step C.behaviour now input host).host }
    ensures names { (now : ℕ) (input : Input) (host : HostState C) → IsNamedAs host (host_step C.behaviour now input host).host }
    ensures completed { (now : ℕ) (input : Input) (host : HostState C) → is_open (settled now host.link).phase ≡ true → is_completed host.stage ≡ true
        → is_open (host_step C.behaviour now input host).host.link.phase ≡ true → is_completed (host_step C.behaviour now input host).host.stage ≡ true }
{}

/// A step is the same whether the clock rules were applied to the link at an earlier reading or not.
#[tactic(auto, using(crate::proofs::Keeps::step_settles_first))]
pub fn step_settles_first<C: Controller>()
    ensures { (earlier now : ℕ) (input : Input) (host : HostState C) → earlier ≤ now
        → host_step C.behaviour now input (record host { link = settled earlier host.link }) ≡ host_step C.behaviour now input host }
{}

/// Own calls leave a link that is in no connection where it is.
#[tactic(auto, using(crate::proofs::Acts::own_closed))]
pub fn own_calls_open_nothing()
    ensures { (now : ℕ) (calls : List LinkCall) (link : LinkState) → AreOwn calls → is_open link.phase ≡ false → is_open (calls_made now calls link).link.phase ≡ false }
{}
