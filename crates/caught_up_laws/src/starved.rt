//! A starved end, by the definitions: why a retransmission doesn't count as caught up.

ghost use Rattle.std.specs.Prelude.{List};
ghost use Rattle.rasta_core_spec.specs.Events.{Event, Start};
ghost use Rattle.rasta_core_spec.specs.Names.{AreNames, Names};
ghost use Rattle.rasta_core_spec.specs.identity.Role.{Role};
ghost use Rattle.caught_up_laws.specs.Knowledge.{KnowsAllBy};
ghost use Rattle.caught_up_laws.specs.Observer.{alive};
ghost use Rattle.caught_up_laws.specs.Starved.{IsStarved};

/// An end is up 2700 ms after its partner gave an item that it hasn't taken: the network loses it, and its repetition.
pub fn a_starved_end_stays_up()
    ensures { IsStarved }
{}

/// So whoever takes every sign of life of its link for being caught up doesn't know all that was given 1800 ms ago.
pub fn a_retransmission_does_not_count()
    ensures { ((who : Role) (names : Names) (start : Start) (earlier later : List Event) → AreNames names → KnowsAllBy alive who names start earlier later) → ⊥ }
{}
