//! What a signal shows and owes, in terms of what it was told.

ghost use Rattle.std.specs.Prelude.{◌≡◌, ℕ, false, List};
ghost use Rattle.sci_telegram.specs.declared.message.Aspect.TheVariants.{Stop};
ghost use Rattle.object_host.specs.Object.{ObjectCall, object_after_all};
ghost use Rattle.signal_ctl.specs.History.{awaits_report, last_aspect, last_kept};
ghost use Rattle.signal_ctl.specs.Lamp.{aspect_shown, new_lamp, standing};
ghost use Rattle.signal_ctl.specs.Signal.{SignalState, signal_behaviour};

/// After every list of calls a new signal shows the last aspect taken since the last loss, before the moment last told,
/// and otherwise stop; and it owes one report where an aspect was taken since the last report was sent and since the
/// last loss. From any state on, what it indicates and keeps follows from the calls (*indicated*, *until*).
#[tactic(auto, using(crate::proofs::Histories::shown_after, crate::proofs::Histories::owes_after, crate::proofs::Histories::indicated_after, crate::proofs::Histories::until_after))]
pub fn shows_the_last_aspect_taken()
    ensures shown { (calls : List ObjectCall) (now : ℕ) → aspect_shown (object_after_all signal_behaviour calls (record { lamp = new_lamp; owes = false })).lamp now ≡ standing (last_aspect calls Stop) (last_kept calls 0) now }
    ensures owed { (calls : List ObjectCall) → (object_after_all signal_behaviour calls (record { lamp = new_lamp; owes = false })).owes ≡ awaits_report calls false }
    ensures indicated { (calls : List ObjectCall) (signal : SignalState) → (object_after_all signal_behaviour calls signal).lamp.indicated ≡ last_aspect calls signal.lamp.indicated }
    ensures until { (calls : List ObjectCall) (signal : SignalState) → (object_after_all signal_behaviour calls signal).lamp.until ≡ last_kept calls signal.lamp.until }
{}
