//! What holds of a detector whatever it is told: laws, as functions that do nothing.

ghost use Rattle.std.specs.Prelude.{◌≡◌, ℕ, true, false, List};
ghost use Rattle.sci_telegram.specs.declared.message.Occupancy.{Occupancy};
ghost use Rattle.tds_ctl.specs.declared.section.Section.{Section};
ghost use Rattle.tds_ctl.specs.Sections.{owing, status_at};
ghost use Rattle.object_host.specs.Object.{ObjectCall, object_after, object_after_all};
ghost use Rattle.tds_ctl.specs.Controlled.{detection_behaviour};
ghost use Rattle.tds_ctl.specs.History.{History, IsChange, IsKnown, StaysOwed, begun_at, changes_at, changing, is_first, owes_at, told_by};

/// A change of a section owes its status, through every list of calls in which that isn't sent and the link isn't lost.
pub fn owes_each_change_until_it_is_sent()
    ensures { (place : ℕ) (occupancy : Occupancy) (calls : List ObjectCall) (sections : List Section) → changes_at place occupancy sections ≡ true
        → StaysOwed place calls (changing place occupancy sections) → owes_at place (object_after_all detection_behaviour calls (changing place occupancy sections)) ≡ true }
{}

/// Nothing else owes one: after a call that isn't a change of it a section owes its status only if it did before.
pub fn owes_nothing_but_changes()
    ensures { (call : ObjectCall) (place : ℕ) (sections : List Section) → owes_at place (object_after detection_behaviour call sections) ≡ true → owes_at place sections ≡ false
        → IsChange place call sections }
{}

/// What is sent is the present state of the section, under its name: as the initial status tells it.
pub fn tells_present_states()
    ensures { (place : ℕ) (sections : List Section) → is_first place sections ≡ true → owing sections ≡ status_at place sections }
{}

/// After every list of calls a section that owes nothing was told as it is.
pub fn tells_every_state()
    ensures every { (calls : List ObjectCall) (sections : List Section) → IsKnown (told_by calls (begun_at sections)) }
    ensures kept { (calls : List ObjectCall) (history : History) → IsKnown history → IsKnown (told_by calls history) }
{}
