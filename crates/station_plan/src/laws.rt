//! What identities tell.

ghost use Rattle.std.specs.Prelude.{◌≡◌};
ghost use Rattle.control_table.specs.layout.Entries.{Site};
ghost use Rattle.control_table.specs.layout.Once.{Distinct, Once};
ghost use Rattle.control_table.specs.sci_telegram.Names.{IsName};
ghost use Rattle.station_plan.specs.Plan.{notes_id};
ghost use Rattle.station_plan.specs.Subjects.{own_name, subject_id, subjects};
ghost use Rattle.station_plan.specs.declared.thing.Subject.{Subject};

/// Two subjects have one identity only where they are one, and none has that of what is written below a plan: a name has no
/// dot.
pub fn identities_differ()
    ensures apart { (s t : Subject) → IsName (own_name s) → IsName (own_name t) → subject_id s ≡ subject_id t → s ≡ t }
    ensures notes { (s : Subject) → subject_id s ≡ notes_id → ⊥ }
{}

/// A layout has each subject once.
pub fn subjects_stand_once()
    ensures { (l : Site) → Once l → Distinct (subjects l) }
{}
