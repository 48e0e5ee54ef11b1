//! What holds of each fault of a railway.

ghost use Rattle.std.specs.Prelude.{Bool, List, ℕ};
ghost use Rattle.railway_check.specs.EachTold.{TellsEach};
ghost use Rattle.railway_check.specs.RailwayVerdict.{AreFaults, IsVerdict};
ghost use Rattle.railway_check.specs.Verdicts.{VerdictState};
ghost use Rattle.railway_layout.specs.declared.fault.RailwayFault.{RailwayFault};
ghost use Rattle.railway_layout.specs.Written.{RailwayText};

/// The verdict on a railway has the line of each of its faults, but of those of layouts, which the check of each layout tells.
pub fn each_fault_is_told()
    ensures { (explained : Bool) (text : RailwayText) (layouts : List (List ℕ)) (verdicts : List VerdictState) (verdict : VerdictState)
        → IsVerdict explained text layouts verdicts verdict → (faults : List RailwayFault) × AreFaults text layouts faults × TellsEach faults verdict.err }
{}
