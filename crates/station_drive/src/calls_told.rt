//! What networks over memory tell.

ghost use Rattle.std.specs.Prelude.{List, Option};
ghost use Rattle.station_drive.specs.Told.{Call, Carried, Grows};
ghost use Rattle.station_drive.specs.Log.{grows_by};

/// After calls a network over memory tells what it told, and then these calls, each once and in their order.
pub fn calls_are_told_in_their_order()
    ensures { (calls : List Call) (old : Option (List Call)) (new : Option (List Call)) → Carried grows_by old new calls → Grows old new calls }
{}
