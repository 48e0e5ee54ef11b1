//! What holds of records.

ghost use Rattle.control_table.specs.layout.Entries.{Site};
ghost use Rattle.node_record.specs.Worked.{Worked};

/// Lines of records, and what goes over the network by them, worked by hand.
pub fn traffic_is_as_worked_by_hand()
    ensures { (site : Site) → Worked site }
{}
