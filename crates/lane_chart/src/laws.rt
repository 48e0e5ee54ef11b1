//! What bands tell of a lane, and identities of what is drawn.

ghost use Rattle.std.specs.Prelude.{◌≡◌, ℕ, ◌<◌, ◌^◌, List};
ghost use Rattle.control_table.specs.layout.Entries.{Site};
ghost use Rattle.control_table.specs.layout.Once.{Distinct, Once};
ghost use Rattle.lane_chart.specs.Chart.{axis_id, legend_id};
ghost use Rattle.lane_chart.specs.Faces.{happening_id};
ghost use Rattle.lane_chart.specs.Shown.{seen_last, shown_in};
ghost use Rattle.lane_chart.specs.Spans.{spans_of};
ghost use Rattle.lane_chart.specs.Subjects.{row_ids, rows_of, subject_id};
ghost use Rattle.lane_chart.specs.declared.change.Change.{Change};
ghost use Rattle.lane_chart.specs.declared.lane.Lane.{Lane};
ghost use Rattle.lane_chart.specs.declared.scale.Window.{Window};
ghost use Rattle.lane_chart.specs.declared.subject.Subject.{Subject};

/// In each unit of a chart a band shows what its lane showed last, up to the end of that unit. So a change that is drawn isn't
/// lost, unless another one of its lane follows in the same unit.
pub fn bands_show_what_was_seen_last()
    ensures { (window : Window) (lane : Lane) (changes : List Change) (unit : ℕ) → shown_in unit (spans_of window lane changes) ≡ seen_last window lane unit changes }
{}

/// Of all that a chart draws of a layout each goes by an identity of its own (*rows*): no row goes by that of a command or a
/// restart (*marks*), of the axis or of the legend (*frame*), and no two of these go by one, unless they are of one line
/// (*lines*).
pub fn identities_stand_once()
    ensures rows { (l : Site) → Once l → Distinct (row_ids (rows_of l)) }
    ensures marks { (s : Subject) (number : ℕ) → subject_id s ≡ happening_id number → ⊥ }
    ensures frame { (s : Subject) → (subject_id s ≡ axis_id → ⊥) × (subject_id s ≡ legend_id → ⊥) }
    ensures lines { (one other : ℕ) → one < 2 ^ 64 → other < 2 ^ 64 → happening_id one ≡ happening_id other → one ≡ other }
{}
