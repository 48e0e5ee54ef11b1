//! What holds of a point whatever it is told: laws, as functions that do nothing.

ghost use Rattle.std.specs.Prelude.{◌≡◌, ◌⊎◌, ℕ, ◌≤◌, List, Option, Some, None};
ghost use Rattle.sci_telegram.specs.declared.message.Side.{Side};
ghost use Rattle.sci_telegram.specs.declared.message.Position.{Position};
ghost use Rattle.object_host.specs.declared.report.Report.{Report};
ghost use Rattle.point_ctl.specs.declared.progress.Progress.TheVariants.{Driving};
ghost use Rattle.point_ctl.specs.Drive.{PointState, drive_end, made, owing, losing, drives, own_report};
ghost use Rattle.object_host.specs.Object.{ObjectCall, object_after};
ghost use Rattle.point_ctl.specs.Controlled.{point_behaviour};
ghost use Rattle.point_ctl.specs.History.{History, AreMovedByTheDrive, IsAnsweredOnce, IsMove, IsReported, begun_at, told};
ghost use Rattle.sci_telegram.specs.declared.message.PointMessage.TheVariants.{PointPosition};
ghost use Rattle.sci_telegram.specs.declared.message.Message.TheVariants.{Point};

/// A point isn't driven when it was just made or its link was lost, nor at or past the limit of its drive or the
/// moment last kept.
pub fn stands_still()
    ensures made { (sensed : Position) (now : ℕ) → drives now (made sensed) ≡ None }
    ensures lost { (point : PointState) (now : ℕ) → drives now (losing point) ≡ None }
    ensures dead { (point : PointState) (now : ℕ) → point.until ≤ now → drives now point ≡ None }
    ensures limit { (point : PointState) (side : Side) (since now : ℕ) → point.progress ≡ Driving side since → drive_end since ≤ now
        → drives now point ≡ None }
{}

/// A drive is that of a move that was taken: it was begun by this call, or was there before.
pub fn drives_for_a_move()
    ensures { (call : ObjectCall) (point : PointState) (side : Side) (since : ℕ) → (object_after point_behaviour call point).progress ≡ Driving side since
        → (point.progress ≡ Driving side since) ⊎ IsMove side since call point }
{}

/// A final report is owed only with no drive, and tells a position only if that is sensed at that moment.
pub fn reports_standing_still()
    ensures still { (point : PointState) (report : Report) (now : ℕ) → owing point ≡ Some report → drives now point ≡ None }
    ensures sensed { (point : PointState) (position : Position) → owing point ≡ Some (own_report (Point (PointPosition position)))
        → point.sensed ≡ position }
{}

/// After every list of calls each move that was taken since the last loss has one final report, or waits for it;
/// the move in progress is the last one.
pub fn answers_each_move_once()
    ensures every { (calls : List ObjectCall) (sensed : Position) → IsAnsweredOnce (told calls (begun_at (made sensed))) }
    ensures kept { (calls : List ObjectCall) (history : History) → IsAnsweredOnce history → IsAnsweredOnce (told calls history) }
{}

/// After every list of calls in which contacts tell of a change only while the point is driven, each final report
/// answers its move, in order: the position commanded, or a timeout.
pub fn answers_what_was_commanded()
    ensures every { (calls : List ObjectCall) (sensed : Position) → AreMovedByTheDrive calls (begun_at (made sensed))
        → IsReported (told calls (begun_at (made sensed))) }
    ensures kept { (calls : List ObjectCall) (history : History) → AreMovedByTheDrive calls history → IsReported history
        → IsReported (told calls history) }
{}
