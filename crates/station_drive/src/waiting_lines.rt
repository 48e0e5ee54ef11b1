//! The lines of a script that wait for their time.

ghost use Rattle.std.specs.Prelude.{◌≡◌, ◌≤◌, true, ℕ};
ghost use Rattle.station_drive.specs.Inside.{applied_to, rises, waiting, waits};
ghost use Rattle.station_drive.specs.Rounds.{not_due};

use simulator_event::Event;

/// The lines of a script that weren't applied yet. In a script in order they are the last ones, and a round looks at no line
/// after the first that isn't due. In another script it looks at each.
#[derive(Clone, Copy)]
pub(crate) struct WaitingLines<'a> {
    /// The script without some of the lines in front, all of which were applied.
    pub(crate) lines: &'a [(u64, Event)],
    /// Up to which milliseconds lines were applied, if any were.
    pub(crate) applied: Option<u64>,
    /// Whether times don't fall.
    pub(crate) in_order: bool,
    ghost sound: { in_order ≡ true → rises 0 lines.now ≡ true },
}

impl<'a> WaitingLines<'a> {
    /// All lines of a script wait.
    pub(crate) fn of(script: &'a [(u64, Event)]) -> WaitingLines<'a>
        ensures { waiting result.applied result.lines.now ≡ script.now }
    {
        WaitingLines {
            lines: script,
            applied: None,
            in_order: is_in_order(script),
        }
    }

    /// Those that wait where the lines up to `passed` were applied.
    pub(crate) fn after(&self, passed: u64) -> WaitingLines<'a>
        ensures { waiting result.applied result.lines.now ≡ not_due passed (waiting self.now.applied self.now.lines.now) }
    {
        WaitingLines {
            lines: behind(self.lines, passed),
            applied: Some(applied_to(self.applied, passed)),
            in_order: self.in_order,
        }
    }
}

/// Whether the times of a script don't fall.
fn is_in_order(script: &[(u64, Event)]) -> bool
    ensures { result ≡ rises 0 script.now }
{
    let mut earlier = 0;
    for place in 0..script.len() {
        let (time, _) = &script[place];
        if *time < earlier {
            return false;
        }
        earlier = *time;
    }
    true
}

/// The lines from the first on that isn't due.
fn behind<'a>(lines: &'a [(u64, Event)], passed: u64) -> &'a [(u64, Event)]
    ensures left { (applied : ℕ) → passed ≤ applied → not_due applied result.now ≡ not_due applied lines.now }
    ensures in_order { rises 0 lines.now ≡ true → rises 0 result.now ≡ true }
{
    for place in 0..lines.len() {
        let (time, _) = &lines[place];
        if passed < *time {
            return &lines[place..];
        }
    }
    &[]
}

/// Up to which time lines were applied, where those up to `passed` were applied too.
fn applied_to(applied: Option<u64>, passed: u64) -> u64
    ensures { result ≡ applied_to applied passed }
{
    match applied {
        Some(applied) if passed <= applied => applied,
        _ => passed,
    }
}

/// Whether a line of this time waits.
pub(crate) fn waits(applied: Option<u64>, time: u64) -> bool
    ensures { result ≡ waits applied time }
{
    match applied {
        Some(applied) => applied < time,
        None => true,
    }
}
