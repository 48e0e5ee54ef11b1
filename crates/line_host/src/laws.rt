//! What is promised of the host of an end.

ghost use Rattle.std.specs.Prelude.{◌≡◌, ℕ, List, false};
ghost use Rattle.line_laws.specs.End.{File, Seen, file_of, unlinked};
ghost use Rattle.line_laws.specs.Link.{coming_more};
ghost use Rattle.line_laws.specs.Line.{Node, Whole, right_rules};
ghost use Rattle.line_laws.specs.Line as line;
ghost use Rattle.line_host.specs.Talk.{is_joined};
ghost use Rattle.line_host.specs.Host.{HostHeard, HostState, host_step, looked, new_host, to_do};
ghost use Rattle.line_host.specs.Sites.{IsFileKept, IsNear, StepMade, all_after};
ghost use Rattle.line_host.specs.declared.input.Input.{Input};
ghost use Rattle.line_host.specs.declared.parties.Parties.{Parties};

/// What left an end was on disk before: after any list of steps, of which any may fail to keep the file, an end that isn't
/// over has in its file the token and the lock that it has.
pub fn what_left_was_on_disk()
    ensures { (parties : Parties) (first_sequence_number now version : ℕ) (file : File) (steps : List StepMade)
        → IsFileKept (all_after steps (record { host = new_host parties first_sequence_number now version file; file = file })) }
{}

/// After each step an end whose link isn't up, or whose partner hasn't agreed, is out of any connection. So it is so
/// between any two.
pub fn unjoined_end_is_unlinked()
    ensures { (now : ℕ) (input : Input) (seen : Seen) (host : HostState) → let next = host_step now input seen host
        in is_joined next.talk ≡ false → next.end.end ≡ unlinked next.end.end }
{}

/// What an end does when it looks is a move of the line: where the near end of a line is that of the host, the move leaves
/// the end that the host leaves, its file as the host keeps it, and on the way what the host gives to its link.
pub fn looks_are_moves()
    ensures end { (seen : Seen) (heard : HostHeard) (count : ℕ) (near far : Node) → IsNear heard count near
        → (line.looked right_rules heard.host.end.side seen count Whole near far).near.end ≡ (looked seen heard).end.end }
    ensures file { (seen : Seen) (heard : HostHeard) (count : ℕ) (near far : Node) → IsNear heard count near
        → (line.looked right_rules heard.host.end.side seen count Whole near far).near.file ≡ file_of (looked seen heard).end.end }
    ensures gives { (seen : Seen) (heard : HostHeard) (count : ℕ) (near far : Node) → IsNear heard count near
        → (line.looked right_rules heard.host.end.side seen count Whole near far).far.coming ≡ coming_more far.place (to_do seen heard).items far.coming }
{}
