//! What a step says and does, in the words of its rules.

ghost use Rattle.std.specs.Prelude.{◌≡◌, ◌⊎◌, Bool, List, [], None, Some, false, true};
ghost use Rattle.std.specs.Option.{unwrap_or};
ghost use Rattle.line_laws.specs.declared.words.Side.{Side};
ghost use Rattle.line_laws.specs.declared.words.Position.TheVariants.{Right};
ghost use Rattle.line_laws.specs.declared.words.Item.{Item};
ghost use Rattle.line_laws.specs.End.{End, File, Seen};
ghost use Rattle.line_laws.specs.Step.{step};
ghost use Rattle.line_end.specs.State.{changed_file};
ghost use Rattle.line_end.specs.Told.{EmptyComes, IsTrueSaid, LockComes, TokenComes};

/// What a step says is so: it gives the token away only with its lock open and undriven, asks only without it, queries
/// and answers only with its own part free, and says that it has no token only as the second end, and without one.
pub fn what_is_said_is_true()
    ensures { (side : Side) (up : Bool) (seen : Seen) (items : List Item) (end : End) → IsTrueSaid side seen (step side up seen items end) }
{}

/// An end whose link isn't up says nothing.
pub fn unlinked_end_is_silent()
    ensures { (side : Side) (seen : Seen) (items : List Item) (end : End) → (step side false seen items end).given ≡ [] }
{}

/// The token comes to an end only by a Give, or is made again at the first end, which was told that the second has none.
pub fn token_comes_by_give_or_none()
    ensures { (side : Side) (up : Bool) (seen : Seen) (items : List Item) (end : End) → (step side up seen items end).end.token ≡ true → TokenComes side items end }
{}

/// The lock comes to lie at the right only where it is driven there, and the token is here.
pub fn lock_comes_by_drive_and_token()
    ensures { (side : Side) (up : Bool) (seen : Seen) (items : List Item) (end : End) → let new = (step side up seen items end).end
        in new.lock ≡ Right → LockComes seen end new }
{}

/// The lock moves only where it is driven, to where it is driven.
pub fn lock_moves_only_where_driven()
    ensures { (side : Side) (up : Bool) (seen : Seen) (items : List Item) (end : End) → let new = (step side up seen items end).end
        in (new.lock ≡ end.lock) ⊎ (seen.drive ≡ Some new.lock) }
{}

/// The line comes to be known empty only by a Clear, and only while the own part is free.
pub fn empty_comes_by_clear()
    ensures { (side : Side) (up : Bool) (seen : Seen) (items : List Item) (end : End) → (step side up seen items end).end.empty ≡ true → EmptyComes seen items end }
{}

/// A step writes what the file is to have wherever the file has something else, so that it has it then.
pub fn what_has_changed_is_written()
    ensures none { (old new : File) → changed_file old new ≡ None → new ≡ old }
    ensures after { (old new : File) → unwrap_or (changed_file old new) old ≡ new }
    ensures some { (old new written : File) → changed_file old new ≡ Some written → written ≡ new }
{}
