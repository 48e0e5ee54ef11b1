//! The text of an end's file.

ghost use Rattle.std.specs.Prelude.{◌≡◌, ◌+◌, ◌≤◌, ◌++◌, length};
ghost use Rattle.arrayvec.specs.ArrayVec.{array_vec_len};
ghost use Rattle.sci_telegram.specs.Names.{IsName};
ghost use Rattle.line_file.specs.EndFiles.{kept_text, line_text, lock_text, owner_text, side_text, token_text, writing};

use arrayvec::ArrayVec;
use line_end::{Kept, Position, Side};
use sci_telegram::Name;

/// The text of an end's file: five lines.
pub type Text = ArrayVec<u8, 64>;

/// What stands before the name of the line.
pub(crate) const LINE: &str = "line ";

/// Appends bytes for which there is room.
fn put(text: &mut Text, more: &[u8])
    requires { array_vec_len text.old + length more.now ≤ 64 }
    ensures { text.new.items ≡ text.old.items ++ more.now }
{
    let _ = text.try_extend_from_slice(more);
}

/// The line that names the line.
pub(crate) fn line_text(name: &Name) -> Text
    ensures text { result.items ≡ line_text name.now }
    ensures name { IsName name.now }
    ensures short { array_vec_len result ≤ 26 }
{
    let mut text = ArrayVec::new();
    put(&mut text, LINE.as_bytes());
    put(&mut text, name.bytes());
    put(&mut text, b"\n");
    text
}

fn side_text(side: Side) -> &'static [u8]
    ensures text { result.now ≡ side_text side }
    ensures short { length result.now ≤ 12 }
{
    match side {
        Side::First => b"side first\n",
        Side::Second => b"side second\n",
    }
}

/// The lines that name the line and its end.
pub(crate) fn owner_text(name: &Name, side: Side) -> Text
    ensures text { result.items ≡ owner_text name.now side }
    ensures short { array_vec_len result ≤ 38 }
{
    let mut text = line_text(name);
    put(&mut text, side_text(side));
    text
}

fn token_text(token: bool) -> &'static [u8]
    ensures text { result.now ≡ token_text token }
    ensures short { length result.now ≤ 11 }
{
    if token {
        b"token here\n"
    } else {
        b"token away\n"
    }
}

fn lock_text(lock: Position) -> &'static [u8]
    ensures text { result.now ≡ lock_text lock }
    ensures short { length result.now ≤ 11 }
{
    match lock {
        Position::Left => b"lock left\n",
        Position::Right => b"lock right\n",
    }
}

/// The lines that say what the end keeps, and the last.
pub(crate) fn kept_text(kept: Kept) -> Text
    ensures text { result.items ≡ kept_text kept }
    ensures short { array_vec_len result ≤ 26 }
{
    let mut text = ArrayVec::new();
    put(&mut text, token_text(kept.token()));
    put(&mut text, lock_text(kept.lock()));
    put(&mut text, b"end\n");
    text
}

/// The text of the file of this end of this line, where it keeps this.
pub fn write(name: &Name, side: Side, kept: Kept) -> Text
    ensures { result.items ≡ writing name.now side kept }
{
    let mut text = owner_text(name, side);
    put(&mut text, kept_text(kept).as_slice());
    text
}
