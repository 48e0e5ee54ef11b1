//! A place of one file.

ghost use Rattle.std.specs.Prelude.{◌≡◌, ◌∷◌, [], List, Option, is_ok};
ghost use Rattle.whole_file.specs.Calls.{Made, Writes, Syncs, Replaces, SyncsFolder, recorded};

use std::io;

/// The place of one file: its own name, a new name beside it, and the folder in which both stand.
pub trait Place {
    /// The calls that were made, where the place tells of them.
    ghost calls: { Self → Option (List Made) };

    /// Makes a file of these bytes under the new name. What stood there is gone.
    fn write_new(&mut self, bytes: &[u8]) -> io::Result<()>
        ensures { calls self.new ≡ recorded (Writes bytes.now (is_ok result) ∷ []) (calls self.old) };

    /// The bytes under the new name outlive a cut of the power from now on.
    fn sync_new(&mut self) -> io::Result<()>
        ensures { calls self.new ≡ recorded (Syncs (is_ok result) ∷ []) (calls self.old) };

    /// What stands under the new name stands under the own name, in the place of what stood there.
    fn replace(&mut self) -> io::Result<()>
        ensures { calls self.new ≡ recorded (Replaces (is_ok result) ∷ []) (calls self.old) };

    /// What the names lead to outlives a cut of the power from now on.
    fn sync_folder(&mut self) -> io::Result<()>
        ensures { calls self.new ≡ recorded (SyncsFolder (is_ok result) ∷ []) (calls self.old) };

    /// The bytes that stand under the own name, if a file is there.
    fn read(&self) -> io::Result<Option<Vec<u8>>>;
}
