//! A file that ends a run.

ghost use Rattle.std.specs.Prelude.{◌≡◌, None, false};

use std::fs;
use std::fs::Files;

/// A file that ends a run by being there, if there is to be one.
#[derive(Drop)]
pub struct StopFile<'a, R> {
    rt: &'a R,
    path: Option<&'a str>,
}

impl<'a, R: Files> StopFile<'a, R> {
    pub fn new(rt: &'a R, path: Option<&'a str>) -> StopFile<'a, R>
        ensures { result.path ≡ path.entry }
    {
        StopFile { rt, path }
    }

    /// Whether the file is there. One at which the system doesn't let us look isn't.
    pub fn is_there(&self) -> bool
        ensures none { self.now.path ≡ None → result ≡ false }
    {
        let Some(path) = self.path else {
            return false;
        };
        match fs::exists(self.rt, path) {
            Ok(is_there) => is_there,
            Err(_) => false,
        }
    }
}
