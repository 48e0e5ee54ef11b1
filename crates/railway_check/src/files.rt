//! Where the layouts of a railway are.

ghost use Rattle.std.specs.Prelude.{◌≡◌, IfOk, string_bytes};
ghost use Rattle.railway_check.specs.LayoutFile.{folder_of, layout_file};

use std::alloc::{AllocError, Global};
use std::path::Path;

/// The folder of a file. It is empty where the file is named without one, and of `-`, which is standard input.
fn folder_of(file: &str) -> &str
    ensures { result.now ≡ folder_of file.now }
{
    match Path::new(file).parent() {
        Some(folder) => folder.as_str(),
        None => "",
    }
}

/// The file that the text of a railway calls `layout`, where that text stands in this file: a path that doesn't begin with `/` is meant
/// from its folder. It fails only where memory was refused.
pub fn layout_file(alloc: Global, railway: &str, layout: &str) -> Result<String, AllocError>
    ensures { IfOk result (λ path. string_bytes path ≡ layout_file railway.now layout.now) }
{
    let path = Path::new(folder_of(railway)).join(alloc, layout)?;
    Ok(path.into_string())
}
