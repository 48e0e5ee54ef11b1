//! The files that a command names. A hyphen names standard input, which can be read for one of them alone.

ghost use Rattle.std.specs.Prelude.{◌≡◌, ◌↔◌, ◌<◌, ◌≤◌, IsErr, IfErr, map};
ghost use Rattle.station_command.specs.Inputs.{inputs_among, is_input};
ghost use Rattle.station_command.specs.declared.failure.Failure.TheVariants as failures;

use crate::Failure;
use limited_text::{Content, TextFault, file_text, input_text};
use run_files::{PartsFault, RunFiles, StopFile, file_there, with_further_parts};

/// The word for standard input.
const INPUT: &str = "-";

/// Whether a word names standard input.
fn is_input(file: &str) -> bool
    ensures { result ≡ is_input file.now }
{
    file == INPUT
}

/// How many of these files are standard input.
fn inputs_among(files: &[&str]) -> usize
    ensures { result ≡ inputs_among (map (λ file. file.now) files.now) }
{
    files.iter().filter(|file| is_input(**file)).count()
}

/// Whether standard input is named once at most among the files that a command reads.
pub fn input_once(files: &[&str]) -> Result<(), Failure>
    ensures twice { IsErr result ↔ (2 ≤ inputs_among (map (λ file. file.now) files.now)) }
    ensures fault { IfErr result (λ failure. failure ≡ failures.SecondInput) }
{
    if inputs_among(files) < 2 {
        Ok(())
    } else {
        Err(Failure::SecondInput)
    }
}

/// The texts of the file of a layout, which is read first, and of a file of lines.
pub fn texts_of(rt: &HostRuntime, layout: &str, lines: &str) -> Result<(String, String), Failure> {
    input_once(&[layout, lines])?;
    let layout = text_of(rt, layout)?;
    let lines = lines_of(rt, lines)?;
    Ok((layout, lines))
}

/// The text of the file of a layout.
pub fn text_of(rt: &HostRuntime, file: &str) -> Result<String, Failure> {
    read(rt, file, Content::Layout)
}

/// The text of a file of lines: events, a session, a script or addresses.
pub fn lines_of(rt: &HostRuntime, file: &str) -> Result<String, Failure> {
    read(rt, file, Content::Lines)
}

/// The texts of the file of a layout, which is read first, and of a record with all its parts.
pub fn record_texts_of(
    rt: &HostRuntime,
    layout: &str,
    record: &str,
) -> Result<(String, String), Failure> {
    let (layout, first) = texts_of(rt, layout, record)?;
    if is_input(record) {
        return Ok((layout, first));
    }
    match with_further_parts(rt, record, first) {
        Ok(text) => Ok((layout, text)),
        Err(PartsFault::OutOfMemory) => Err(Failure::OutOfMemory),
        Err(fault) => Err(Failure::Parts(fault)),
    }
}

/// What a long run is asked of its files, where it may begin: the file that ends it isn't there, and where its record is to stand in
/// parts, neither is one of these.
pub fn files_of<'a>(
    rt: &HostRuntime,
    record: Option<&str>,
    files: RunFiles<'a>,
) -> Result<RunFiles<'a>, Failure> {
    if let Some(path) = files.stop_file {
        if StopFile::new(rt, Some(path)).is_there() {
            return Err(ends_at_once(rt, path));
        }
    }
    match (record, files.record_size) {
        (Some(record), Some(_)) => none_there(rt, record)?,
        (None, Some(_)) => return Err(Failure::NoRecord),
        _ => (),
    }
    Ok(files)
}

/// The file of this name would end a run at once.
fn ends_at_once(rt: &HostRuntime, name: &str) -> Failure {
    match String::from_str(rt.alloc(), name) {
        Ok(name) => Failure::StopFile(name),
        Err(_) => Failure::OutOfMemory,
    }
}

/// None of the parts of a record that begins may be there.
fn none_there(rt: &HostRuntime, record: &str) -> Result<(), Failure> {
    match file_there(rt, record) {
        Ok(None) => Ok(()),
        Ok(Some(name)) => Err(Failure::PartThere(name)),
        Err(_) => Err(Failure::OutOfMemory),
    }
}

/// The text of a file, if it isn't too long.
fn read(rt: &HostRuntime, file: &str, content: Content) -> Result<String, Failure> {
    let (text, name) = if is_input(file) {
        let text = input_text(rt.alloc(), &mut rt.reader(), content);
        (text, "standard input")
    } else {
        (file_text(rt, file, content), file)
    };
    match text {
        Ok(text) => Ok(text),
        Err(TextFault::OutOfMemory) => Err(Failure::OutOfMemory),
        Err(_) => match String::from_str(rt.alloc(), name) {
            Ok(name) => Err(Failure::File(name)),
            Err(_) => Err(Failure::OutOfMemory),
        },
    }
}
