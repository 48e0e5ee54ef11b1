//! The lines of failures that no text brings, and the numbers and texts of what ends a drive before its time.

use arrayvec::{ArrayString, ArrayVec};
use control_table::TableFault;
use control_table::layout::LayoutFault;
use station_panel::station_drive::DriveFault;
use station_run::{Failure, tell};
use std::fmt::Write;

/// More bytes than any of these texts has.
const LENGTH: usize = 40;

/// Whether a failure is told by this line.
fn is_told_by(failure: Failure, line: &str) -> bool {
    let mut told: ArrayVec<u8, LENGTH> = ArrayVec::new();
    tell(&failure, &mut told);
    told.as_slice() == line.as_bytes()
}

#[test]
fn want_of_memory_has_lines_of_its_own_and_a_failed_write_none(rt: HostRuntime) {
    let layout = Failure::Layout(LayoutFault::OutOfMemory);
    assert!(rt; is_told_by(layout, "layout fault 8 OutOfMemory\n"));
    let table = Failure::Table(TableFault::OutOfMemory);
    assert!(rt; is_told_by(table, "table fault 10 OutOfMemory\n"));
    assert!(rt; is_told_by(Failure::OutOfMemory, "out of memory\n"));
    assert!(rt; is_told_by(Failure::NotWritten, ""));
}

/// Whether a fault has this text.
fn has_text(fault: DriveFault, text: &str) -> bool {
    let mut told: ArrayString<LENGTH> = ArrayString::new();
    write!(told, "{fault}").is_ok() && told.as_str() == text
}

#[test]
fn faults_of_drives_have_their_numbers_and_texts(rt: HostRuntime) {
    assert!(rt; (DriveFault::OutOfMemory as u8, DriveFault::WriteFailed as u8) == (1, 2));
    assert!(rt; has_text(DriveFault::OutOfMemory, "out of memory"));
    assert!(rt; has_text(DriveFault::WriteFailed, "the record can't be written"));
}
