//! A node's record.

ghost use Rattle.std.specs.Prelude.{◌≡◌, [], ◌∷◌, ◌++◌, OnOk, IfErr, Ok, map};
ghost use Rattle.replay_lines.specs.Given.{Fails};
ghost use Rattle.replay_lines.specs.Text.{Tells};
ghost use Rattle.replay_words.specs.Cut.{words};
ghost use Rattle.node_record.specs.RecordLines.{Line, line_said, told};
ghost use Rattle.node_record.specs.Records.{behind_first, first_of, lines_said, record_said};
ghost use Rattle.node_record.specs.inside.RecordsRead.{said};

use crate::record_head::{Head, read_head};
use crate::record_line::{RecordLine, read_line};
use crate::whole_lines::WholeLines;
use control_table::Layout;
use replay_lines::SessionFault;
use replay_words::Fault;
use std::alloc::Global;

/// What the record of a node tells: its first line, and those after it.
#[derive(Drop)]
pub(crate) struct Record {
    pub(crate) head: Head,
    pub(crate) lines: Vec<RecordLine>,
}

/// What the record of the node of this name tells, or where its first faulty line is. Fault 7 comes only where memory was
/// refused, at the line that was being read.
pub(crate) fn read_record(
    alloc: Global,
    layout: &Layout,
    name: &str,
    text: &str,
) -> Result<Record, SessionFault>
    ensures { Tells said (record_said layout.now name.now text.now) result }
{
    let mut lines = WholeLines::of(text);
    let first = first_line(&mut lines);
    let head = match read_head(layout, name, first) {
        Ok(head) => head,
        Err(fault) => {
            return Err(SessionFault {
                line: 1,
                number: fault.number(),
            });
        }
    };
    let lines = read_lines(alloc, layout, lines)?;
    Ok(Record { head, lines })
}

/// The first line, which is empty where there is none.
fn first_line<'a>(lines: &mut WholeLines<'a>) -> &'a str
    ensures line { result.now ≡ first_of lines.old }
    ensures rest { lines.new ≡ behind_first lines.old }
{
    match lines.next() {
        Some((_, line)) => line,
        None => "",
    }
}

/// What the lines after the first tell.
fn read_lines(
    alloc: Global,
    layout: &Layout,
    lines: WholeLines<'_>,
) -> Result<Vec<RecordLine>, SessionFault>
    ensures { Tells (λ read. map told read.items) (lines_said layout.now lines.entry) result }
{
    let mut read = Vec::new(alloc);
    for (number, line) in lines {
        let kept = keep_line(alloc, layout, line, &mut read);
        if let Err(fault) = kept {
            return Err(SessionFault {
                line: number,
                number: fault.number(),
            });
        }
    }
    Ok(read)
}

/// Keeps what a line tells after those before it.
fn keep_line(
    alloc: Global,
    layout: &Layout,
    line: &str,
    read: &mut Vec<RecordLine>,
) -> Result<(), Fault>
    ensures ok { OnOk result ((this : Line) × (line_said layout.now (words line.now) ≡ Ok this) × (map told read.new.items ≡ map told read.old.items ++ this ∷ [])) }
    ensures err { IfErr result (λ fault. Fails fault (line_said layout.now (words line.now))) }
{
    let this = read_line(alloc, layout, line)?;
    read.push(this)?;
    Ok(())
}
