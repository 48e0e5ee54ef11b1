//! The texts for command lines that ask for nothing, which no contract says. What takes memory
//! is done again where it is lacking, so that the answers also hold with any one allocation refused.

use simulator_pair_text::{is_memory, read_words, status};
use std::alloc::Global;
use std::process::Abort;

const HELP: &str = "Runs lines of events over one link.

A link has a client C, a server S with a lamp, and a network between them. Each line is one event
(an item is given, time passes, a datagram is delivered or lost ..), and is answered on a line of
its own. All lines are judged before the first event happens. docs/PAIR.md has their forms.

Usage: pair [FILE]

Arguments:
  [FILE]
          The lines of events; standard input where it is left out

Options:
  -h, --help
          Print help (see a summary with '-h')

  -V, --version
          Print version
";

const SHORT_HELP: &str = "Runs lines of events over one link

Usage: pair [FILE]

Arguments:
  [FILE]  The lines of events; standard input where it is left out

Options:
  -h, --help     Print help (see more with '--help')
  -V, --version  Print version
";

const VERSION: &str = "pair 1.0.0
";

const A_WORD_TOO_MANY: &str = "error: unexpected argument 'other' found

Usage: pair [FILE]

For more information, try '--help'.
";

const NO_SUCH_FLAG: &str = "error: unexpected argument '--frobnicate' found

  tip: to pass '--frobnicate' as a value, use '-- --frobnicate'

Usage: pair [FILE]

For more information, try '--help'.
";

/// The words of a command line, its status, and what is printed.
type Printed = (&'static [&'static str], u8, &'static str);

/// Command lines that ask for nothing, each with its status and what is printed.
const PRINTED: &[Printed] = &[
    (&["pair", "--help"], 0, HELP),
    (&["pair", "-h"], 0, SHORT_HELP),
    (&["pair", "a.txt", "-h"], 0, SHORT_HELP),
    (&["pair", "--version"], 0, VERSION),
    (&["pair", "-V"], 0, VERSION),
    (&["pair", "a.txt", "other"], 1, A_WORD_TOO_MANY),
    (&["pair", "--frobnicate"], 1, NO_SUCH_FLAG),
];

/// Expects that a command line prints this text and ends with this status. Where memory is lacking it is read once more.
fn expect_text(rt: &impl Abort, alloc: Global, words: &[&str], ends_with: u8, text: &str) {
    let mut answer = read_words(alloc, words);
    if matches!(&answer, Err(error) if is_memory(error)) {
        answer = read_words(alloc, words);
    }
    let error = answer.expect_err(rt, "nothing is asked");
    assert!(rt; status(&error) == ends_with);
    assert!(rt; error.use_stderr() == (ends_with == 1));
    let mut printed = format!(in alloc; "{error}");
    if printed.is_err() {
        printed = format!(in alloc; "{error}");
    }
    assert!(rt; printed.expect(rt, "a text").as_str() == text);
}

/// Expects that each command line prints its text and ends with its status.
fn expect_texts(rt: &impl Abort, alloc: Global, printed: &[Printed]) {
    for (words, status, text) in printed {
        expect_text(rt, alloc, *words, *status, *text);
    }
}

#[test]
fn help_the_version_or_what_is_wrong_is_printed(rt: HostRuntime) {
    expect_texts(&rt, rt.alloc(), PRINTED);
}
