// The table program: reads a table from standard input and prints its replies under the four policies. Bytes past the 4,097th make no
// difference: so long a text is refused whatever they are. Where reading fails it says so on standard error and prints no reply, and
// where writing fails it says that; both end it with status 1. ./tablecheck looks for the four lines besides.
#![tactic(auto)]

ghost use Rattle.std.specs.Prelude.{◌≡◌};

use rules::Table;
use std::io;

// One byte over the longest text, which is all that tells.
const MOST_READ: usize = Table::MAX_TEXT + 1;

// The bytes that the four lines are lent.
const MOST_WRITTEN: usize = 292;

// Hands on what came of a step, and where that is an error says so before.
fn told<T>(rt: &impl Eprint, came: io::Result<T>, failure: &str) -> io::Result<T>
    ensures { result ≡ came }
{
    came.inspect_err(|_| {
        // The error is handed on whether or not it can be said.
        let _ = eprintln!(rt; "tablecheck: {failure}");
    })
}

fn main(rt: HostRuntime) -> io::Result<()> {
    let mut text = [0u8; MOST_READ];
    let n = told(
        &rt,
        input::read_full(rt.reader(), &mut text),
        "standard input cannot be read",
    )?;
    let mut lines = [0u8; MOST_WRITTEN];
    let m = report::report(&text[..n], &mut lines);
    told(
        &rt,
        rt.write_all(&lines[..m]),
        "standard output cannot be written",
    )
}
