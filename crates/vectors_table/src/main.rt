// Runs the reader and the checks over texts whose replies document 01 settles. Each line of standard input is a reason, a bar and a
// text; for each it writes the reason, and number and place of the refusal, or 0 0, the count of rows, Omax, H and the ids in
// order. The crate cases says how a text is written. No crate uses it.
#![tactic(auto)]

use std::io;

// The most bytes of input that are read.
const MOST_INPUT: usize = 32_768;

// The reply to a written text.
fn reply(rt: &impl Print, written: &[u8]) -> io::Result<()> {
    let text = cases::decode(written);
    match table::check(1, false, table_csv::read_rows(text.as_slice())) {
        Err(refusal) => print!(rt; " {} {}", refusal.number, refusal.place),
        Ok(t) => {
            print!(rt; " 0 0 {} {} {}", t.count, t.omax, t.hyper)?;
            for row in t.rows.iter().take(t.count) {
                print!(rt; " {}", row.id)?;
            }
            Ok(())
        }
    }
}

fn main(rt: HostRuntime) -> io::Result<()> {
    cases::reply_to_each(&rt, &mut [0; MOST_INPUT], |written| reply(&rt, written))
}
