// How the programs read their input: into a buffer that the caller lends, until it is full or the input ends, so that reading
// allocates nothing. std's readers to the end allocate, and its `read_exact` takes an input that is shorter than the buffer for an
// error.
#![tactic(auto)]

ghost use Rattle.std.specs.Prelude.{◌≡◌, ◌≤◌, IfOk, IfSome, length, take};

use std::io;
use std::io::Read;

// Reads as many bytes as the buffer holds or the reader gives, the lesser of both, and returns how many. They stand first in the
// buffer; what stands behind them means nothing. The first error ends it, and is returned.
#[tactic(auto, using(crate::proofs::Reading::taken_more))]
pub fn read_full<R: Read + Drop>(mut reader: R, bytes: &mut [u8]) -> io::Result<usize>
    ensures fits { IfOk result (λ n. n ≤ length bytes.new) }
    ensures first { IfOk result (λ n. IfSome (R.remaining reader)
        (λ xs. take n bytes.new ≡ take (length bytes.new) xs)) }
{
    let mut at: usize = 0;
    // How far a turn goes, the reader says.
    while at < bytes.len() {
        let n = reader.read(&mut bytes[at..])?;
        if n == 0 {
            return Ok(at);
        }
        at += n;
    }
    Ok(at)
}
