// What the table program prints: a text's replies under the four policies, as four lines of bytes. The program tablecheck uses it.
#![tactic(auto)]

ghost use Rattle.std.specs.Prelude.{◌≡◌, ◌++◌, ◌+◌, ◌≤◌, length};
ghost use Rattle.io.specs.Counts.{IsPrefixLen};
ghost use Rattle.report.specs.Lines.{decimal, number_of, place_of, word_of, line_of};
ghost use Rattle.report.specs.Reports.{Reports};

use crate::lines::Lines;
use rules::Verdict;

mod lines;

// The slots that each verdict may spend.
const ALLOWANCE: u64 = 10_000_000;

// " accepted" and so on: a space and the word of a reply.
fn word_of(v: Verdict) -> &'static [u8]
    ensures { result.now ≡ word_of v }
{
    match v {
        Verdict::Accepted(_) => b" accepted",
        Verdict::Missed { .. } => b" missed",
        Verdict::Undecided => b" undecided",
        Verdict::Refused { .. } => b" refused",
    }
}

fn number_of(v: Verdict) -> u64
    ensures { result ≡ number_of v }
{
    match v {
        Verdict::Accepted(n) => n,
        Verdict::Missed { time, .. } => time,
        Verdict::Undecided => ALLOWANCE,
        Verdict::Refused { number, .. } => number as u64,
    }
}

fn place_of(v: Verdict) -> u64
    ensures { result ≡ place_of v }
{
    match v {
        Verdict::Missed { id, .. } => id as u64,
        Verdict::Refused { place, .. } => place,
        _ => 0,
    }
}

// A line has at most 73 bytes: three numbers of at most twenty digits, a word of at most nine letters, three spaces and LF.
fn put_line(lines: &mut Lines, policy: u32, v: Verdict)
    requires { length lines.old + 73 ≤ 292 }
    ensures line { lines.new ≡ lines.old ++ line_of policy v }
    ensures upper_bound { length lines.new ≤ length lines.old + 73 }
{
    lines.put_number(policy as u64);
    lines.put(word_of(v));
    lines.put(b" ");
    lines.put_number(number_of(v));
    lines.put(b" ");
    lines.put_number(place_of(v));
    lines.put(b"\n");
}

// The four lines, at the front of the lent bytes, and how many bytes they are. Fewer than 292 bytes stay as lent, and the reply is
// 0 then.
pub fn report(text: &[u8], out: &mut [u8]) -> usize
    ensures prefix_len { IsPrefixLen result out.new }
    ensures reports { Reports text.now out.old out.new result }
{
    if out.len() < Lines::MOST {
        return 0;
    }
    let mut lines = Lines::new();
    for policy in 1..=4 {
        put_line(
            &mut lines,
            policy,
            checker::verdict(policy, ALLOWANCE, text),
        );
    }
    let bytes = lines.as_slice();
    out[..bytes.len()].copy_from_slice(bytes);
    bytes.len()
}
