// The counts of a night.
use std::fmt::{self, Write};
use tally::Tally;
use text::Line;

// How many events there were: answers that were not refused, or by 1 to 9. Set-ups alone are refused by 10.
fn events(verdicts: &[u64; 11]) -> u64 {
    verdicts[..10]
        .iter()
        .fold(0, |sum: u64, n| sum.wrapping_add(*n))
}

// A number in eight hexadecimal digits.
fn put_hex(line: &mut Line, n: u32) {
    for b in n.to_be_bytes() {
        line.put_hex(b);
    }
}

pub fn put_counts(line: &mut Line, t: &Tally) -> fmt::Result {
    let v = t.verdicts;
    writeln!(line, "events {}", events(&v))?;
    writeln!(
        line,
        "refused 1: {}, 2: {}, 3: {}, 4: {}, 5: {}, 6: {}, 7: {}, 8: {}, 9: {}, 10: {}",
        v[1], v[2], v[3], v[4], v[5], v[6], v[7], v[8], v[9], v[10]
    )?;
    writeln!(line, "accepts {}", t.sums.accepts)?;
    writeln!(line, "rejects {}", t.sums.rejects)?;
    writeln!(line, "hard resets {}", t.sums.hard_resets)?;
    write!(line, "checksum ")?;
    put_hex(line, t.sums.checksum);
    writeln!(line)
}
