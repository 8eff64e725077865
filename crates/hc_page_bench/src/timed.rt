//! The least time of a part over all its turns, and how it is printed.
use std::io;
use std::time::Duration;

/// A checksum of all turns, and the least time of one in nanoseconds, so that what else the machine does counts little.
#[derive(Clone, Copy)]
pub struct Timed {
    pub sum: u64,
    pub least: u128,
}

impl Timed {
    pub fn new() -> Timed {
        Timed {
            sum: 0,
            least: u128::MAX,
        }
    }

    pub fn with(self, sum: u64, time: Duration) -> Timed {
        Timed {
            sum: self.sum.wrapping_add(sum),
            least: self.least.min(time.as_nanos()),
        }
    }
}

/// Prints the checksum, and how long the part took as a ratio to another one.
pub fn report(
    rt: &HostRuntime,
    what: &str,
    timed: Timed,
    unit: &str,
    one: Timed,
) -> io::Result<()> {
    let sum = timed.sum;
    println!(rt; "{sum} {what}")?;
    let hundredths = if one.least == 0 {
        0
    } else {
        timed.least.saturating_mul(100) / one.least
    };
    let nanos = timed.least;
    eprintln!(rt; "{what}: {hundredths} hundredths of {unit}, {nanos} ns a turn")
}
