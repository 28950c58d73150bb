//! Laws of lines and of the limits. Each function computes nothing: its contract is a theorem.

ghost use Rattle.std.specs.Prelude.{◌≡◌};
ghost use Rattle.line_streams.specs.Streams.{FedLinesComeFirst};

use crate::{MAX_AHEAD, MAX_GATHERED, MAX_READS};

/// The lines of a text that begins with lines, a line feed behind each, are these, and then those of
/// what stands behind them.
pub fn fed_lines_come_first()
    ensures { FedLinesComeFirst }
{}

/// The limits by number: at most 600,000,000 reads, and as many tries of writing one text; and at most
/// 4,096 bytes that are read ahead, and as many that are gathered.
pub fn limits()
    ensures reads { MAX_READS ≡ 600000000 }
    ensures ahead { MAX_AHEAD ≡ 4096 }
    ensures gathered { MAX_GATHERED ≡ 4096 }
{}
