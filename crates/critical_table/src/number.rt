//! Numbers in decimal, at the end of a line.

ghost use Rattle.std.specs.Prelude.{◌≡◌, ◌+◌, ◌≤◌, ◌++◌, length, decimal};

use crate::line::Line;
use itoa::Buffer;

/// Appends the number in decimal.
pub(crate) fn push_number(line: &mut Line, number: u32)
    requires { length line.old + 10 ≤ 160 }
    ensures text { line.new ≡ line.old ++ decimal number }
    ensures short { length line.new ≤ length line.old + 10 }
{
    let mut buffer = Buffer::new();
    line.push(buffer.format(number).as_bytes());
}
