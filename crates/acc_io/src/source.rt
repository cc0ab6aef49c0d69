//! What a source is.

ghost use Rattle.std.specs.Prelude.{◌≡◌, ℕ, ◌<◌, ◌≤◌, List, [], length, take, Option, IfSome, IfOk, OnErr, IsOk};
ghost use Rattle.acc_io.specs.Cause.{HasCause};
ghost use Rattle.acc_io.specs.Bytes.{Gives};

use crate::failed::Failed;

/// Gives the bytes of an input, piece by piece.
pub trait Source {
    /// How many faults there were. The count never falls.
    ghost faults: { Self → ℕ };

    /// The bytes that were not read yet, where the source tells them.
    ghost left: { Self → Option (List ℕ) };

    /// No call fails any more.
    ghost sound: { Self → Type 0 };

    /// Reads the next bytes into the front of `buf`, and answers how many; 0 is the end.
    ///
    /// `Failed` comes only where the count of faults rose, and has moved nothing.
    fn read(&mut self, buf: &mut [u8]) -> Result<usize, Failed>
        requires { 0 < length buf.old }

        ensures cause { HasCause (faults self.old) (faults self.new) result }
        ensures within { IfOk result (λ n. n ≤ length buf.new) }
        ensures given { IfOk result (λ n. Gives (left self.old) (left self.new) (take n buf.new)) }
        ensures end { IfOk result (λ n. n ≡ 0 → IfSome (left self.old) (λ bytes. bytes ≡ [])) }
        ensures failed { OnErr result (left self.new ≡ left self.old) }
        ensures sound { sound self.old → IsOk result × sound self.new };
}
