//! What a sink is.

ghost use Rattle.std.specs.Prelude.{◌≡◌, ℕ, ◌+◌, ◌<◌, ◌≤◌, List, length, take, Option, IfOk, OnErr, IsOk};
ghost use Rattle.acc_io.specs.Cause.{HasCause};
ghost use Rattle.acc_io.specs.Bytes.{Gains};

use crate::failed::Failed;

/// Takes the bytes of an output, piece by piece.
pub trait Sink {
    /// How many faults there were. The count never falls.
    ghost faults: { Self → ℕ };

    /// The bytes that were written so far, where the sink tells them.
    ghost written: { Self → Option (List ℕ) };

    /// The sink takes that many more bytes, and no call fails until then.
    ghost has_room: { Self → ℕ → Type 0 };

    /// Takes some of the bytes, from the first on, and answers how many: at least one of a piece that is not empty.
    ///
    /// `Failed` comes only where the count of faults rose, and has moved nothing.
    fn write(&mut self, bytes: &[u8]) -> Result<usize, Failed>
        ensures cause { HasCause (faults self.old) (faults self.new) result }
        ensures within { IfOk result (λ n. n ≤ length bytes.now) }
        ensures some { IfOk result (λ n. 0 < length bytes.now → 0 < n) }
        ensures written { IfOk result (λ n. Gains (written self.old) (written self.new) (take n bytes.now)) }
        ensures failed { OnErr result (written self.new ≡ written self.old) }
        ensures succeeds { (room : ℕ) → 0 < room → has_room self.old room → IsOk result }
        ensures room { IfOk result (λ n. (room : ℕ) → has_room self.old (n + room) → has_room self.new room) };

    /// Hands on what was written and is still held back.
    ///
    /// `Failed` comes only where the count of faults rose.
    fn flush(&mut self) -> Result<(), Failed>
        ensures cause { HasCause (faults self.old) (faults self.new) result }
        ensures written { written self.new ≡ written self.old }
        ensures room { (room : ℕ) → has_room self.old room → IsOk result × has_room self.new room };
}
