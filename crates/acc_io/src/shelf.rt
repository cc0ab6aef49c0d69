//! What a shelf of files is.

ghost use Rattle.std.specs.Prelude.{◌≡◌, ℕ, ◌<◌, ◌≤◌, List, [], length, take, Option, Bool, false, is_ok, IfSome};
ghost use Rattle.std.specs.Prelude.{IsSome, IfOk, OnOk, OnErr, IsOk};
ghost use Rattle.std.specs.Option.{option_map};
ghost use Rattle.acc_io.specs.Cause.{HasCause};
ghost use Rattle.acc_io.specs.Held.{Held, file_of, deselect, Selects, Reads};

use crate::failed::Failed;

/// Holds files by name, and reads the one that is selected.
pub trait Shelf {
    /// How many faults there were. The count never falls.
    ghost faults: { Self → ℕ };

    /// A file is selected.
    ghost selected: { Self → Bool };

    /// The files, and what is left of the selected one, where the shelf tells them.
    ghost contents: { Self → Option Held };

    /// No call fails any more, but a `select` of a name that is not held.
    ghost sound: { Self → Type 0 };

    /// Selects the first file of that name, from its first byte.
    ///
    /// `Failed` comes only where the count of faults rose; a name that is not held is a fault. Then no file
    /// is selected.
    fn select(&mut self, name: &str) -> Result<(), Failed>
        ensures cause { HasCause (faults self.old) (faults self.new) result }
        ensures selected { selected self.new ≡ is_ok result }
        ensures found { OnOk result (Selects (contents self.old) (contents self.new) name.now) }
        ensures failed { OnErr result (contents self.new ≡ option_map deselect (contents self.old)) }
        ensures sound { sound self.old → sound self.new
            × IfSome (contents self.old) (λ held. IsSome (file_of held.files name.now) → IsOk result) };

    /// Reads the next bytes of the selected file into the front of `buf`, and answers how many; 0 is the end,
    /// and the answer where no file is selected.
    ///
    /// `Failed` comes only where the count of faults rose, and has moved nothing.
    fn read(&mut self, buf: &mut [u8]) -> Result<usize, Failed>
        requires { 0 < length buf.old }

        ensures cause { HasCause (faults self.old) (faults self.new) result }
        ensures selected { selected self.new ≡ selected self.old }
        ensures nothing { selected self.old ≡ false → IfOk result (λ n. n ≡ 0) }
        ensures within { IfOk result (λ n. n ≤ length buf.new) }
        ensures given { IfOk result (λ n. Reads (contents self.old) (contents self.new) (take n buf.new)) }
        ensures end { IfOk result (λ n. n ≡ 0 → IfSome (contents self.old) (λ held. held.left ≡ [])) }
        ensures failed { OnErr result (contents self.new ≡ contents self.old) }
        ensures sound { sound self.old → IsOk result × sound self.new };
}
