//! A shelf in memory that fails only where a name is not held.

ghost use Rattle.std.specs.Prelude.{◌≡◌, ◌<◌, ◌≤◌, ◌++◌, ◌↔◌, [], length, take, drop, min, true, false, is_ok, Some};
ghost use Rattle.std.specs.Prelude.{None, ⊤, IfSome, IsSome, IfOk, OnOk, OnErr, IsOk, IsErr};
ghost use Rattle.std.specs.Option.{option_map};
ghost use Rattle.acc_io.specs.Cause.{HasCause};
ghost use Rattle.acc_io.specs.Held.{file_of, deselect, Selects, Reads};
ghost use Rattle.acc_io.specs.Files.{files_of};
ghost use Rattle.acc_io.specs.Plan.{one_more};

use crate::failed::Failed;
use crate::fault_count::FaultCount;
use crate::held_files::HeldFiles;
use crate::shelf::Shelf;
use std::marker::Model;

/// A shelf that holds its files, and fails only where a name is not held.
#[derive(Drop)]
pub struct SoundShelf {
    files: HeldFiles,
    piece: usize,
    faults: FaultCount,
}

impl Model for SoundShelf {
    ghost use Rattle.std.specs.Prelude.{◌<◌};
    ghost use Rattle.acc_io.specs.Views.{SoundShelfView};

    ghost Value = { SoundShelfView };

    ghost view = { λ shelf. record {
      held = shelf.files.held;
      selected = shelf.files.selected;
      piece = shelf.piece;
      faults = shelf.faults;
    } };

    ghost invariant = { λ shelf. 0 < shelf.piece };
}

impl SoundShelf {
    /// Holds these files by name, of two of one name the first, and gives at most `piece` bytes at a call.
    /// No file is selected yet.
    pub fn new(files: Vec<(String, Vec<u8>)>, piece: usize) -> SoundShelf
        requires { 0 < piece }
        ensures { result ≡ record {
          held = record { files = files_of files.items; left = [] };
          selected = false;
          piece = piece;
          faults = 0;
        } }
    {
        SoundShelf {
            files: HeldFiles::new(files),
            piece,
            faults: FaultCount::new(),
        }
    }
}

impl Shelf for SoundShelf {
    ghost faults = { λ shelf. shelf.faults };

    ghost selected = { λ shelf. shelf.selected };

    ghost contents = { λ shelf. Some shelf.held };

    ghost sound = { λ _. ⊤ };

    /// Fails exactly where no file of that name is held.
    fn select(&mut self, name: &str) -> Result<(), Failed>
        ensures cause { HasCause self.old.faults self.new.faults result }
        ensures selected { self.new.selected ≡ is_ok result }
        ensures found { OnOk result (Selects (Some self.old.held) (Some self.new.held) name.now) }
        ensures failed { OnErr result (Some self.new.held ≡ option_map deselect (Some self.old.held)) }
        ensures sound { ⊤ → ⊤
            × IfSome (Some self.old.held) (λ held. IsSome (file_of held.files name.now) → IsOk result) }

        ensures fails { IsErr result ↔ (file_of self.old.held.files name.now ≡ None) }
        ensures after { OnOk result (IfSome (file_of self.old.held.files name.now) (λ bytes. self.new
            ≡ record self.old { held = record self.old.held { left = bytes }; selected = true })) }
        ensures after_failed { OnErr result (self.new
            ≡ record self.old {
              held = deselect self.old.held;
              selected = false;
              faults = one_more self.old.faults;
            }) }
    {
        if !self.files.select(name) {
            return Err(self.faults.count_fault());
        }
        Ok(())
    }

    /// Never fails. It moves as many bytes as the piece, the buffer and what is left of the selected file allow.
    fn read(&mut self, buf: &mut [u8]) -> Result<usize, Failed>
        requires { 0 < length buf.old }

        ensures cause { HasCause self.old.faults self.new.faults result }
        ensures selected { self.new.selected ≡ self.old.selected }
        ensures nothing { self.old.selected ≡ false → IfOk result (λ n. n ≡ 0) }
        ensures within { IfOk result (λ n. n ≤ length buf.new) }
        ensures given { IfOk result (λ n. Reads (Some self.old.held) (Some self.new.held) (take n buf.new)) }
        ensures end { IfOk result (λ n. n ≡ 0 → IfSome (Some self.old.held) (λ held. held.left ≡ [])) }
        ensures failed { OnErr result (Some self.new.held ≡ Some self.old.held) }
        ensures sound { ⊤ → IsOk result × ⊤ }

        ensures never_fails { IsOk result }
        ensures count { IfOk result (λ n. n
            ≡ min self.old.piece (min (length buf.old) (length self.old.held.left))) }
        ensures buffer { IfOk result (λ n. buf.new ≡ take n self.old.held.left ++ drop n buf.old) }
        ensures after { IfOk result (λ n. self.new
            ≡ record self.old { held = record self.old.held { left = drop n self.old.held.left } }) }
    {
        Ok(self.files.read(buf, self.piece))
    }
}
