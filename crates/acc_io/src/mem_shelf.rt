//! A shelf in memory whose calls fail as planned.

ghost use Rattle.std.specs.Prelude.{◌≡◌, ◌<◌, ◌≤◌, ◌++◌, ◌⊎◌, ◌↔◌, [], length, take, drop, min, true, false, is_ok};
ghost use Rattle.std.specs.Prelude.{Some, None, IfSome, IsSome, IfOk, OnOk, OnErr, IsOk, IsErr};
ghost use Rattle.std.specs.Option.{option_map};
ghost use Rattle.acc_io.specs.Cause.{HasCause};
ghost use Rattle.acc_io.specs.Held.{file_of, deselect, Selects, Reads};
ghost use Rattle.acc_io.specs.Files.{files_of};
ghost use Rattle.acc_io.specs.Plan.{FailsNext, first_plan, after_call, after_fault};

use crate::call_plan::CallPlan;
use crate::failed::Failed;
use crate::held_files::HeldFiles;
use crate::shelf::Shelf;
use std::marker::Model;

/// A shelf that holds its files, and fails at the calls that its plan lists and where a name is not held.
#[derive(Drop)]
pub struct MemShelf {
    files: HeldFiles,
    piece: usize,
    plan: CallPlan,
}

impl Model for MemShelf {
    ghost use Rattle.std.specs.Prelude.{◌<◌};
    ghost use Rattle.acc_io.specs.Views.{ShelfView};

    ghost Value = { ShelfView };

    ghost view = { λ shelf. record {
      held = shelf.files.held;
      selected = shelf.files.selected;
      piece = shelf.piece;
      plan = shelf.plan;
    } };

    ghost invariant = { λ shelf. 0 < shelf.piece };
}

impl MemShelf {
    /// Holds these files by name, of two of one name the first, and gives at most `piece` bytes at a call.
    /// `failing` has the numbers, from 1, of the calls that fail and move nothing. No file is selected yet.
    pub fn new(files: Vec<(String, Vec<u8>)>, piece: usize, failing: Vec<u64>) -> MemShelf
        requires { 0 < piece }
        ensures { result ≡ record {
          held = record { files = files_of files.items; left = [] };
          selected = false;
          piece = piece;
          plan = first_plan failing.items;
        } }
    {
        MemShelf {
            files: HeldFiles::new(files),
            piece,
            plan: CallPlan::new(failing),
        }
    }
}

impl Shelf for MemShelf {
    ghost faults = { λ shelf. shelf.plan.faults };

    ghost selected = { λ shelf. shelf.selected };

    ghost contents = { λ shelf. Some shelf.held };

    ghost sound = { λ shelf. shelf.plan.failing ≡ [] };

    /// Fails exactly where the number of this call is in the list, and where no file of that name is held.
    fn select(&mut self, name: &str) -> Result<(), Failed>
        ensures cause { HasCause self.old.plan.faults self.new.plan.faults result }
        ensures selected { self.new.selected ≡ is_ok result }
        ensures found { OnOk result (Selects (Some self.old.held) (Some self.new.held) name.now) }
        ensures failed { OnErr result (Some self.new.held ≡ option_map deselect (Some self.old.held)) }
        ensures sound { self.old.plan.failing ≡ [] → (self.new.plan.failing ≡ [])
            × IfSome (Some self.old.held) (λ held. IsSome (file_of held.files name.now) → IsOk result) }

        ensures fails { IsErr result
            ↔ (FailsNext self.old.plan ⊎ (file_of self.old.held.files name.now ≡ None)) }
        ensures after { OnOk result (IfSome (file_of self.old.held.files name.now) (λ bytes. self.new
            ≡ record self.old {
              held = record self.old.held { left = bytes };
              selected = true;
              plan = after_call self.old.plan;
            })) }
        ensures after_failed { OnErr result (self.new
            ≡ record self.old {
              held = deselect self.old.held;
              selected = false;
              plan = after_fault (after_call self.old.plan);
            }) }
    {
        self.files.deselect();
        self.plan.call()?;
        if !self.files.select(name) {
            return Err(self.plan.count_fault());
        }
        Ok(())
    }

    /// Fails exactly where the number of this call is in the list. Else it moves as many bytes as the piece, the
    /// buffer and what is left of the selected file allow.
    fn read(&mut self, buf: &mut [u8]) -> Result<usize, Failed>
        requires { 0 < length buf.old }

        ensures cause { HasCause self.old.plan.faults self.new.plan.faults result }
        ensures selected { self.new.selected ≡ self.old.selected }
        ensures nothing { self.old.selected ≡ false → IfOk result (λ n. n ≡ 0) }
        ensures within { IfOk result (λ n. n ≤ length buf.new) }
        ensures given { IfOk result (λ n. Reads (Some self.old.held) (Some self.new.held) (take n buf.new)) }
        ensures end { IfOk result (λ n. n ≡ 0 → IfSome (Some self.old.held) (λ held. held.left ≡ [])) }
        ensures failed { OnErr result (Some self.new.held ≡ Some self.old.held) }
        ensures sound { self.old.plan.failing ≡ [] → IsOk result × (self.new.plan.failing ≡ []) }

        ensures fails { IsErr result ↔ FailsNext self.old.plan }
        ensures count { IfOk result (λ n. n
            ≡ min self.old.piece (min (length buf.old) (length self.old.held.left))) }
        ensures buffer { IfOk result (λ n. buf.new ≡ take n self.old.held.left ++ drop n buf.old) }
        ensures same_buffer { OnErr result (buf.new ≡ buf.old) }
        ensures after { IfOk result (λ n. self.new
            ≡ record self.old {
              held = record self.old.held { left = drop n self.old.held.left };
              plan = after_call self.old.plan;
            }) }
        ensures after_failed { OnErr result (self.new
            ≡ record self.old { plan = after_fault (after_call self.old.plan) }) }
    {
        self.plan.call()?;
        Ok(self.files.read(buf, self.piece))
    }
}
