//! Reads the file of a unit.

ghost use Rattle.std.specs.Prelude.{◌≡◌, ◌≢◌, ℕ, ◌+◌, ◌-◌, ◌<◌, ◌≤◌, ◌↔◌, List, [], ◌++◌, length, Some, vec_len};
ghost use Rattle.std.specs.Prelude.{IsTrue, IfOk, IfErr, OnOk, IsOk, IsSome, IfSome, IsErrOf};
ghost use Rattle.acc_io.specs.Cause.{FaultCounted};
ghost use Rattle.acc_io.specs.Held.{Reads, file_of};
ghost use Rattle.acc_run.specs.Loading.{ReadsAtMost, ReadsFile, ReadsForJob, most_read};
ghost use Rattle.acc_run.specs.Job.{Run};
ghost use Rattle.acc_run.specs.declared.load.LoadFault.TheVariants.{Shelf};

use crate::read_program::LONGEST_UNIT;
use acc_io::{Failed, Shelf};
use std::alloc::{AllocError, Global};
use thiserror::Error;

/// Why a file was not read.
#[derive(Clone, Copy, Debug, PartialEq, Eq, Error)]
pub enum LoadFault {
    /// The shelf counted a fault.
    #[error("file not read")]
    Shelf,
    /// There was no memory.
    #[error("out of memory")]
    Memory,
}

impl From<Failed> for LoadFault {
    ghost use Rattle.std.specs.Prelude.{◌≡◌};
    ghost use Rattle.acc_run.specs.declared.load.LoadFault.TheVariants.{Shelf};

    ghost from_gives = { λ _ fault. fault ≡ Shelf };

    fn from(_failed: Failed) -> Self {
        LoadFault::Shelf
    }
}

impl From<AllocError> for LoadFault {
    ghost use Rattle.std.specs.Prelude.{◌≡◌};
    ghost use Rattle.acc_run.specs.declared.load.LoadFault.TheVariants.{Memory};

    ghost from_gives = { λ _ fault. fault ≡ Memory };

    fn from(_error: AllocError) -> Self {
        LoadFault::Memory
    }
}

/// How many bytes are asked for at once.
const PIECE: usize = 1024;

/// The most bytes of a file that are read: one more than the longest unit has.
const MOST_READ: usize = LONGEST_UNIT + 1;

/// Reads the next piece of the selected file behind what was read, and answers how long it is; 0 is the end.
fn read_piece<S: Shelf>(shelf: &mut S, bytes: &mut Vec<u8>) -> Result<usize, LoadFault>
    requires { vec_len bytes.old < most_read }
    ensures within { ReadsAtMost (most_read - vec_len bytes.old) (S.contents shelf.old) (S.contents shelf.new) }
    ensures gained { IfOk result (λ count. (piece : List ℕ) × (length piece ≡ count)
        × (bytes.new.items ≡ bytes.old.items ++ piece) × Reads (S.contents shelf.old) (S.contents shelf.new) piece) }
    ensures room { OnOk result (vec_len bytes.new ≤ most_read) }
    ensures end { IfOk result (λ count. count ≡ 0 → IfSome (S.contents shelf.old) (λ held. held.left ≡ [])) }
    ensures cause { IsErrOf result Shelf → FaultCounted (S.faults shelf.old) (S.faults shelf.new) }
    ensures counts { S.faults shelf.old ≤ S.faults shelf.new }
    ensures sound { S.sound shelf.old → S.sound shelf.new × (IsErrOf result Shelf → ⊥) }
{
    let mut piece = [0; PIECE];
    let wanted = PIECE.min(MOST_READ - bytes.len());
    let count = shelf.read(&mut piece[..wanted])?;
    bytes.extend_from_slice(&piece[..count])?;
    Ok(count)
}

/// Reads the selected file from its first byte, but no more than one byte above the longest unit.
fn read_selected<S: Shelf>(alloc: Global, shelf: &mut S) -> Result<Vec<u8>, LoadFault>
    ensures within { ReadsAtMost most_read (S.contents shelf.old) (S.contents shelf.new) }
    ensures short { IfOk result (λ bytes. vec_len bytes ≤ most_read) }
    ensures read { IfOk result (λ bytes. IfSome (S.contents shelf.old) (λ held. ReadsFile held.left bytes.items)) }
    ensures cause { IsErrOf result Shelf → FaultCounted (S.faults shelf.old) (S.faults shelf.new) }
    ensures counts { S.faults shelf.old ≤ S.faults shelf.new }
    ensures sound { S.sound shelf.old → IsErrOf result Shelf → ⊥ }
{
    let mut bytes = Vec::new(alloc);
    while bytes.len() < MOST_READ {
        if read_piece(shelf, &mut bytes)? == 0 {
            return Ok(bytes);
        }
    }
    Ok(bytes)
}

/// Reads the file of that name, but no more than one byte above the longest unit.
///
/// `Shelf` comes only where the shelf's count of faults rose, `Memory` where memory ran out. However it
/// ends, no more bytes than that were taken from the shelf.
pub fn read_file<S: Shelf>(alloc: Global, shelf: &mut S, file: &str) -> Result<Vec<u8>, LoadFault>
    ensures within { ReadsForJob (Some (Run file.now)) (S.contents shelf.old) (S.contents shelf.new) }
    ensures short { IfOk result (λ bytes. vec_len bytes ≤ most_read) }
    ensures read { IfOk result (λ bytes. IfSome (S.contents shelf.old) (λ held. (unit : List ℕ)
        × (file_of held.files file.now ≡ Some unit) × ReadsFile unit bytes.items)) }
    ensures cause { IsErrOf result Shelf → FaultCounted (S.faults shelf.old) (S.faults shelf.new) }
    ensures counts { S.faults shelf.old ≤ S.faults shelf.new }
    ensures sound { S.sound shelf.old → IfSome (S.contents shelf.old) (λ held.
        IsSome (file_of held.files file.now) → IsErrOf result Shelf → ⊥) }
{
    shelf.select(file)?;
    read_selected(alloc, shelf)
}
