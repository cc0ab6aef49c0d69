//! The shelf of the real files.

ghost use Rattle.std.specs.Prelude.{◌≡◌, false, None};

use crate::failed::Failed;
use crate::fault_count::FaultCount;
use crate::shelf::Shelf;
use std::fs::File;
use std::io::Read;
use std::marker::Model;
use std::rt::Files;

/// A shelf of the real files, by their paths. It tells no content.
///
/// Each error of an open or a read is a fault, an interrupted call too.
#[derive(Drop)]
pub struct FileShelf<R: Files> {
    rt: R,
    file: Option<R::File>,
    faults: FaultCount,
}

impl<R: Files> Model for FileShelf<R> {
    ghost use Rattle.std.specs.Prelude.{is_some};
    ghost use Rattle.acc_io.specs.Views.{FileShelfView};

    ghost Value = { FileShelfView };

    ghost view = { λ shelf. record { selected = is_some shelf.file; faults = shelf.faults } };
}

impl<R: Files> FileShelf<R> {
    /// Opens files by this runtime, which it keeps. No file is selected yet, and there was no fault.
    pub fn new(rt: R) -> FileShelf<R>
        ensures { result ≡ record { selected = false; faults = 0 } }
    {
        FileShelf {
            rt,
            file: None,
            faults: FaultCount::new(),
        }
    }
}

impl<R: Files> Shelf for FileShelf<R> {
    ghost faults = { λ shelf. shelf.faults };

    ghost selected = { λ shelf. shelf.selected };

    ghost contents = { λ _. None };

    ghost sound = { λ _. ⊥ };

    fn select(&mut self, name: &str) -> Result<(), Failed> {
        self.file = None;
        match File::open(&self.rt, name) {
            Ok(file) => {
                self.file = Some(file);
                Ok(())
            }
            Err(_) => Err(self.faults.count_fault()),
        }
    }

    fn read(&mut self, buf: &mut [u8]) -> Result<usize, Failed> {
        let Some(file) = &mut self.file else {
            return Ok(0);
        };
        match file.read(buf) {
            Ok(n) => Ok(n),
            Err(_) => Err(self.faults.count_fault()),
        }
    }
}
