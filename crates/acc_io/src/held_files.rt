//! Files in memory, of which one is read piece by piece.

ghost use Rattle.std.specs.Prelude.{◌≡◌, ◌++◌, length, take, drop, min, false, IsTrue};
ghost use Rattle.acc_io.specs.Held.{file_of, Selects};
ghost use Rattle.acc_io.specs.Files.{files_of};
ghost use Rattle.acc_io.specs.Views.{selection};

use crate::pieces::copy_front;
use crate::place::{Place, first_of, rest_at};
use std::marker::Model;

/// Files by name, and the place in the one that is selected.
#[derive(Drop)]
pub(crate) struct HeldFiles {
    files: Vec<(String, Vec<u8>)>,
    place: Option<Place>,
}

impl Model for HeldFiles {
    ghost use Rattle.std.specs.Prelude.{is_some};
    ghost use Rattle.acc_io.specs.Views.{Selection};

    ghost Value = { Selection };

    ghost use Rattle.acc_io.specs.Files.{files_of, left_of, IsPlaceIn};

    ghost view = { λ held. record {
      held = record { files = files_of held.files.items; left = left_of held.files.items held.place };
      selected = is_some held.place;
    } };

    ghost invariant = { λ held. IsPlaceIn held.files.items held.place };
}

impl HeldFiles {
    pub(crate) fn new(files: Vec<(String, Vec<u8>)>) -> HeldFiles
        ensures { result ≡ selection (files_of files.items) None }
    {
        HeldFiles { files, place: None }
    }

    /// Selects the first file of that name, or none where there is none, and answers whether there is one.
    pub(crate) fn select(&mut self, name: &str) -> bool
        ensures selected { self.new.selected ≡ result }
        ensures found { IsTrue result → Selects (Some self.old.held) (Some self.new.held) name.now }
        ensures after { self.new ≡ selection self.old.held.files (file_of self.old.held.files name.now) }
    {
        self.place = first_of(self.files.as_slice(), name);
        self.place.is_some()
    }

    /// Selects no file.
    pub(crate) fn deselect(&mut self)
        ensures { self.new ≡ selection self.old.held.files None }
    {
        self.place = None;
    }

    /// Reads from the selected file into the front of `buf`, at most `piece` bytes, and answers how many.
    pub(crate) fn read(&mut self, buf: &mut [u8], piece: usize) -> usize
        ensures count { result ≡ min piece (min (length buf.old) (length self.old.held.left)) }
        ensures nothing { self.old.selected ≡ false → result ≡ 0 }
        ensures moved { self.old.held.left ≡ take result buf.new ++ self.new.held.left }
        ensures buffer { buf.new ≡ take result self.old.held.left ++ drop result buf.old }
        ensures after { self.new ≡ record self.old {
          held = record self.old.held { left = drop result self.old.held.left };
        } }
    {
        let Some(place) = self.place else {
            return 0;
        };
        let n = copy_front(rest_at(self.files.as_slice(), place), buf, piece);
        self.place = Some(place.behind(n));
        n
    }
}
