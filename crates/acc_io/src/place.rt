//! A place in one of several files.

ghost use Rattle.std.specs.Prelude.{◌≡◌, ◌+◌, ◌^◌, ◌<◌};
ghost use Rattle.std.specs.Option.{option_map};
ghost use Rattle.acc_io.specs.Held.{file_of};
ghost use Rattle.acc_io.specs.Files.{files_of, left_of, IsPlaceIn};

/// A place in one of a list of files.
#[derive(Clone, Copy, Debug, PartialEq, Eq)]
pub(crate) struct Place {
    pub(crate) file: usize,
    pub(crate) at: usize,
}

impl Place {
    /// The place that many bytes behind this one.
    pub(crate) fn behind(self, n: usize) -> Place
        requires { self.at + n < 2 ^ 64 }
        ensures { result ≡ record self { at = self.at + n } }
    {
        Place {
            at: self.at + n,
            ..self
        }
    }
}

/// The first byte of the first file of that name, if there is one.
pub(crate) fn first_of(files: &[(String, Vec<u8>)], name: &str) -> Option<Place>
    ensures within { IsPlaceIn files.now result }
    ensures found { file_of (files_of files.now) name.now
        ≡ option_map (λ place. left_of files.now (Some place)) result }
{
    for (file, held) in files.iter().enumerate() {
        if held.0.as_str() == name {
            return Some(Place { file, at: 0 });
        }
    }
    None
}

/// What a file has from that place on.
pub(crate) fn rest_at(files: &[(String, Vec<u8>)], place: Place) -> &[u8]
    requires { IsPlaceIn files.now (Some place) }
    ensures { result.now ≡ left_of files.now (Some place) }
{
    let held = &files[place.file];
    &held.1[place.at..]
}
