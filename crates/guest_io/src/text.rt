//! Texts of a guest, read as they are written.
ghost use Rattle.std.specs.Prelude.{◌≡◌, ◌+◌, ◌<◌, ◌^◌, get_or, length, IfOk, IfErr};
ghost use Rattle.lib_defs.specs.Units.{unit_place};
ghost use Rattle.lib_defs.specs.Constraints.{Saw};
ghost use Rattle.lib_defs.specs.Characters.{see_character};
ghost use Rattle.guest_io.specs.Texts.{text_of, IsEnded, IsStopped, IsStuck, IsQuiet};

use critical_table::Code;
use lib_defs::LibStep;
use object_store::{By, Pointer, Store};

/// As many characters are read at most: one more than an object has bytes.
const MOST: u32 = 16_777_217;

/// The character at a place, or why it is not read.
pub(crate) fn character(store: &Store, place: Pointer) -> Result<u8, LibStep>
    ensures seen { IfOk result (λ c. see_character store.now place ≡ Saw c) }
    ensures within { IfOk result (λ c. place.offset < place.high) }
    ensures stuck { IfErr result (λ step. IsStuck (see_character store.now place) step) }
    ensures quiet { IfErr result (λ step. IsQuiet step) }
{
    match store.reach(place, 1, 1, By::OtherRead) {
        Err(case) => Err(LibStep::Trap(case, place, 1, 1, By::OtherRead)),
        Ok(()) => match store.view(place, 1).byte(0) {
            Some(byte) => Ok(byte),
            None => Err(LibStep::Undef(Code::U05)),
        },
    }
}

/// The place so many bytes on.
pub(crate) fn place_behind(place: Pointer, n: u32) -> Pointer
    requires { place.offset + n < 2 ^ 32 }
    ensures { result ≡ unit_place 1 place n }
{
    Pointer {
        object: place.object,
        offset: place.offset + n,
        low: place.low,
        high: place.high,
    }
}

/// How many characters the text at a place has, or why it is not read.
pub(crate) fn text_length(store: &Store, place: Pointer) -> Result<u32, LibStep>
    ensures ended { IfOk result (λ n. IsEnded store.now place) }
    ensures length { IfOk result (λ n. length (text_of store.now place) ≡ n) }
    ensures stopped { IfErr result (λ step. IsStopped store.now place step) }
    ensures quiet { IfErr result (λ step. IsQuiet step) }
{
    // The place's numbers are those of a pointer.
    let (_offset, _high) = (place.offset, place.high);
    let mut n = 0;
    while n < MOST {
        match character(store, place_behind(place, n)) {
            Err(step) => return Err(step),
            Ok(c) => {
                if c == 0 {
                    return Ok(n);
                }
                n += 1;
            }
        }
    }
    Ok(n)
}

/// A character of a text that was read to its null.
pub(crate) fn known_character(store: &Store, place: Pointer, k: u32) -> u8
    requires { k < length (text_of store.now place) }
    ensures { result ≡ get_or (text_of store.now place) k 0 }
{
    // The place's numbers are those of a pointer.
    let (_offset, _high) = (place.offset, place.high);
    match character(store, place_behind(place, k)) {
        Ok(c) => c,
        Err(_) => 0,
    }
}
