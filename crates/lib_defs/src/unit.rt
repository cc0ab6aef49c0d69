//! Units: bytes and wide characters.
ghost use Rattle.std.specs.Prelude.{◌≡◌, ◌+◌, ◌*◌, ◌<◌, ◌≤◌, ℕ, ℤ, pos, Some, [], ◌∷◌, length, map, take, drop};
ghost use Rattle.std.specs.Prelude.{refl, IfSome};
ghost use Rattle.std.specs.Option.{option_map};
ghost use Rattle.object_store.specs.Load.{known_number, number_bytes, bytes_number};
ghost use Rattle.lib_defs.specs.Units.{byte_unit, byte_number, byte_narrow, byte_null, IsByte};
ghost use Rattle.lib_defs.specs.Units.{wide_unit, wide_number, wide_narrow, wide_null, IsWide};

use object_store::View;

/// The elements of texts: a row over bytes and the row over wide characters differ in their unit alone.
pub trait Unit {
    /// The units.
    ghost fits: { ℤ → Type 0 };

    /// How many bytes a unit has.
    ghost WIDTH: { ℕ };

    /// The unit that bytes are, by the number that they are.
    ghost unit_of: { ℕ → ℤ };

    /// The number whose bytes a unit has.
    ghost number_of: { ℤ → ℕ };

    /// How many bytes a unit has.
    const WIDTH: u32;

    /// The unit at an index, counted in units; `None` exactly where a byte of it is indeterminate.
    fn read(view: &View<'_>, index: usize) -> Option<i64>
        requires { WIDTH * index + WIDTH ≤ length view.now }
        ensures value { result ≡ option_map unit_of (known_number (take WIDTH (drop (WIDTH * index) view.now))) }
        ensures range { IfSome result fits };

    /// Writes a unit into its bytes: what was written is read.
    fn write(unit: i64, cells: &mut [u8])
        requires long { length cells.old ≡ WIDTH }
        requires fits { fits unit }
        ensures bytes { cells.new ≡ number_bytes WIDTH (number_of unit) }
        ensures read { option_map unit_of (known_number (map Some cells.new)) ≡ Some unit };

    /// A unit has some bytes, and few.
    ghost narrow: { (0 < WIDTH) × (WIDTH ≤ 4) };

    /// The null is zero.
    ghost zero: { unit_of 0 ≡ pos 0 };

    /// Zero bytes alone are the null.
    ghost null: { (n : ℕ) → unit_of n ≡ pos 0 → n ≡ 0 };
}

/// A byte, 0 to 255.
#[derive(Clone, Copy, Debug, Drop)]
pub struct Byte;

/// A wide character, an `int` in four bytes.
#[derive(Clone, Copy, Debug, Drop)]
pub struct Wide;

impl Unit for Byte {
    ghost fits = { IsByte };

    ghost WIDTH = { 1 };

    ghost unit_of = { byte_unit };

    ghost number_of = { byte_number };

    const WIDTH: u32 = 1;

    fn read(view: &View<'_>, index: usize) -> Option<i64> {
        match view.byte(index) {
            None => None,
            Some(byte) => Some(i64::from(byte)),
        }
    }

    fn write(unit: i64, cells: &mut [u8]) {
        cells[0] = byte_of(unit);
    }

    ghost narrow = { byte_narrow };

    ghost zero = { refl };

    ghost null = { byte_null };
}

impl Unit for Wide {
    ghost fits = { IsWide };

    ghost WIDTH = { 4 };

    ghost unit_of = { wide_unit };

    ghost number_of = { wide_number };

    const WIDTH: u32 = 4;

    fn read(view: &View<'_>, index: usize) -> Option<i64> {
        // The length of a view is a `usize`, so the place of a unit in it is one.
        let _len = view.len();
        let at = 4 * index;
        match known_four(
            view.byte(at),
            view.byte(at + 1),
            view.byte(at + 2),
            view.byte(at + 3),
        ) {
            None => None,
            Some(number) => Some(signed(number)),
        }
    }

    fn write(unit: i64, cells: &mut [u8]) {
        let number = unsigned(unit);
        cells[0] = (number % 256) as u8;
        cells[1] = (number / 256 % 256) as u8;
        cells[2] = (number / 256 / 256 % 256) as u8;
        cells[3] = (number / 256 / 256 / 256 % 256) as u8;
    }

    ghost narrow = { wide_narrow };

    ghost zero = { refl };

    ghost null = { wide_null };
}

fn byte_of(unit: i64) -> u8
    requires { IsByte unit }
    ensures { result ≡ byte_number unit }
{
    unit as u8
}

fn known_four(a: Option<u8>, b: Option<u8>, c: Option<u8>, d: Option<u8>) -> Option<u32>
    ensures { result ≡ known_number (a ∷ b ∷ c ∷ d ∷ []) }
{
    Some(four_bytes(a?, b?, c?, d?))
}

fn four_bytes(a: u8, b: u8, c: u8, d: u8) -> u32
    ensures { result ≡ bytes_number (a ∷ b ∷ c ∷ d ∷ []) }
{
    u32::from(a) + 256 * (u32::from(b) + 256 * (u32::from(c) + 256 * u32::from(d)))
}

fn signed(number: u32) -> i64
    ensures { result ≡ wide_unit number }
{
    if number < 2147483648 {
        i64::from(number)
    } else {
        i64::from(number) - 4294967296
    }
}

fn unsigned(unit: i64) -> u32
    requires { IsWide unit }
    ensures { result ≡ wide_number unit }
{
    if unit >= 0 {
        unit as u32
    } else {
        (4294967296 + unit) as u32
    }
}
