//! Pointers in bytes (6.2.6.1).
ghost use Rattle.std.specs.Prelude.{◌≡◌, Some, Ok, length, map};
ghost use Rattle.object_store.specs.Load.{pointer_bytes, known_pointer as the_pointer, load_pointer};

use crate::numbers::{four_bytes, number_of_four};
use crate::pointer::Pointer;
use crate::view::View;
use critical_table::Code;

impl Pointer {
    /// The bytes of the pointer: its four numbers in order, the least byte of each first. A load gives it back.
    #[tactic(auto, unfolding(crate::specs::Load::pointer_bytes, crate::specs::Load::load_pointer))]
    pub fn bytes(self) -> [u8; 16]
        ensures value { result ≡ pointer_bytes self }
        ensures loads { load_pointer (map Some result) ≡ Ok self }
    {
        let object = four_bytes(self.object);
        let offset = four_bytes(self.offset);
        let low = four_bytes(self.low);
        let high = four_bytes(self.high);
        [
            object[0], object[1], object[2], object[3], offset[0], offset[1], offset[2], offset[3],
            low[0], low[1], low[2], low[3], high[0], high[1], high[2], high[3],
        ]
    }
}

impl View<'_> {
    /// The pointer that the bytes are, of which there are sixteen.
    ///
    /// `U05` comes exactly where a byte is indeterminate.
    #[tactic(auto, unfolding(crate::specs::Load::load_pointer))]
    pub fn pointer(&self) -> Result<Pointer, Code>
        requires { length self.now ≡ 16 }
        ensures { result ≡ load_pointer self.now }
    {
        let cells = self.cells;
        known_pointer(
            number_of_four(&cells[0..4]),
            number_of_four(&cells[4..8]),
            number_of_four(&cells[8..12]),
            number_of_four(&cells[12..16]),
        )
        .ok_or(Code::U05)
    }
}

/// The pointer of four numbers, or `None` where one is not known.
fn known_pointer(
    object: Option<u32>,
    offset: Option<u32>,
    low: Option<u32>,
    high: Option<u32>,
) -> Option<Pointer>
    ensures { result ≡ the_pointer object offset low high }
{
    Some(Pointer {
        object: object?,
        offset: offset?,
        low: low?,
        high: high?,
    })
}
