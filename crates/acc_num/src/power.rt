//! Powers of two.
ghost use Rattle.std.specs.Prelude.{◌≡◌, ◌^◌, ◌<◌, pos};

/// 2 to the power `bits`.
pub fn power_of_two(bits: u32) -> i128
    requires { bits < 127 }
    ensures { result ≡ pos (2 ^ bits) }
{
    1 << bits
}
