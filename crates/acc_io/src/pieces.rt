//! Copies of the least of three lengths.

ghost use Rattle.std.specs.Prelude.{◌≡◌, ◌++◌, length, take, drop, min};

/// Copies bytes from the front of `from` into the front of `to`, at most that many, and answers how many.
pub(crate) fn copy_front(from: &[u8], to: &mut [u8], most: usize) -> usize
    ensures count { result ≡ min most (min (length to.old) (length from.now)) }
    ensures moved { from.now ≡ take result to.new ++ drop result from.now }
    ensures copied { to.new ≡ take result from.now ++ drop result to.old }
{
    let n = most.min(to.len()).min(from.len());
    to[..n].copy_from_slice(&from[..n]);
    n
}
