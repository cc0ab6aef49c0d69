//! A source in memory that never fails.

ghost use Rattle.std.specs.Prelude.{◌≡◌, ◌<◌, ◌≤◌, ◌++◌, [], length, take, drop, min, Some, ⊤, IfSome, IfOk, OnErr};
ghost use Rattle.std.specs.Prelude.{IsOk};
ghost use Rattle.acc_io.specs.Cause.{HasCause};
ghost use Rattle.acc_io.specs.Bytes.{Gives};

use crate::failed::Failed;
use crate::held_bytes::HeldBytes;
use crate::source::Source;
use std::marker::Model;

/// A source that holds its bytes, and never fails.
#[derive(Drop)]
pub struct SoundSource {
    bytes: HeldBytes,
    piece: usize,
}

impl Model for SoundSource {
    ghost use Rattle.std.specs.Prelude.{◌<◌};
    ghost use Rattle.acc_io.specs.Views.{SoundSourceView};

    ghost Value = { SoundSourceView };

    ghost view = { λ source. record { left = source.bytes; piece = source.piece } };

    ghost invariant = { λ source. 0 < source.piece };
}

impl SoundSource {
    /// Gives these bytes, at most `piece` of them at a call.
    pub fn new(bytes: Vec<u8>, piece: usize) -> SoundSource
        requires { 0 < piece }
        ensures { result ≡ record { left = bytes.items; piece = piece } }
    {
        SoundSource {
            bytes: HeldBytes::new(bytes),
            piece,
        }
    }
}

impl Source for SoundSource {
    ghost faults = { λ _. 0 };

    ghost left = { λ source. Some source.left };

    ghost sound = { λ _. ⊤ };

    /// Never fails. It moves as many bytes as the piece, the buffer and what is left allow.
    fn read(&mut self, buf: &mut [u8]) -> Result<usize, Failed>
        requires { 0 < length buf.old }

        ensures cause { HasCause 0 0 result }
        ensures within { IfOk result (λ n. n ≤ length buf.new) }
        ensures given { IfOk result (λ n. Gives (Some self.old.left) (Some self.new.left) (take n buf.new)) }
        ensures end { IfOk result (λ n. n ≡ 0 → IfSome (Some self.old.left) (λ bytes. bytes ≡ [])) }
        ensures failed { OnErr result (Some self.new.left ≡ Some self.old.left) }
        ensures sound { ⊤ → IsOk result × ⊤ }

        ensures never_fails { IsOk result }
        ensures count { IfOk result (λ n. n ≡ min self.old.piece (min (length buf.old) (length self.old.left))) }
        ensures buffer { IfOk result (λ n. buf.new ≡ take n self.old.left ++ drop n buf.old) }
        ensures after { IfOk result (λ n. self.new ≡ record self.old { left = drop n self.old.left }) }
    {
        Ok(self.bytes.read(buf, self.piece))
    }
}
