//! Takes the bytes of a unit in pieces, and gives its tokens.

ghost use Rattle.std.specs.Prelude.{◌≡◌, ◌+◌, ◌<◌, ◌≤◌, ℕ, List, [], ◌++◌, length};
ghost use Rattle.std.specs.Prelude.{Err, OnOk, IfOk, IfErr};
ghost use Rattle.c_lexer.specs.declared.fault.LexFault.{LexFault};
ghost use Rattle.critical_table.specs.declared.refusal.Refusal.TheVariants as refusal;
ghost use Rattle.c_lexer.specs.declared.lexer.Stop.{Stop};
ghost use Rattle.c_lexer.specs.Feeding.{AreOnlyTokens, IsFault, IsFeedFault, IsFed, IsStopped, fault_of};
ghost use Rattle.c_lexer.specs.Lexing.{start, greatest_size};
ghost use Rattle.c_lexer.specs.ReaderState.{state_of, IsWithin};
ghost use Rattle.c_lexer.specs.ReadSoFar.{IsRead, Anything, End};

use crate::fault::LexFault;
use crate::reader::Reader;
use crate::tokens::Tokens;
use critical_table::{Pos, Refusal};
use std::alloc::{AllocError, Global};
use std::marker::Model;

/// How many bytes a unit may have.
const GREATEST_SIZE: u32 = 4_194_304;

/// Why a lexer takes no more.
#[derive(Clone, Copy, Debug)]
enum Stop {
    Size,
    Memory(AllocError),
}

fn fault_of(stop: Stop) -> LexFault
    ensures { result ≡ fault_of stop }
{
    match stop {
        Stop::Size => LexFault::Refused(Refusal::Size, Pos { line: 1, column: 1 }),
        Stop::Memory(cause) => LexFault::Memory(cause),
    }
}

/// Reads a piece behind so many bytes, and answers how many there are then.
fn read_piece(reader: &mut Reader, size: u32, piece: &[u8]) -> Result<u32, Stop>
    requires within { IsWithin (state_of reader.old) size }
    requires few { size ≤ greatest_size }
    ensures size { IfOk result (λ now. (now ≡ size + length piece.now) × (now ≤ greatest_size)) }
    ensures within { IfOk result (λ now. IsWithin (state_of reader.new) now) }
    ensures read { OnOk result ((bytes : List ℕ) → IsRead Anything (state_of reader.old) bytes
        → IsRead Anything (state_of reader.new) (bytes ++ piece.now)) }
    ensures many { IfErr result (λ why. IsFeedFault (size + length piece.now) (fault_of why)) }
    ensures too_many { greatest_size < size + length piece.now → result ≡ Err Stop.Size }
{
    let room = (GREATEST_SIZE - size) as usize;
    if piece.len() > room {
        return Err(Stop::Size);
    }
    match reader.take_all(piece) {
        Ok(()) => Ok(size + piece.len() as u32),
        Err(cause) => Err(Stop::Memory(cause)),
    }
}

/// Makes tokens of the bytes of a unit, which come in pieces.
#[derive(Debug, Drop)]
pub struct Lexer {
    reader: Reader,
    size: u32,
    stop: Option<Stop>,
}

impl Model for Lexer {
    ghost use Rattle.c_lexer.specs.Feeding.{Progress, fault_of};
    ghost use Rattle.c_lexer.specs.Lexing.{greatest_size};
    ghost use Rattle.c_lexer.specs.ReaderState.{state_of, IsWithin};
    ghost use Rattle.std.specs.Prelude.{◌≡◌, ◌≤◌, None};
    ghost use Rattle.std.specs.Option.{option_map};

    ghost Value = { Progress };

    ghost view = { λ l. record { reader = state_of l.reader; size = l.size; fault = option_map fault_of l.stop } };

    ghost invariant = { λ l. (l.stop ≡ None → IsWithin (state_of l.reader) l.size) × (l.size ≤ greatest_size) };
}

impl Lexer {
    /// A lexer that was fed nothing.
    pub fn new(alloc: Global) -> Result<Lexer, AllocError>
        ensures { IfOk result (λ lexer. IsFed lexer []) }
    {
        Ok(Lexer {
            reader: Reader::new(alloc),
            size: 0,
            stop: None,
        })
    }

    /// Takes the next bytes of the unit. Refused(Size) comes where they are more than 4,194,304 with those before, at
    /// the first place; after it, and after want of memory, each later call answers the same.
    pub fn feed(&mut self, piece: &[u8]) -> Result<(), LexFault>
        ensures fed { OnOk result ((bytes : List ℕ) → IsFed self.old bytes → IsFed self.new (bytes ++ piece.now)) }
        ensures cause { IfErr result
            (λ fault. (bytes : List ℕ) → IsFed self.old bytes → IsFeedFault (length (bytes ++ piece.now)) fault) }
        ensures too_many { (bytes : List ℕ) → IsFed self.old bytes → greatest_size < length (bytes ++ piece.now)
            → result ≡ Err (LexFault.Refused refusal.Size start.pos) }
        ensures stopped { IfErr result (λ fault. IsStopped self.new fault) }
        ensures stays { (fault : LexFault) → IsStopped self.old fault
            → (result ≡ Err fault) × IsStopped self.new fault }
    {
        match self.stop {
            Some(stop) => Err(fault_of(stop)),
            None => match read_piece(&mut self.reader, self.size, piece) {
                Ok(size) => {
                    self.size = size;
                    Ok(())
                }
                Err(stop) => {
                    self.stop = Some(stop);
                    Err(fault_of(stop))
                }
            },
        }
    }

    /// The tokens of the bytes that were fed, or the fault that they have: one that `feed` answered, Refused as `lex`
    /// says, or want of memory.
    pub fn finish(self) -> Result<Tokens, LexFault>
        ensures tokens { IfOk result (λ stream. (bytes : List ℕ) → IsFed self bytes → AreOnlyTokens bytes stream) }
        ensures refused { IfErr result (λ fault. (bytes : List ℕ) → IsFed self bytes → IsFault bytes fault) }
        ensures stays { (fault : LexFault) → IsStopped self fault → result ≡ Err fault }
    {
        match self.stop {
            Some(stop) => Err(fault_of(stop)),
            None => self.reader.into_tokens(),
        }
    }
}

/// The tokens of the bytes of a unit (6.4). Refused(Size) comes where they are more than 4,194,304, at the first place;
/// any other Refused at the first place where neither a white space nor a token can stand.
pub fn lex(alloc: Global, bytes: &[u8]) -> Result<Tokens, LexFault>
    ensures tokens { IfOk result (λ stream. AreOnlyTokens bytes.now stream) }
    ensures refused { IfErr result (λ fault. IsFault bytes.now fault) }
{
    let mut lexer = Lexer::new(alloc)?;
    lexer.feed(bytes)?;
    lexer.finish()
}
