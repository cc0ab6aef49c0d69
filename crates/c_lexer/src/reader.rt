//! Splits the bytes of a unit into parts: white spaces and tokens (6.4).

ghost use Rattle.std.specs.Prelude.{◌≡◌, ◌+◌, ◌≤◌, ℕ, true, List, [], ◌∷◌, ◌++◌, length, OnOk, IfOk, IfErr};
ghost use Rattle.c_lexer.specs.Lexing.{AreTokens, greatest_size};
ghost use Rattle.c_lexer.specs.Feeding.{IsReadFault};
ghost use Rattle.c_lexer.specs.declared.mode.Mode.TheVariants as mode;
ghost use Rattle.c_lexer.specs.Placed.{IsPlaced};
ghost use Rattle.c_lexer.specs.ReadPart.{is_other};
ghost use Rattle.c_lexer.specs.ReaderState.{state_of, start_state, after_byte, after_white, after_token, after_ending};
ghost use Rattle.c_lexer.specs.ReaderState.{Closes, next_part, BeginsOr, IsParted, is_pair, IsWithin, reach};
ghost use Rattle.c_lexer.specs.ReadSoFar.{IsRead, Anything, Byte, End};

use crate::ending::{Ending, end_of};
use crate::fault::LexFault;
use crate::mode::Mode;
use crate::place::Place;
use crate::punct::Punct;
use crate::token::{Body, Token};
use crate::tokens::Tokens;
use critical_table::{Pos, Refusal};
use std::alloc::{AllocError, Global};

/// What was read of the bytes of a unit so far: its tokens, and the part that is open.
#[derive(Debug, Drop)]
pub(crate) struct Reader {
    alloc: Global,
    tokens: Vec<Token>,
    /// The bytes of the open part.
    text: Vec<u8>,
    /// What they are, if a part is open.
    mode: Option<Mode>,
    /// Where that part begins.
    place: Place,
    /// Why the bytes are no tokens, and where.
    refused: Option<(Refusal, Pos)>,
}

impl Reader {
    pub(crate) fn new(alloc: Global) -> Reader
        ensures { state_of result ≡ start_state }
    {
        Reader {
            alloc,
            tokens: Vec::new(alloc),
            text: Vec::new(alloc),
            mode: None,
            place: Place::START,
            refused: None,
        }
    }

    /// The byte goes on with the open part, or begins one.
    fn go_on(&mut self, mode: Mode, byte: u8) -> Result<(), AllocError>
        ensures ok { OnOk result (state_of self.new ≡ after_byte (state_of self.old) mode byte) }
        ensures within { OnOk result (IsPlaced self.old.place
            → IsWithin (state_of self.new) (reach (state_of self.old) + 1)) }
    {
        self.text.push(byte)?;
        self.mode = Some(mode);
        Ok(())
    }

    /// The open part is white space.
    fn skip(&mut self)
        requires { IsWithin (state_of self.old) 4194304 }
        ensures value { state_of self.new ≡ after_white (state_of self.old) }
        ensures within { IsWithin (state_of self.new) (reach (state_of self.old)) }
    {
        self.place = self.place.behind_white(&self.text);
        self.text.clear();
        self.mode = None;
    }

    /// The open part is this token.
    fn add(&mut self, body: Body) -> Result<(), AllocError>
        requires { IsWithin (state_of self.old) 4194304 }
        ensures ok { OnOk result (state_of self.new ≡ after_token (state_of self.old) body) }
        ensures within { OnOk result (IsWithin (state_of self.new) (reach (state_of self.old))) }
    {
        let from = self.place.at;
        let pos = self.place.pos;
        let to = from + self.text.len() as u32;
        self.tokens.push(Token {
            body,
            from,
            to,
            pos,
        })?;
        self.place = self.place.behind_token(&self.text);
        self.text.clear();
        self.mode = None;
        Ok(())
    }

    fn end(&mut self, end: Ending) -> Result<(), AllocError>
        requires { IsWithin (state_of self.old) 4194304 }
        ensures ok { OnOk result (state_of self.new ≡ after_ending (state_of self.old) end) }
        ensures within { OnOk result (IsWithin (state_of self.new) (reach (state_of self.old))) }
    {
        match end {
            Ending::White => {
                self.skip();
                Ok(())
            }
            Ending::Token(body) => self.add(body),
            Ending::Refused(why) => {
                self.refused = Some((why, self.place.pos));
                Ok(())
            }
        }
    }

    /// Ends the open part, if a part is open.
    fn close(&mut self) -> Result<(), AllocError>
        requires { IsWithin (state_of self.old) 4194304 }
        ensures ok { OnOk result (Closes self.old.mode (state_of self.old) (state_of self.new)) }
        ensures within { OnOk result (IsWithin (state_of self.new) (reach (state_of self.old))) }
    {
        match self.mode {
            None => Ok(()),
            Some(mode) => {
                let end = end_of(self.alloc, mode, &self.text)?;
                self.end(end)
            }
        }
    }

    /// Where the byte leads, if a part is open and it goes on with it.
    fn next(&self, byte: u8) -> Option<Mode>
        ensures { result ≡ next_part self.now.mode self.now.text.items byte }
    {
        match self.mode {
            None => None,
            Some(mode) => mode.next(&self.text, byte),
        }
    }

    /// The byte begins a part, unless the bytes are refused.
    fn begin(&mut self, byte: u8) -> Result<(), AllocError>
        ensures ok { OnOk result (BeginsOr self.old.refused (state_of self.old) byte (state_of self.new)) }
        ensures within { OnOk result (IsPlaced self.old.place
            → IsWithin (state_of self.new) (reach (state_of self.old) + 1)) }
    {
        if self.refused.is_some() {
            return Ok(());
        }
        self.go_on(Mode::first(self.place.at_line_start, byte), byte)
    }

    /// The first of two points is a token, and the last is open.
    fn give_back(&mut self) -> Result<(), AllocError>
        requires { IsWithin (state_of self.old) 4194304 }
        ensures ok { OnOk result (IsParted true (state_of self.old) (state_of self.new)) }
        ensures within { OnOk result (IsWithin (state_of self.new) (reach (state_of self.old))) }
    {
        match self.text.pop() {
            None => Ok(()),
            Some(point) => {
                self.add(Body::Mark(Punct::Dot))?;
                self.go_on(Mode::Dot, point)
            }
        }
    }

    /// Two points that no third follows are two tokens.
    fn part_points(&mut self, next: Option<u8>) -> Result<(), AllocError>
        requires { IsWithin (state_of self.old) 4194304 }
        ensures ok { OnOk result (IsParted (is_pair self.old.mode next) (state_of self.old) (state_of self.new)) }
        ensures within { OnOk result (IsWithin (state_of self.new) (reach (state_of self.old))) }
    {
        if is_pair(self.mode, next) {
            self.give_back()
        } else {
            Ok(())
        }
    }

    /// The byte goes on with the open part, or ends it and begins the next; two points are no open part before
    /// another byte.
    fn follow(&mut self, byte: u8) -> Result<(), AllocError>
        requires { IsWithin (state_of self.old) 4194303 }
        ensures read { OnOk result ((bytes : List ℕ) → self.old.refused ≡ None
            → (self.old.mode ≡ Some mode.Dots → byte ≡ 46)
            → IsRead (Byte byte) (state_of self.old) bytes
            → IsRead Anything (state_of self.new) (bytes ++ (byte ∷ []))) }
        ensures within { OnOk result (IsWithin (state_of self.new) (reach (state_of self.old) + 1)) }
    {
        match self.next(byte) {
            Some(mode) => self.go_on(mode, byte),
            None => {
                self.close()?;
                self.begin(byte)
            }
        }
    }

    /// Takes the next byte.
    fn take(&mut self, byte: u8) -> Result<(), AllocError>
        requires { IsWithin (state_of self.old) 4194303 }
        ensures read { OnOk result ((bytes : List ℕ) → IsRead Anything (state_of self.old) bytes
            → IsRead Anything (state_of self.new) (bytes ++ (byte ∷ []))) }
        ensures within { OnOk result (IsWithin (state_of self.new) (reach (state_of self.old) + 1)) }
    {
        if self.refused.is_some() {
            return Ok(());
        }
        self.part_points(Some(byte))?;
        self.follow(byte)
    }

    /// Takes the next bytes.
    pub(crate) fn take_all(&mut self, piece: &[u8]) -> Result<(), AllocError>
        requires placed { IsPlaced self.old.place }
        requires room { reach (state_of self.old) + length piece.now ≤ 4194304 }
        ensures read { OnOk result ((bytes : List ℕ) → IsRead Anything (state_of self.old) bytes
            → IsRead Anything (state_of self.new) (bytes ++ piece.now)) }
        ensures within { OnOk result (IsWithin (state_of self.new) (reach (state_of self.old) + length piece.now)) }
    {
        for byte in piece {
            self.take(*byte)?;
        }
        Ok(())
    }

    /// Nothing comes any more: ends what is open.
    pub(crate) fn finish(&mut self) -> Result<(), AllocError>
        requires { IsWithin (state_of self.old) 4194304 }
        ensures read { OnOk result ((bytes : List ℕ) → IsRead Anything (state_of self.old) bytes
            → IsRead End (state_of self.new) bytes) }
        ensures whole { OnOk result (self.new.refused ≡ None → self.new.mode ≡ None) }
    {
        if self.refused.is_some() {
            return Ok(());
        }
        self.part_points(None)?;
        self.close()
    }

    /// The tokens that were read, or why there are none, where nothing comes any more.
    pub(crate) fn into_tokens(mut self) -> Result<Tokens, LexFault>
        requires { IsWithin (state_of self) greatest_size }
        ensures tokens { IfOk result (λ stream. (bytes : List ℕ) → IsRead Anything (state_of self) bytes
            → AreTokens bytes stream) }
        ensures refused { IfErr result (λ fault. (bytes : List ℕ) → IsRead Anything (state_of self) bytes
            → IsReadFault bytes fault) }
    {
        self.finish()?;
        match self.refused {
            Some((why, pos)) => Err(LexFault::Refused(why, pos)),
            None => Ok(Tokens::new(self.tokens, self.place.pos)),
        }
    }
}

fn is_pair(mode: Option<Mode>, next: Option<u8>) -> bool
    ensures { result ≡ is_pair mode next }
{
    match mode {
        Some(Mode::Dots) => is_other(next),
        _ => false,
    }
}

fn is_other(next: Option<u8>) -> bool
    ensures { result ≡ is_other next }
{
    next != Some(b'.')
}
