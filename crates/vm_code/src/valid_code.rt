//! Valid code.
ghost use Rattle.std.specs.Prelude.{◌≡◌, slice_get, option_copied};
ghost use Rattle.vm_code.specs.Contents.{function_at};
ghost use Rattle.vm_code.specs.Built.{IsBuilt};
ghost use Rattle.vm_code.specs.Valid.{IsValid};

use crate::code::Code;
use crate::instr::Instr;
use crate::parts::{CodeCalled, CodeFunction, CodeObject};
use critical_table::Pos;
use std::marker::Model;

/// Code that is valid: on no way through it an operand or an object is missing, and it jumps back to ticks alone.
/// Contracts see what it holds.
#[derive(Drop)]
pub struct ValidCode {
    code: Code,
}

impl Model for ValidCode {
    ghost use Rattle.vm_code.specs.Contents.{Contents};

    ghost Value = { Contents };

    ghost use Rattle.vm_code.specs.Valid.{IsValid};

    ghost view = { λ valid. valid.code };

    ghost invariant = { λ valid. IsValid valid.code };
}

impl ValidCode {
    /// Code that is known to be valid. It is not looked at again.
    pub fn new(code: Code) -> ValidCode
        requires { IsValid code }
        ensures { result ≡ code }
    {
        ValidCode { code }
    }

    /// What the code holds.
    pub(crate) fn code(&self) -> &Code
        ensures { result.now ≡ self.now }
    {
        &self.code
    }

    /// The instruction with this number, from 0, and its place in the unit; `None` exactly where there is none.
    pub fn instr(&self, index: usize) -> Option<(Instr, Pos)>
        ensures { result ≡ slice_get self.now.instrs index }
    {
        self.code.instr_at(index)
    }

    /// The function with this number, from 1; `None` exactly where there is none.
    pub fn function(&self, number: u32) -> Option<&CodeFunction>
        ensures { option_copied result ≡ function_at self.now.functions number }
    {
        self.code.function_at(number)
    }

    /// The static object with this number, from 0; `None` exactly where there is none.
    pub fn object(&self, index: u32) -> Option<&CodeObject>
        ensures { option_copied result ≡ slice_get self.now.objects index }
    {
        self.code.object_at(index)
    }

    /// The text with this number, from 0; `None` exactly where there is none.
    pub fn text(&self, index: u32) -> Option<&[u8]>
        ensures { option_copied result ≡ slice_get self.now.texts index }
    {
        self.code.text_at(index)
    }

    /// The called type with this number, from 0; `None` exactly where there is none.
    pub fn called(&self, index: u32) -> Option<&CodeCalled>
        ensures { option_copied result ≡ slice_get self.now.types index }
    {
        self.code.called_at(index)
    }

    /// What is known of each such code.
    pub fn valid_law(&self)
        ensures valid { IsValid self.now }
        ensures built { IsBuilt self.now }
    {
        self.code.built_law();
    }
}
