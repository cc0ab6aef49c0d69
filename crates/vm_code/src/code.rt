//! The code of a unit as it is built.
ghost use Rattle.std.specs.Prelude.{◌≡◌, ◌+◌, ◌<◌, [], ◌∷◌, ◌++◌, length, IfOk, OnOk, OnErr};
ghost use Rattle.vm_code.specs.Contents.{no_code, with_instr, function_room, type_room, IsFreeStart, FunctionFits};
ghost use Rattle.vm_code.specs.Contents.{ObjectFits};
ghost use Rattle.vm_code.specs.Built.{IsBuilt};

use crate::instr::Instr;
use crate::parts::{CodeCalled, CodeFunction, CodeObject, Parameter};
use crate::sequence::Sequence;
use c_core::Form;
use critical_table::{Name, Pos};
use lib_defs::ArgKind;
use run_defs::Seal;
use std::alloc::{AllocError, Global};
use std::marker::Model;

/// The code of a unit as it is built: instructions with their places in the unit, functions, static objects, texts and
/// called types. Contracts see the lists of them.
#[derive(Drop)]
pub struct Code {
    alloc: Global,
    pub(crate) instrs: Vec<(Instr, Pos)>,
    pub(crate) functions: Vec<CodeFunction>,
    pub(crate) objects: Vec<CodeObject>,
    pub(crate) texts: Vec<Sequence<u8>>,
    pub(crate) types: Vec<CodeCalled>,
}

impl Model for Code {
    ghost use Rattle.vm_code.specs.Contents.{Contents};

    ghost Value = { Contents };

    ghost use Rattle.vm_code.specs.Inner.{contents_of, IsBuiltInside};

    ghost view = { contents_of };

    ghost invariant = { IsBuiltInside };
}

impl Code {
    /// Code without any part.
    pub fn new(alloc: Global) -> Result<Code, AllocError>
        ensures { IfOk result (λ code. code ≡ no_code) }
    {
        Ok(Code {
            alloc,
            instrs: Vec::new(alloc),
            functions: Vec::new(alloc),
            objects: Vec::new(alloc),
            texts: Vec::new(alloc),
            types: Vec::new(alloc),
        })
    }

    /// Adds an instruction behind the others, and answers its number, from 0. A stop at it is told at `pos`.
    pub fn instr(&mut self, instr: Instr, pos: Pos) -> Result<usize, AllocError>
        ensures index { IfOk result (λ index. index ≡ length self.old.instrs) }
        ensures ok { OnOk result (self.new ≡ record self.old { instrs = self.old.instrs ++ (instr, pos) ∷ [] }) }
        ensures err { OnErr result (self.new ≡ self.old) }
    {
        let index = self.instrs.len();
        self.instrs.push((instr, pos))?;
        Ok(index)
    }

    /// Puts another instruction in the place of one, with the same `pos`.
    pub fn patch(&mut self, index: usize, instr: Instr)
        requires { index < length self.old.instrs }
        ensures { self.new ≡ record self.old { instrs = with_instr self.old.instrs index instr } }
    {
        self.instrs[index].0 = instr;
    }

    /// Adds a function that starts at an instruction, and answers its number, from 1. `room` is the size of the
    /// structure that it gives.
    pub fn function(
        &mut self,
        name: &[u8],
        start: usize,
        parameters: &[Parameter],
        form: Form,
        room: u32,
    ) -> Result<u32, AllocError>
        requires few { length self.old.functions < function_room }
        requires start { start < length self.old.instrs }
        requires free { IsFreeStart self.old.functions start }
        requires fits { FunctionFits parameters.now form room }
        ensures number { IfOk result (λ number. number ≡ length self.old.functions + 1) }
        ensures ok { OnOk result (self.new ≡ record self.old {
          functions = self.old.functions ++ record {
            name = name.now;
            start = start;
            parameters = parameters.now;
            form = form;
            room = room;
          } ∷ [];
        }) }
        ensures err { OnErr result (self.new ≡ self.old) }
    {
        let name = Name::new(self.alloc, name)?;
        let parameters = Sequence::new(Vec::from_slice(self.alloc, parameters)?);
        self.functions.push(CodeFunction {
            name,
            start,
            parameters,
            form,
            room,
        })?;
        Ok(self.functions.len() as u32)
    }

    /// Adds a static object with these contents and marks, and answers its number, from 0.
    pub fn object(&mut self, bytes: &[u8], seals: &[Seal]) -> Result<u32, AllocError>
        requires few { length self.old.objects < function_room }
        requires fits { ObjectFits bytes.now seals.now }
        ensures index { IfOk result (λ index. index ≡ length self.old.objects) }
        ensures ok { OnOk result (self.new ≡ record self.old {
          objects = self.old.objects ++ record { bytes = bytes.now; seals = seals.now } ∷ [];
        }) }
        ensures err { OnErr result (self.new ≡ self.old) }
    {
        let bytes = Sequence::new(Vec::from_slice(self.alloc, bytes)?);
        let seals = Sequence::new(Vec::from_slice(self.alloc, seals)?);
        let index = self.objects.len() as u32;
        self.objects.push(CodeObject { bytes, seals })?;
        Ok(index)
    }

    /// Adds a text, and answers its number, from 0.
    pub fn text(&mut self, bytes: &[u8]) -> Result<u32, AllocError>
        requires few { length self.old.texts < type_room }
        ensures index { IfOk result (λ index. index ≡ length self.old.texts) }
        ensures ok { OnOk result (self.new ≡ record self.old { texts = self.old.texts ++ bytes.now ∷ [] }) }
        ensures err { OnErr result (self.new ≡ self.old) }
    {
        let text = Sequence::new(Vec::from_slice(self.alloc, bytes)?);
        let index = self.texts.len() as u32;
        self.texts.push(text)?;
        Ok(index)
    }

    /// Adds a called type, and answers its number, from 0.
    pub fn called(
        &mut self,
        functions: &[u32],
        arguments: &[Form],
        kinds: &[ArgKind],
        form: Form,
    ) -> Result<u32, AllocError>
        requires few { length self.old.types < type_room }
        ensures index { IfOk result (λ index. index ≡ length self.old.types) }
        ensures ok { OnOk result (self.new ≡ record self.old {
          types = self.old.types ++ record {
            functions = functions.now;
            arguments = arguments.now;
            kinds = kinds.now;
            form = form;
          } ∷ [];
        }) }
        ensures err { OnErr result (self.new ≡ self.old) }
    {
        let functions = Sequence::new(Vec::from_slice(self.alloc, functions)?);
        let arguments = Sequence::new(Vec::from_slice(self.alloc, arguments)?);
        let kinds = Sequence::new(Vec::from_slice(self.alloc, kinds)?);
        let index = self.types.len() as u32;
        self.types.push(CodeCalled {
            functions,
            arguments,
            kinds,
            form,
        })?;
        Ok(index)
    }

    /// What is known of each code that is built.
    pub fn built_law(&self)
        ensures { IsBuilt self.now }
    {
        let _instrs = &self.instrs;
    }
}
