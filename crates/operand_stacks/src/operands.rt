//! Operands that are taken off a stack.
ghost use Rattle.std.specs.Prelude.{◌≡◌, ◌<◌, ◌∷◌, length, reverse, take, IfSome, if◌then◌else◌};
ghost use Rattle.std.specs.Option.{option_map, option_and_then};
ghost use Rattle.c_core.specs.Operations.{is_shift};
ghost use Rattle.operand_stacks.specs.Stacks.{stack_at};
ghost use Rattle.vm_code.specs.OperandKinds.{same_scalar, form_kind, pop, pop_number, pop_two, pop_form, pop_forms};
ghost use Rattle.vm_code.specs.OperandKinds.{pop_any, pop_operands, pop_result, pop_call};

use crate::stacks::Stacks;
use acc_num::IntKind;
use c_core::{Form, Operator, Scalar};
use vm_code::CodeCalled;

fn is_same_scalar(one: Scalar, other: Scalar) -> bool
    ensures { result ≡ same_scalar one other }
{
    one == other
}

/// The operand that a value of a form is.
fn kind_of(form: Form) -> Option<Scalar>
    ensures { result ≡ form_kind form }
{
    match form {
        Form::Number(kind) => Some(Scalar::Number(kind)),
        Form::Pointer | Form::Place => Some(Scalar::Pointer),
        Form::Nothing => None,
    }
}

impl Stacks {
    /// Without its top, where that is of this kind.
    pub fn pop(&self, kind: Scalar, stack: usize) -> Option<usize>
        ensures is { option_map (stack_at self.now) result ≡ pop kind (stack_at self.now stack) }
        ensures within { IfSome result (λ number. number < length self.now) }
    {
        let top = self.top(stack)?;
        if !is_same_scalar(kind, top.kind) {
            return None;
        }
        Some(top.below)
    }

    /// Without its top, where that is a number.
    pub fn pop_number(&self, stack: usize) -> Option<usize>
        ensures is { option_map (stack_at self.now) result ≡ pop_number (stack_at self.now stack) }
        ensures within { IfSome result (λ number. number < length self.now) }
    {
        let top = self.top(stack)?;
        match top.kind {
            Scalar::Number(_) => Some(top.below),
            Scalar::Pointer => None,
        }
    }

    /// Without its top.
    pub fn pop_any(&self, stack: usize) -> Option<usize>
        ensures is { option_map (stack_at self.now) result ≡ pop_any (stack_at self.now stack) }
        ensures within { IfSome result (λ number. number < length self.now) }
    {
        Some(self.top(stack)?.below)
    }

    /// Without its top two, where they are of these kinds.
    pub fn pop_two(&self, top: Scalar, next: Scalar, stack: usize) -> Option<usize>
        ensures is { option_map (stack_at self.now) result ≡ pop_two top next (stack_at self.now stack) }
        ensures within { IfSome result (λ number. number < length self.now) }
    {
        let rest = self.pop(top, stack)?;
        self.pop(next, rest)
    }

    /// Without its top two, where they are numbers.
    pub fn pop_numbers(&self, stack: usize) -> Option<usize>
        ensures is { option_map (stack_at self.now) result
            ≡ option_and_then pop_number (pop_number (stack_at self.now stack)) }
        ensures within { IfSome result (λ number. number < length self.now) }
    {
        let rest = self.pop_number(stack)?;
        self.pop_number(rest)
    }

    /// Without its top two, a number and a pointer below it.
    pub fn pop_stride(&self, stack: usize) -> Option<usize>
        ensures is { option_map (stack_at self.now) result
            ≡ option_and_then (pop Scalar.Pointer) (pop_number (stack_at self.now stack)) }
        ensures within { IfSome result (λ number. number < length self.now) }
    {
        let rest = self.pop_number(stack)?;
        self.pop(Scalar::Pointer, rest)
    }

    /// Without the value that a function of this form gives.
    pub fn pop_form(&self, form: Form, stack: usize) -> Option<usize>
        ensures is { option_map (stack_at self.now) result ≡ pop_form form (stack_at self.now stack) }
        ensures within { IfSome result (λ number. number < length self.now) }
    {
        self.pop(kind_of(form)?, stack)
    }

    /// Without the operands of an operator; the count of a shift has any kind.
    pub fn pop_operands(&self, operator: Operator, kind: IntKind, stack: usize) -> Option<usize>
        ensures is { option_map (stack_at self.now) result ≡ pop_operands operator kind (stack_at self.now stack) }
        ensures within { IfSome result (λ number. number < length self.now) }
    {
        let rest = self.pop_right(operator, kind, stack)?;
        self.pop(Scalar::Number(kind), rest)
    }

    /// Without the right operand of an operator.
    fn pop_right(&self, operator: Operator, kind: IntKind, stack: usize) -> Option<usize>
        ensures is { option_map (stack_at self.now) result
            ≡ (if is_shift operator then pop_number (stack_at self.now stack)
            else pop (Scalar.Number kind) (stack_at self.now stack)) }
        ensures within { IfSome result (λ number. number < length self.now) }
    {
        match operator {
            Operator::ShiftLeft | Operator::ShiftRight => self.pop_number(stack),
            _ => self.pop(Scalar::Number(kind), stack),
        }
    }

    /// Without arguments of these forms, the last on top.
    fn pop_arguments(&self, forms: &[Form], stack: usize) -> Option<usize>
        requires { stack < length self.now }
        ensures is { option_map (stack_at self.now) result
            ≡ pop_forms (reverse forms.now) (stack_at self.now stack) }
        ensures within { IfSome result (λ number. number < length self.now) }
    {
        let mut rest = stack;
        let mut others = forms;
        while let Some((form, before)) = others.split_last() {
            rest = self.pop_form(*form, rest)?;
            others = before;
        }
        Some(rest)
    }

    /// Without the place for a structure, where a call gives one.
    fn pop_result(&self, form: Form, stack: usize) -> Option<usize>
        requires { stack < length self.now }
        ensures is { option_map (stack_at self.now) result ≡ pop_result form (stack_at self.now stack) }
        ensures within { IfSome result (λ number. number < length self.now) }
    {
        match form {
            Form::Place => self.pop(Scalar::Pointer, stack),
            _ => Some(stack),
        }
    }

    /// Without what a call takes: the function, the arguments, and the place for a structure on top.
    pub fn pop_call(&self, called: &CodeCalled, stack: usize) -> Option<usize>
        requires { stack < length self.now }
        ensures is { option_map (stack_at self.now) result ≡ pop_call called.now (stack_at self.now stack) }
        ensures within { IfSome result (λ number. number < length self.now) }
    {
        let arguments = self.pop_result(called.form, stack)?;
        let function = self.pop_arguments(called.arguments.as_slice(), arguments)?;
        self.pop(Scalar::Pointer, function)
    }
}
