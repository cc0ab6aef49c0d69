//! The text of an instruction.
ghost use Rattle.std.specs.Prelude.{◌≡◌, ℕ, ◌+◌, ◌≤◌, ◌++◌, codes, length, decimal};
ghost use Rattle.std.specs.Fmt.{signed_decimal};
ghost use Rattle.run_defs.specs.Lines.{by_text, pointer_text};
ghost use Rattle.vm_code.specs.Listing.{kind_text, scalar_text, operator_text, comparison_text, relation_text};
ghost use Rattle.vm_code.specs.Listing.{sign_text};
ghost use Rattle.vm_code.specs.Listing.{number_text, instr_text};

use crate::instr::Instr;
use acc_num::IntKind;
use c_core::{Comparison, Operator, Relation, Scalar, Stride};
use critical_table::Line;
use itoa::Buffer;
use object_store::{By, Pointer};

pub(crate) fn push_decimal(line: &mut Line, number: u64)
    requires { length line.old + 20 ≤ 160 }
    ensures text { line.new ≡ line.old ++ decimal number }
    ensures short { length line.new ≤ length line.old + 20 }
{
    let mut buffer = Buffer::new();
    line.push(buffer.format(number).as_bytes());
}

fn push_integer(line: &mut Line, number: i128)
    requires { length line.old + 40 ≤ 160 }
    ensures text { line.new ≡ line.old ++ signed_decimal number }
    ensures short { length line.new ≤ length line.old + 40 }
{
    let mut buffer = Buffer::new();
    line.push(buffer.format(number).as_bytes());
}

/// ` ` and a number.
pub(crate) fn push_number(line: &mut Line, number: u64)
    requires { length line.old + 21 ≤ 160 }
    ensures text { line.new ≡ line.old ++ number_text number }
    ensures short { length line.new ≤ length line.old + 21 }
{
    line.push(b" ");
    push_decimal(line, number);
}

pub(crate) fn push_kind(line: &mut Line, kind: IntKind)
    requires { length line.old + 4 ≤ 160 }
    ensures text { line.new ≡ line.old ++ kind_text kind }
    ensures short { length line.new ≤ length line.old + 4 }
{
    match kind {
        IntKind::Bool => line.push(b"bool"),
        IntKind::I8 => line.push(b"i8"),
        IntKind::U8 => line.push(b"u8"),
        IntKind::I16 => line.push(b"i16"),
        IntKind::U16 => line.push(b"u16"),
        IntKind::I32 => line.push(b"i32"),
        IntKind::U32 => line.push(b"u32"),
        IntKind::I64 => line.push(b"i64"),
        IntKind::U64 => line.push(b"u64"),
    }
}

fn push_scalar(line: &mut Line, scalar: Scalar)
    requires { length line.old + 4 ≤ 160 }
    ensures text { line.new ≡ line.old ++ scalar_text scalar }
    ensures short { length line.new ≤ length line.old + 4 }
{
    match scalar {
        Scalar::Number(kind) => push_kind(line, kind),
        Scalar::Pointer => line.push(b"ptr"),
    }
}

fn push_operator(line: &mut Line, operator: Operator)
    requires { length line.old + 3 ≤ 160 }
    ensures text { line.new ≡ line.old ++ operator_text operator }
    ensures short { length line.new ≤ length line.old + 3 }
{
    match operator {
        Operator::Add => line.push(b"add"),
        Operator::Subtract => line.push(b"sub"),
        Operator::Multiply => line.push(b"mul"),
        Operator::Divide => line.push(b"div"),
        Operator::Remainder => line.push(b"rem"),
        Operator::ShiftLeft => line.push(b"shl"),
        Operator::ShiftRight => line.push(b"shr"),
        Operator::BitAnd => line.push(b"and"),
        Operator::BitOr => line.push(b"or"),
        Operator::BitXor => line.push(b"xor"),
    }
}

fn push_comparison(line: &mut Line, comparison: Comparison)
    requires { length line.old + 2 ≤ 160 }
    ensures text { line.new ≡ line.old ++ comparison_text comparison }
    ensures short { length line.new ≤ length line.old + 2 }
{
    match comparison {
        Comparison::Less => line.push(b"lt"),
        Comparison::LessEqual => line.push(b"le"),
        Comparison::Equal => line.push(b"eq"),
        Comparison::NotEqual => line.push(b"ne"),
        Comparison::GreaterEqual => line.push(b"ge"),
        Comparison::Greater => line.push(b"gt"),
    }
}

fn push_relation(line: &mut Line, relation: Relation)
    requires { length line.old + 2 ≤ 160 }
    ensures text { line.new ≡ line.old ++ relation_text relation }
    ensures short { length line.new ≤ length line.old + 2 }
{
    match relation {
        Relation::Less => line.push(b"lt"),
        Relation::LessEqual => line.push(b"le"),
        Relation::GreaterEqual => line.push(b"ge"),
        Relation::Greater => line.push(b"gt"),
    }
}

fn push_by(line: &mut Line, by: By)
    requires { length line.old + 10 ≤ 160 }
    ensures text { line.new ≡ line.old ++ by_text by }
    ensures short { length line.new ≤ length line.old + 10 }
{
    match by {
        By::Star => line.push(b"star"),
        By::Arrow => line.push(b"arrow"),
        By::Store => line.push(b"store"),
        By::TextRead => line.push(b"textread"),
        By::TextWrite => line.push(b"textwrite"),
        By::OtherRead => line.push(b"otherread"),
        By::OtherWrite => line.push(b"otherwrite"),
    }
}

fn push_pointer(line: &mut Line, pointer: Pointer)
    requires { length line.old + 83 ≤ 160 }
    ensures text { line.new ≡ line.old ++ pointer_text pointer }
    ensures short { length line.new ≤ length line.old + 83 }
{
    push_decimal(line, u64::from(pointer.object));
    push_number(line, u64::from(pointer.offset));
    push_number(line, u64::from(pointer.low));
    push_number(line, u64::from(pointer.high));
}

fn push_stride(line: &mut Line, stride: Stride)
    requires { length line.old + 21 ≤ 160 }
    ensures text { line.new ≡ line.old ++ (sign_text stride.back ++ decimal stride.size) }
    ensures short { length line.new ≤ length line.old + 21 }
{
    if stride.back {
        line.push(b"-");
    }
    push_decimal(line, u64::from(stride.size));
}

/// A name and a number.
fn push_one(line: &mut Line, name: &str, number: u64)
    requires name { length name.now ≤ 12 }
    requires room { length line.old ≤ 40 }
    ensures text { line.new ≡ line.old ++ (name.now ++ number_text number) }
    ensures short { length line.new ≤ 150 }
{
    line.push(name.as_bytes());
    push_number(line, number);
}

/// A name and two numbers.
fn push_two(line: &mut Line, name: &str, first: u64, second: u64)
    requires name { length name.now ≤ 12 }
    requires room { length line.old ≤ 40 }
    ensures text { line.new ≡ line.old ++ (name.now ++ number_text first ++ number_text second) }
    ensures short { length line.new ≤ 100 }
{
    line.push(name.as_bytes());
    push_number(line, first);
    push_number(line, second);
}

/// A name and a kind.
fn push_kinded(line: &mut Line, name: &str, kind: IntKind)
    requires name { length name.now ≤ 12 }
    requires room { length line.old ≤ 40 }
    ensures text { line.new ≡ line.old ++ (name.now ++ kind_text kind) }
    ensures short { length line.new ≤ 150 }
{
    line.push(name.as_bytes());
    push_kind(line, kind);
}

fn push_constant(line: &mut Line, kind: IntKind, number: i128)
    requires { length line.old ≤ 40 }
    ensures text { line.new ≡ line.old ++ (codes "num " ++ kind_text kind ++ (codes " " ++ signed_decimal number)) }
    ensures short { length line.new ≤ 150 }
{
    line.push(b"num ");
    push_kind(line, kind);
    line.push(b" ");
    push_integer(line, number);
}

fn push_place(line: &mut Line, pointer: Pointer)
    requires { length line.old ≤ 40 }
    ensures text { line.new ≡ line.old ++ (codes "ptr " ++ pointer_text pointer) }
    ensures short { length line.new ≤ 150 }
{
    line.push(b"ptr ");
    push_pointer(line, pointer);
}

fn push_reach(line: &mut Line, len: u32, align: u32, by: By)
    requires { length line.old ≤ 40 }
    ensures text { line.new ≡ line.old
        ++ (codes "reach" ++ number_text len ++ number_text align ++ (codes " " ++ by_text by)) }
    ensures short { length line.new ≤ 150 }
{
    push_two(line, "reach", u64::from(len), u64::from(align));
    line.push(b" ");
    push_by(line, by);
}

fn push_access(line: &mut Line, name: &str, scalar: Scalar)
    requires name { length name.now ≤ 12 }
    requires room { length line.old ≤ 40 }
    ensures text { line.new ≡ line.old ++ (name.now ++ scalar_text scalar) }
    ensures short { length line.new ≤ 150 }
{
    line.push(name.as_bytes());
    push_scalar(line, scalar);
}

fn push_seal(line: &mut Line, slot: u32, at: u32, len: u32)
    requires { length line.old ≤ 40 }
    ensures text { line.new ≡ line.old
        ++ (codes "seal" ++ number_text slot ++ number_text at ++ number_text len) }
    ensures short { length line.new ≤ 150 }
{
    push_two(line, "seal", u64::from(slot), u64::from(at));
    push_number(line, u64::from(len));
}

fn push_binary(line: &mut Line, operator: Operator, kind: IntKind)
    requires { length line.old ≤ 40 }
    ensures text { line.new ≡ line.old ++ (operator_text operator ++ (codes " " ++ kind_text kind)) }
    ensures short { length line.new ≤ 150 }
{
    push_operator(line, operator);
    line.push(b" ");
    push_kind(line, kind);
}

fn push_compare(line: &mut Line, comparison: Comparison)
    requires { length line.old ≤ 40 }
    ensures text { line.new ≡ line.old ++ (codes "cmp " ++ comparison_text comparison) }
    ensures short { length line.new ≤ 150 }
{
    line.push(b"cmp ");
    push_comparison(line, comparison);
}

fn push_order(line: &mut Line, relation: Relation)
    requires { length line.old ≤ 40 }
    ensures text { line.new ≡ line.old ++ (codes "order " ++ relation_text relation) }
    ensures short { length line.new ≤ 150 }
{
    line.push(b"order ");
    push_relation(line, relation);
}

fn push_step(line: &mut Line, stride: Stride)
    requires { length line.old ≤ 40 }
    ensures text { line.new ≡ line.old ++ (codes "step " ++ sign_text stride.back ++ decimal stride.size) }
    ensures short { length line.new ≤ 150 }
{
    line.push(b"step ");
    push_stride(line, stride);
}

fn push_pair(line: &mut Line, value: i128, to: usize)
    requires { length line.old ≤ 40 }
    ensures text { line.new ≡ line.old ++ (codes "pair " ++ signed_decimal value ++ number_text to) }
    ensures short { length line.new ≤ 150 }
{
    line.push(b"pair ");
    push_integer(line, value);
    push_number(line, to as u64);
}

/// The name and the operands of an instruction.
pub(crate) fn push_instr(line: &mut Line, instr: Instr)
    requires { length line.old ≤ 40 }
    ensures text { line.new ≡ line.old ++ instr_text instr }
    ensures short { length line.new ≤ 150 }
{
    match instr {
        Instr::Number(kind, number) => push_constant(line, kind, number),
        Instr::Pointer(pointer) => push_place(line, pointer),
        Instr::Slot(slot) => push_one(line, "slot", u64::from(slot)),
        Instr::Result => line.push(b"result"),
        Instr::Duplicate => line.push(b"dup"),
        Instr::Drop => line.push(b"drop"),
        Instr::Swap => line.push(b"swap"),
        Instr::Over => line.push(b"over"),
        Instr::Reach(len, align, by) => push_reach(line, len, align, by),
        Instr::Load(scalar) => push_access(line, "load ", scalar),
        Instr::Store(scalar) => push_access(line, "store ", scalar),
        Instr::Zero(len) => push_one(line, "zero", u64::from(len)),
        Instr::Pool(text) => push_one(line, "pool", u64::from(text)),
        Instr::Copy(len) => push_one(line, "copy", u64::from(len)),
        Instr::Make(slot, size) => push_two(line, "make", u64::from(slot), u64::from(size)),
        Instr::Seal(slot, at, len) => push_seal(line, slot, at, len),
        Instr::Kill(slot) => push_one(line, "kill", u64::from(slot)),
        Instr::Binary(operator, kind) => push_binary(line, operator, kind),
        Instr::Negate(kind) => push_kinded(line, "neg ", kind),
        Instr::Flip(kind) => push_kinded(line, "flip ", kind),
        Instr::Convert(kind) => push_kinded(line, "conv ", kind),
        Instr::Not => line.push(b"not"),
        Instr::Compare(comparison) => push_compare(line, comparison),
        Instr::IsNull => line.push(b"isnull"),
        Instr::Same => line.push(b"same"),
        Instr::Order(relation) => push_order(line, relation),
        Instr::Step(stride) => push_step(line, stride),
        Instr::Difference(size) => push_one(line, "diff", u64::from(size)),
        Instr::Member(at) => push_one(line, "member", u64::from(at)),
        Instr::Narrow(len) => push_one(line, "narrow", u64::from(len)),
        Instr::Jump(to) => push_one(line, "jump", to as u64),
        Instr::IfZero(to) => push_one(line, "ifz", to as u64),
        Instr::Cases(count) => push_one(line, "cases", u64::from(count)),
        Instr::Pair(value, to) => push_pair(line, value, to),
        Instr::Default(to) => push_one(line, "default", to as u64),
        Instr::Tick => line.push(b"tick"),
        Instr::Call(count, called) => {
            push_two(line, "call", u64::from(count), u64::from(called))
        }
        Instr::Used => line.push(b"used"),
        Instr::Give => line.push(b"give"),
        Instr::Leave => line.push(b"leave"),
    }
}
