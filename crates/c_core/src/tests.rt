//! Tests of `constant` over a table of constant expressions, and of a whole unit.
use super::*;
use acc_num::IntKind;
use c_types::{Basic, TypeId, TypeTable};
use critical_table::{Name, Pos};
use std::alloc::Global;
use std::test::Fail;

// What gcc 12.2 and clang 14.0 on x86-64 make of an expression in postfix order (oracles/constants.py): its value,
// `undefined` where an operation in an evaluated part is undefined, or `none` where it is no integer constant
// expression.
static CONSTANTS: [&str; 109] = [
    "2147483647 I32:2147483647",
    "18446744073709551615 U64:18446744073709551615",
    "2147483647 I32:2147483646 I32:1 add:I32",
    "undefined I32:2147483647 I32:1 add:I32",
    "undefined I32:-2147483648 I32:-1 add:I32",
    "0 U32:4294967295 U32:1 add:U32",
    "undefined I64:9223372036854775807 I64:1 add:I64",
    "1 U64:18446744073709551615 U64:2 add:U64",
    "undefined I32:-2147483648 I32:1 sub:I32",
    "undefined I32:0 I32:-2147483648 sub:I32",
    "4294967295 U32:0 U32:1 sub:U32",
    "18446744073709551615 U64:0 U64:1 sub:U64",
    "undefined I32:46341 I32:46341 mul:I32",
    "2147395600 I32:46340 I32:46340 mul:I32",
    "0 U32:65536 U32:65536 mul:U32",
    "8589934593 U64:4294967297 U64:4294967297 mul:U64",
    "-3 I32:-7 I32:2 div:I32",
    "-3 I32:7 I32:-2 div:I32",
    "undefined I32:7 I32:0 div:I32",
    "undefined I32:-2147483648 I32:-1 div:I32",
    "2147483644 U32:4294967289 U32:2 div:U32",
    "-1 I32:-7 I32:2 rem:I32",
    "1 I32:7 I32:-2 rem:I32",
    "undefined I32:7 I32:0 rem:I32",
    "undefined I32:-2147483648 I32:-1 rem:I32",
    "1073741824 I32:1 I32:30 shl:I32",
    "undefined I32:1 I32:31 shl:I32",
    "undefined I32:1 I32:32 shl:I32",
    "undefined I32:1 I32:-1 shl:I32",
    "undefined I32:-1 I32:1 shl:I32",
    "2147483648 U32:1 I32:31 shl:U32",
    "2147483648 U32:3 I64:31 shl:U32",
    "undefined U32:1 U64:32 shl:U32",
    "4611686018427387904 I64:1 I32:62 shl:I64",
    "-3 I32:-5 I32:1 shr:I32",
    "-1 I32:-1 U32:31 shr:I32",
    "1 U32:4294967295 I32:31 shr:U32",
    "undefined I32:1 I64:64 shr:I32",
    "255 I32:-1 I32:255 and:I32",
    "-2147483647 I32:-2147483648 I32:1 or:I32",
    "-2 I32:-1 I32:1 xor:I32",
    "18446744073709551614 U64:18446744073709551615 U64:1 xor:U64",
    "-4 I64:-2 I64:-3 and:I64",
    "undefined I32:-2147483648 neg:I32",
    "-2147483647 I32:2147483647 neg:I32",
    "4294967295 U32:1 neg:U32",
    "1 U64:18446744073709551615 neg:U64",
    "-1 I32:0 flip:I32",
    "2147483647 I32:-2147483648 flip:I32",
    "4294967295 U32:0 flip:U32",
    "18446744073709551614 U64:1 flip:U64",
    "1 I32:0 not",
    "0 U64:18446744073709551615 not",
    "1 I32:-1 I32:0 lt",
    "0 U32:4294967295 U32:0 lt",
    "1 I64:-1 I64:-1 le",
    "1 I32:3 I32:3 eq",
    "0 I32:3 I32:4 eq",
    "1 I32:3 I32:4 ne",
    "0 U64:0 U64:18446744073709551615 ge",
    "1 I32:5 I32:4 gt",
    "44 I32:300 conv:I8",
    "255 I32:-1 conv:U8",
    "-56 I32:200 conv:I8 conv:I32",
    "0 I32:65536 conv:I16",
    "65535 I32:-1 conv:U16",
    "0 I64:4294967296 conv:I32",
    "1 I64:4294967297 conv:Bool",
    "0 I32:0 conv:Bool",
    "1 I32:-1 conv:U32 U32:1 gt",
    "18446744073709551615 I32:-1 conv:U64",
    "4294967296 U32:4294967295 conv:I64 I64:1 add:I64",
    "undefined U32:2147483648 conv:I32 I32:-1 add:I32",
    "510 U8:255 conv:I32 U8:255 conv:I32 add:I32",
    "128 I32:128 conv:I8 conv:I32 neg:I32",
    "0 I32:0 I32:5 andalso",
    "1 I32:2 I32:5 andalso",
    "0 I32:2 I32:0 andalso",
    "0 I32:0 I32:1 I32:0 div:I32 andalso",
    "undefined I32:1 I32:1 I32:0 div:I32 andalso",
    "undefined I32:1 I32:0 div:I32 I32:0 andalso",
    "1 I32:0 I32:7 orelse",
    "0 I32:0 I32:0 orelse",
    "1 I32:3 I32:2147483647 I32:1 add:I32 orelse",
    "undefined I32:0 I32:2147483647 I32:1 add:I32 orelse",
    "10 I32:1 I32:10 I32:20 cond",
    "20 I32:0 I32:10 I32:20 cond",
    "10 I32:1 I32:10 I32:1 I32:0 rem:I32 cond",
    "undefined I32:0 I32:10 I32:1 I32:0 rem:I32 cond",
    "4 I32:0 I32:1 I32:-1 shl:I32 I32:4 cond",
    "1 I64:4294967296 I32:1 I32:2 cond",
    "7 I32:0 I32:1 I32:0 div:I32 andalso I32:6 I32:7 cond",
    "1 I32:1 I32:0 I32:3 orelse I32:0 I32:9 andalso cond",
    "none I32:1 I32:2 comma",
    "none I32:1 I32:1 I32:2 comma andalso",
    "none object",
    "none I32:0 object andalso",
    "none I32:1 object orelse",
    "none I32:1 I32:2 object cond",
    "none object conv:I8",
    "none I32:3 assign",
    "none I32:0 I32:3 assign andalso",
    "none call",
    "none I32:0 call andalso",
    "none I32:1 I32:4 call cond",
    "none pointer",
    "none I32:0 pointer andalso",
    "none object I32:1 I32:0 div:I32 add:I32",
    "none I32:1 I32:0 div:I32 object add:I32",
];

fn kind_of(word: &str) -> Option<IntKind> {
    match word {
        "Bool" => Some(IntKind::Bool),
        "I8" => Some(IntKind::I8),
        "U8" => Some(IntKind::U8),
        "I16" => Some(IntKind::I16),
        "U16" => Some(IntKind::U16),
        "I32" => Some(IntKind::I32),
        "U32" => Some(IntKind::U32),
        "I64" => Some(IntKind::I64),
        "U64" => Some(IntKind::U64),
        _ => None,
    }
}

// An expression with that node. Its type and its place tell nothing here.
fn expr(node: CoreNode) -> CoreExpr {
    CoreExpr {
        of: TypeId(0),
        pos: Pos { line: 1, column: 1 },
        node,
    }
}

fn in_box(alloc: Global, node: CoreNode) -> Result<Box<CoreExpr>, Fail> {
    Ok(Box::new(alloc, expr(node))?)
}

fn object(alloc: Global) -> Result<Box<CoreExpr>, Fail> {
    in_box(alloc, CoreNode::Object(ObjectName::Slot(0)))
}

// What is no constant by itself: an object, a call, a test of a pointer.
fn leaf(alloc: Global, name: &str) -> Result<CoreNode, Fail> {
    let int = Scalar::Number(IntKind::I32);
    match name {
        "object" => Ok(CoreNode::Load(int, object(alloc)?)),
        "call" => {
            let function = in_box(alloc, CoreNode::Function(FunctionName::Library(0)))?;
            let gives = Some(Content::Scalar(int));
            Ok(CoreNode::Call(true, gives, function, Vec::new(alloc)))
        }
        _ => Ok(CoreNode::IsNull(in_box(alloc, CoreNode::AddressOf(object(alloc)?))?)),
    }
}

fn unary(
    alloc: Global,
    name: &str,
    kind: IntKind,
    operand: Box<CoreExpr>,
) -> Result<CoreNode, Fail> {
    match name {
        "conv" => Ok(CoreNode::Convert(kind, operand)),
        "neg" => Ok(CoreNode::Negate(kind, operand)),
        "flip" => Ok(CoreNode::Flip(kind, operand)),
        "not" => Ok(CoreNode::Not(operand)),
        _ => {
            let int = Scalar::Number(IntKind::I32);
            Ok(CoreNode::Assign(int, object(alloc)?, operand))
        }
    }
}

fn operator_of(name: &str) -> Option<Operator> {
    match name {
        "add" => Some(Operator::Add),
        "sub" => Some(Operator::Subtract),
        "mul" => Some(Operator::Multiply),
        "div" => Some(Operator::Divide),
        "rem" => Some(Operator::Remainder),
        "shl" => Some(Operator::ShiftLeft),
        "shr" => Some(Operator::ShiftRight),
        "and" => Some(Operator::BitAnd),
        "or" => Some(Operator::BitOr),
        "xor" => Some(Operator::BitXor),
        _ => None,
    }
}

fn comparison_of(name: &str) -> Comparison {
    match name {
        "lt" => Comparison::Less,
        "le" => Comparison::LessEqual,
        "eq" => Comparison::Equal,
        "ne" => Comparison::NotEqual,
        "ge" => Comparison::GreaterEqual,
        _ => Comparison::Greater,
    }
}

fn binary(
    alloc: Global,
    name: &str,
    kind: IntKind,
    left: Box<CoreExpr>,
    right: Box<CoreExpr>,
) -> Result<CoreNode, Fail> {
    match name {
        "andalso" => Ok(CoreNode::AndAlso(left, right)),
        "orelse" => Ok(CoreNode::OrElse(left, right)),
        "comma" => Ok(CoreNode::Comma(in_box(alloc, CoreNode::Discard(left))?, right)),
        _ => match operator_of(name) {
            Some(operator) => Ok(CoreNode::Arithmetic(operator, kind, left, right)),
            None => Ok(CoreNode::Compare(comparison_of(name), left, right)),
        },
    }
}

fn take_operand(alloc: Global, operands: &mut Vec<CoreExpr>) -> Result<Box<CoreExpr>, Fail> {
    Ok(Box::new(alloc, operands.pop().ok_or("no operand")?)?)
}

// The node of a word over the operands that stand before it.
fn node_of(alloc: Global, word: &str, operands: &mut Vec<CoreExpr>) -> Result<CoreNode, Fail> {
    let mut parts = word.split(':');
    let name = parts.next().ok_or("no word")?;
    let rest = parts.next().unwrap_or("");
    if let Some(kind) = kind_of(name) {
        return Ok(CoreNode::Number(kind, rest.parse::<i128>()?));
    }
    let kind = kind_of(rest).unwrap_or(IntKind::I32);
    match name {
        "object" | "call" | "pointer" => leaf(alloc, name),
        "conv" | "neg" | "flip" | "not" | "assign" => {
            let operand = take_operand(alloc, operands)?;
            unary(alloc, name, kind, operand)
        }
        "cond" => {
            let second = take_operand(alloc, operands)?;
            let first = take_operand(alloc, operands)?;
            Ok(CoreNode::Cond(take_operand(alloc, operands)?, first, second))
        }
        _ => {
            let right = take_operand(alloc, operands)?;
            let left = take_operand(alloc, operands)?;
            binary(alloc, name, kind, left, right)
        }
    }
}

fn outcome_of(word: &str) -> Result<Result<i128, ConstFault>, Fail> {
    match word {
        "undefined" => Ok(Err(ConstFault::Value)),
        "none" => Ok(Err(ConstFault::NotConstant)),
        _ => Ok(Ok(word.parse::<i128>()?)),
    }
}

#[test]
fn gives_the_values_of_gcc_and_clang(rt: HostRuntime) -> Result<(), Fail> {
    let types = TypeTable::new(rt.alloc())?;
    for line in CONSTANTS.iter() {
        let mut words = line.split(' ');
        let expected = outcome_of(words.next().ok_or("no outcome")?)?;
        let mut operands = Vec::new(rt.alloc());
        for word in words {
            let node = node_of(rt.alloc(), word, &mut operands)?;
            operands.push(expr(node))?;
        }
        let built = operands.pop().ok_or("no expression")?;
        assert_eq!(rt; constant(&types, &built), expected, "{line}");
        assert_eq!(rt; operands.len(), 0, "{line}");
    }
    Ok(())
}

// int main(void){return 0;}
#[test]
fn keeps_a_unit(rt: HostRuntime) -> Result<(), Fail> {
    let mut types = TypeTable::new(rt.alloc())?;
    let int = types.basic(Basic::Int);
    let of = types.function(int, &[], false)?;
    let pos = Pos { line: 1, column: 5 };
    let node = CoreNode::Number(IntKind::I32, 0);
    let zero = CoreExpr { of: int, pos, node };
    let mut functions = Vec::new(rt.alloc());
    functions.push(CoreFunction {
        token: pos,
        name: Name::new(rt.alloc(), b"main")?,
        of,
        parameters: Vec::new(rt.alloc()),
        gives: Some(Content::Scalar(Scalar::Number(IntKind::I32))),
        slots: 0,
        body: CoreStatement {
            pos,
            action: CoreAction::ReturnValue(zero),
        },
    })?;
    let core = Core::new(types, functions, Vec::new(rt.alloc()));
    core.typed_law();
    assert_eq!(rt; core.functions().len(), 1);
    assert_eq!(rt; core.statics().len(), 0);
    assert_eq!(rt; core.types().size_of(int), Some(4));
    Ok(())
}
