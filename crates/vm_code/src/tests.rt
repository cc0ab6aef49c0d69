//! Each call of `Code`, over codes that are built by hand.
use super::*;
use acc_io::MemSink;
use acc_num::IntKind;
use c_core::{Comparison, Operator, Relation, Scalar, Stride};
use critical_table::Pos;
use lib_defs::ArgKind;
use object_store::{By, Mark, Pointer};
use std::alloc::{AllocError, Global};
use std::test::Fail;

const HERE: Pos = Pos { line: 1, column: 5 };

const THERE: Pos = Pos { line: 2, column: 1 };

#[test]
fn keeps_instructions(rt: HostRuntime) -> Result<(), Fail> {
    let mut code = Code::new(rt.alloc())?;
    assert_eq!(rt; code.instr_at(0), None);
    assert_eq!(rt; code.instr(Instr::Jump(0), HERE)?, 0);
    assert_eq!(rt; code.instr(Instr::Leave, THERE)?, 1);
    code.patch(0, Instr::Jump(1));
    assert_eq!(rt; code.instr_at(0), Some((Instr::Jump(1), HERE)));
    assert_eq!(rt; code.instr_at(1), Some((Instr::Leave, THERE)));
    assert_eq!(rt; code.instr_at(2), None);
    Ok(())
}

#[test]
fn keeps_functions(rt: HostRuntime) -> Result<(), Fail> {
    let int = Form::Number(IntKind::I32);
    let mut code = Code::new(rt.alloc())?;
    code.instr(Instr::Number(IntKind::I32, 0), HERE)?;
    code.instr(Instr::Give, HERE)?;
    code.instr(Instr::Leave, THERE)?;
    let parameter = Parameter { size: 4, form: int };
    assert_eq!(rt; code.function(b"main", 0, &[], int, 0)?, 1);
    assert_eq!(rt; code.function(b"f", 2, &[parameter], Form::Place, 12)?, 2);
    assert_eq!(rt; code.function_at(0).is_none(), true);
    let main = code.function_at(1).ok_or("main")?;
    assert_eq!(rt; main.name.bytes(), b"main".as_slice());
    assert_eq!(rt; main.start, 0);
    assert_eq!(rt; main.parameters.as_slice().len(), 0);
    assert_eq!(rt; main.form, int);
    let f = code.function_at(2).ok_or("f")?;
    assert_eq!(rt; f.name.bytes(), b"f".as_slice());
    assert_eq!(rt; f.start, 2);
    assert_eq!(rt; f.parameters.as_slice(), [parameter].as_slice());
    assert_eq!(rt; f.form, Form::Place);
    assert_eq!(rt; f.room, 12);
    assert_eq!(rt; code.function_at(3).is_none(), true);
    Ok(())
}

#[test]
fn keeps_objects(rt: HostRuntime) -> Result<(), Fail> {
    let mut code = Code::new(rt.alloc())?;
    let seal = Seal {
        at: 1,
        len: 2,
        mark: Mark::Const,
    };
    assert_eq!(rt; code.object(&[7, 8, 9], &[seal])?, 0);
    assert_eq!(rt; code.object(&[1], &[])?, 1);
    let object = code.object_at(0).ok_or("an object")?;
    assert_eq!(rt; object.bytes.as_slice(), [7, 8, 9].as_slice());
    assert_eq!(rt; object.seals.as_slice(), [seal].as_slice());
    let object = code.object_at(1).ok_or("an object")?;
    assert_eq!(rt; object.bytes.as_slice(), [1].as_slice());
    assert_eq!(rt; object.seals.as_slice().len(), 0);
    assert_eq!(rt; code.object_at(2).is_none(), true);
    Ok(())
}

#[test]
fn keeps_texts(rt: HostRuntime) -> Result<(), Fail> {
    let mut code = Code::new(rt.alloc())?;
    assert_eq!(rt; code.text(b"ab")?, 0);
    assert_eq!(rt; code.text(b"")?, 1);
    assert_eq!(rt; code.text_at(0).ok_or("a text")?, b"ab".as_slice());
    assert_eq!(rt; code.text_at(1).ok_or("a text")?.len(), 0);
    assert_eq!(rt; code.text_at(2).is_none(), true);
    Ok(())
}

#[test]
fn keeps_called_types(rt: HostRuntime) -> Result<(), Fail> {
    let mut code = Code::new(rt.alloc())?;
    let kinds = [ArgKind::CharPointer, ArgKind::Int];
    let arguments = [Form::Pointer, Form::Number(IntKind::I32)];
    assert_eq!(rt;
        code.called(&[3, 54], &arguments, &kinds, Form::Nothing)?,
        0
    );
    let called = code.called_at(0).ok_or("a type")?;
    assert_eq!(rt; called.functions.as_slice(), [3, 54].as_slice());
    assert_eq!(rt; called.arguments.as_slice(), arguments.as_slice());
    assert_eq!(rt; called.kinds.as_slice(), kinds.as_slice());
    assert_eq!(rt; called.form, Form::Nothing);
    assert_eq!(rt; code.called_at(1).is_none(), true);
    Ok(())
}

#[test]
fn gives_a_sequence_back(rt: HostRuntime) -> Result<(), Fail> {
    let sequence = Sequence::new(Vec::from_slice(rt.alloc(), &[4, 2])?);
    assert_eq!(rt; sequence.into_vec().as_slice(), [4, 2].as_slice());
    Ok(())
}

/// A code with each instruction and each part of a line; it need not be valid.
fn every_line(alloc: Global) -> Result<Code, AllocError> {
    let mut code = Code::new(alloc)?;
    let place = Pointer {
        object: 7,
        offset: 4,
        low: 0,
        high: 12,
    };
    let instrs = [
        Instr::Number(IntKind::I64, -9223372036854775808),
        Instr::Pointer(place),
        Instr::Slot(3),
        Instr::Result,
        Instr::Duplicate,
        Instr::Drop,
        Instr::Swap,
        Instr::Over,
        Instr::Reach(8, 4, By::Arrow),
        Instr::Load(Scalar::Number(IntKind::Bool)),
        Instr::Store(Scalar::Pointer),
        Instr::Zero(16),
        Instr::Pool(1),
        Instr::Copy(24),
        Instr::Make(0, 16777216),
        Instr::Seal(2, 1, 5),
        Instr::Kill(9),
        Instr::Binary(Operator::ShiftLeft, IntKind::U8),
        Instr::Negate(IntKind::I8),
        Instr::Flip(IntKind::U16),
        Instr::Convert(IntKind::I16),
        Instr::Not,
        Instr::Compare(Comparison::NotEqual),
        Instr::IsNull,
        Instr::Same,
        Instr::Order(Relation::GreaterEqual),
        Instr::Step(Stride {
            size: 4,
            back: true,
        }),
        Instr::Difference(2),
        Instr::Member(6),
        Instr::Narrow(3),
        Instr::Jump(1),
        Instr::IfZero(2),
        Instr::Cases(1),
        Instr::Pair(-1, 0),
        Instr::Default(5),
        Instr::Tick,
        Instr::Call(2, 0),
        Instr::Used,
        Instr::Give,
        Instr::Leave,
    ];
    for instr in instrs {
        code.instr(instr, HERE)?;
    }
    Ok(code)
}

const INSTR_LINES: &str = "code
i 0 num i64 -9223372036854775808
i 1 ptr 7 4 0 12
i 2 slot 3
i 3 result
i 4 dup
i 5 drop
i 6 swap
i 7 over
i 8 reach 8 4 arrow
i 9 load bool
i 10 store ptr
i 11 zero 16
i 12 pool 1
i 13 copy 24
i 14 make 0 16777216
i 15 seal 2 1 5
i 16 kill 9
i 17 shl u8
i 18 neg i8
i 19 flip u16
i 20 conv i16
i 21 not
i 22 cmp ne
i 23 isnull
i 24 same
i 25 order ge
i 26 step -4
i 27 diff 2
i 28 member 6
i 29 narrow 3
i 30 jump 1
i 31 ifz 2
i 32 cases 1
i 33 pair -1 0
i 34 default 5
i 35 tick
i 36 call 2 0
i 37 used
i 38 give
i 39 leave
";

const OBJECT_LINES: &str = "code
s 0 3 plain 0a00ff
s 1 2 literal 6100
s 2 1 const 07
s 3 3 members 0:1 1:1:clash 000102
s 4 1 members 0:1:clash 00
";

const OTHER_LINES: &str = "code
i 0 leave
f 1 main 0 4:u32 16:ptr 9:place
x 0 ab
x 1
t 0 nothing 2 ptr i32 2 charpointer int 3 54
t 1 ptr 0 0
";

#[test]
fn lists_each_instruction(rt: HostRuntime) -> Result<(), Fail> {
    let code = every_line(rt.alloc())?;
    let mut sink = MemSink::new(rt.alloc(), 4000, 64, Vec::new(rt.alloc()))?;
    assert_eq!(rt; code.list(&mut sink).is_ok(), true);
    assert_eq!(rt; sink.bytes(), INSTR_LINES.as_bytes());
    Ok(())
}

/// A code with a static object for each way to write its marks.
fn every_object(alloc: Global) -> Result<Code, AllocError> {
    let mut code = Code::new(alloc)?;
    let literal = Seal {
        at: 0,
        len: 2,
        mark: Mark::Literal,
    };
    let first = Seal {
        at: 0,
        len: 1,
        mark: Mark::Const,
    };
    let second = Seal {
        at: 1,
        len: 1,
        mark: Mark::Clash,
    };
    let clash = Seal {
        at: 0,
        len: 1,
        mark: Mark::Clash,
    };
    code.object(&[10, 0, 255], &[])?;
    code.object(&[97, 0], &[literal])?;
    code.object(&[7], &[first])?;
    code.object(&[0, 1, 2], &[first, second])?;
    code.object(&[0], &[clash])?;
    Ok(code)
}

fn every_part(alloc: Global) -> Result<Code, AllocError> {
    let mut code = Code::new(alloc)?;
    let int = Form::Number(IntKind::I32);
    code.instr(Instr::Leave, HERE)?;
    let parameters = [
        Parameter {
            size: 4,
            form: Form::Number(IntKind::U32),
        },
        Parameter {
            size: 16,
            form: Form::Pointer,
        },
        Parameter {
            size: 9,
            form: Form::Place,
        },
    ];
    code.function(b"main", 0, &parameters, int, 0)?;
    code.text(&[0xab])?;
    code.text(b"")?;
    let kinds = [ArgKind::CharPointer, ArgKind::Int];
    code.called(&[3, 54], &[Form::Pointer, int], &kinds, Form::Nothing)?;
    code.called(&[], &[], &[], Form::Pointer)?;
    Ok(code)
}

#[test]
fn lists_each_part(rt: HostRuntime) -> Result<(), Fail> {
    let code = every_part(rt.alloc())?;
    let mut sink = MemSink::new(rt.alloc(), 4000, 3, Vec::new(rt.alloc()))?;
    assert_eq!(rt; code.list(&mut sink).is_ok(), true);
    assert_eq!(rt; sink.bytes(), OTHER_LINES.as_bytes());
    Ok(())
}

#[test]
fn lists_each_object(rt: HostRuntime) -> Result<(), Fail> {
    let code = every_object(rt.alloc())?;
    let mut sink = MemSink::new(rt.alloc(), 4000, 3, Vec::new(rt.alloc()))?;
    assert_eq!(rt; code.list(&mut sink).is_ok(), true);
    assert_eq!(rt; sink.bytes(), OBJECT_LINES.as_bytes());
    Ok(())
}

#[test]
fn stops_where_a_write_fails(rt: HostRuntime) -> Result<(), Fail> {
    let code = every_part(rt.alloc())?;
    let fronts: [(usize, &[u8]); 4] = [
        (0, b""),
        (7, b"code\ni "),
        (15, b"code\ni 0 leave\n"),
        (26, b"code\ni 0 leave\nf 1 main 0 "),
    ];
    for (room, front) in fronts {
        let mut sink = MemSink::new(rt.alloc(), room, 1, Vec::new(rt.alloc()))?;
        assert_eq!(rt; code.list(&mut sink).is_ok(), false);
        assert_eq!(rt; sink.bytes(), front);
    }
    Ok(())
}
