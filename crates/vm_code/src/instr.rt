//! The instructions.
use acc_num::IntKind;
use c_core::{Comparison, Operator, Relation, Scalar, Stride};
use object_store::{By, Pointer};

/// An instruction. The stack of operands is written with its top at the right; a place of the code is the number of an
/// instruction, from 0.
#[derive(Clone, Copy, Debug, PartialEq, Eq)]
pub enum Instr {
    /// `num K V`: pushes a number in the range of its kind.
    Number(IntKind, i128),
    /// `ptr O F L H`: pushes a pointer.
    Pointer(Pointer),
    /// `slot I`: pushes the place of the object in a slot of the frame.
    Slot(u32),
    /// `result`: pushes the place of the caller's object that a structure is returned to.
    Result,
    /// `dup`: a to a, a.
    Duplicate,
    /// `drop`: a to nothing.
    Drop,
    /// `swap`: a, b to b, a.
    Swap,
    /// `over`: a, b to a, b, a.
    Over,
    /// `reach S A BY`: the pointer on top reaches so many bytes with that alignment.
    Reach(u32, u32, By),
    /// `load T`: a pointer to the value there.
    Load(Scalar),
    /// `store T`: a pointer, a value to the value, which is stored.
    Store(Scalar),
    /// `zero S`: takes a pointer, and stores so many zero bytes there.
    Zero(u32),
    /// `pool X`: takes a pointer, and stores the text with this number there.
    Pool(u32),
    /// `copy S`: destination, source to the destination, which gets so many bytes of the source.
    Copy(u32),
    /// `make I S`: an automatic object of so many bytes is made in a slot. It takes a tick.
    Make(u32, u32),
    /// `seal I AT LEN`: so many bytes of a slot's object are const from now on, from a byte on.
    Seal(u32, u32, u32),
    /// `kill I`: a slot's object dies. One that holds none is left.
    Kill(u32),
    /// `add K` to `xor K`: two numbers to one; the count of a shift may have any kind.
    Binary(Operator, IntKind),
    /// `neg K`
    Negate(IntKind),
    /// `flip K`
    Flip(IntKind),
    /// `conv K`: a number of any kind to one of this kind.
    Convert(IntKind),
    /// `not`: a number to 1 where it is 0, else to 0.
    Not,
    /// `cmp OP`: two numbers to 1 where they compare so, else to 0.
    Compare(Comparison),
    /// `isnull`: a pointer to 1 where it is null, else to 0.
    IsNull,
    /// `same`: two pointers to 1 where they are equal, else to 0.
    Same,
    /// `order OP`: two pointers to 1 where they are so ordered, else to 0.
    Order(Relation),
    /// `step S`: a pointer, a number to the pointer, moved by so many elements of this size.
    Step(Stride),
    /// `diff S`: two pointers to the number of elements of this size between them.
    Difference(u32),
    /// `member AT`: moves the offset of the pointer on top.
    Member(u32),
    /// `narrow LEN`: bounds the pointer on top by so many bytes from its offset on.
    Narrow(u32),
    /// `jump P`: goes on at that place.
    Jump(usize),
    /// `ifz P`: takes a number, and goes on at that place where it is 0.
    IfZero(usize),
    /// `cases N`: takes a number, and goes on where the first of the N pairs behind it with that number leads, else
    /// where the default behind them leads.
    Cases(u32),
    /// `pair V P`: a number and its place, behind a `cases`.
    Pair(i128, usize),
    /// `default P`: the place of all other numbers, behind the pairs of a `cases`.
    Default(usize),
    /// `tick`: takes a tick.
    Tick,
    /// `call N T`: a function, N arguments to what the function gives; T is the called type.
    Call(u32, u32),
    /// `used`: the value that the last call gave is used.
    Used,
    /// `give`: returns the top.
    Give,
    /// `leave`: returns nothing.
    Leave,
}
