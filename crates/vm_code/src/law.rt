//! What holds of each run of the machine.
ghost use Rattle.vm_code.specs.Bound.{RunsAreBounded};
ghost use Rattle.vm_code.specs.FirstFault.{BlameIsFair};
ghost use Rattle.vm_code.specs.OneEnd.{RunsHaveOneEnd};
ghost use Rattle.vm_code.specs.Progress.{CallsNeverStick, RunsNeverStick};

/// A run has one end: its outcome, its state and the number of its instructions are functions of the library, the code,
/// the budgets and the input.
pub fn end_law()
    ensures { RunsHaveOneEnd }
{}

/// No run of valid code gains a tick, and its instructions are at most those of two passes of the code for each tick
/// that it takes, and of one pass more. So it is over each library, with any input and within any budgets.
pub fn bound_law()
    ensures { RunsAreBounded }
{}

/// Valid code never sticks: no run of it meets an operand that is missing or of another kind, a slot that holds no
/// object but at a `kill`, or a place outside of its function. So it is from a call of any function in any state, and
/// from the start of the program, over each library, with any input and within any budgets.
pub fn progress_law()
    ensures calls { CallsNeverStick }
    ensures runs { RunsNeverStick }
{}

/// At most one instruction of code is blamed, and none exactly where the code is valid.
pub fn blame_law()
    ensures { BlameIsFair }
{}
