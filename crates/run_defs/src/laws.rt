//! What holds of journals.
ghost use Rattle.run_defs.specs.Judge.{JudgeIsRight};
ghost use Rattle.run_defs.specs.Kept.{CallsAreLawful};
ghost use Rattle.run_defs.specs.KeptSteps.{RunsKeep};

/// Who reads the lines in order and stops at the first that does not fit tells a lawful journal, and no other; and
/// that line.
pub fn judge_law()
    ensures { (journal : _) → JudgeIsRight journal }
{}

/// A library call keeps a journal lawful: each line of it fits, the calls that are open behind it are those before it,
/// and where it stops the run the journal with its end is lawful.
pub fn call_law()
    ensures { CallsAreLawful }
{}

/// The start of a run and the steps of a unit keep a journal lawful: loads and stores, objects that are made, marked
/// and die, calls that are entered and left.
pub fn step_law()
    ensures { (e : _) → RunsKeep e }
{}
