//! What holds of each meaning, and of the code of each unit.
ghost use Rattle.code_gen.specs.JournalLaw.{EachJournalIsLawful};
ghost use Rattle.code_gen.specs.Law.{EachJournalEnds};
ghost use Rattle.code_gen.specs.Lifetimes.{AutomaticObjectsAreAStack};
ghost use Rattle.code_gen.specs.RunLaw.{EachExpressionRuns};
ghost use Rattle.code_gen.specs.SizeLaw.{AllSizesAreLengths};
ghost use Rattle.code_gen.specs.StatementRunLaw.{EachStatementRuns};
ghost use Rattle.code_gen.specs.UnitRunLaw.{EachUnitRuns};

/// The last event of each run is its end, and tells its outcome.
pub fn end_law()
    ensures { EachJournalEnds }
{}

/// The journal of each run is lawful: of each well-typed unit, over every library that keeps its laws, for each input
/// of bytes and all budgets of at most 2,000,000,000 ticks. Whoever replays it, knowing nothing of C, finds each store
/// in a live object and on bytes without a mark, each trap to be the case of its access, and each violated
/// runtime-constraint with its action, its one call of the current handler and its failure value.
pub fn journal_law()
    ensures { EachJournalIsLawful }
{}

/// The sizes of expressions, statements and functions, by which the places in code are computed, are the lengths of
/// their code.
pub fn size_law()
    ensures { AllSizesAreLengths }
{}

/// Automatic objects are a stack: the last that was made is the first that dies. So each lives until its turn comes,
/// and the mark of a const object is set on one that lives: the tests of both, by which the meaning goes on as if
/// nothing were to do, never matter. It holds of each well-typed unit over every library that keeps its laws.
pub fn lifetime_law()
    ensures { AutomaticObjectsAreAStack }
{}

/// The machine does what an expression means: where the code of the expression stands, the run comes behind it with the
/// value on the operands and the value objects that were made in slots of their own, in the state that the meaning
/// gives, or ends as the meaning stops; with the same output, journal and ticks. It holds of each well-typed expression
/// whose calls run as they are meant.
pub fn run_law()
    ensures { EachExpressionRuns }
{}

/// The machine does what a statement means: where the code of the statement stands, the run comes to where the program
/// goes on, to the next statement, out of a loop or switch, to the next turn or to the caller, in the state that the
/// meaning gives once a jump has let the objects die that it leaves; or it ends as the meaning stops. The literals that
/// initialize arrays are to stand among the texts of the code, and the objects that are named to have sizes. It holds
/// of each well-typed statement whose calls run as they are meant.
pub fn statement_run_law()
    ensures { EachStatementRuns }
{}

/// The machine does what a unit means: the run of the code of a well-typed unit ends with the outcome, the output, the
/// error output, the journal and the ticks of its meaning. So it is over every library whose rows answer as their
/// prototypes give, with any input and within all budgets of ticks and bytes.
pub fn unit_run_law()
    ensures { EachUnitRuns }
{}
