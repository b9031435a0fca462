//! What the answers of a stage promise to who puts tables in force, whatever it was called with before.

ghost use Rattle.std.specs.Prelude.{List};
ghost use Rattle.sig_tables.specs.Putting.{EachFits};
ghost use Rattle.stage_txn.specs.Calls.{Call, Answered};
ghost use Rattle.stage_txn.specs.Answers.{answered, staged};
ghost use Rattle.stage_txn.specs.Laws.{PartsComeInOrder, InstallsWhatKeepsRules, NothingAfterDone, BeginInRange};

/// A part that is taken is of the download that was begun last, the next one, and taken while the stage is open.
pub fn parts_come_in_order()
    ensures { (past : List Answered) → PartsComeInOrder past }
{}

/// Tables that are to be put in force were verified, and break no rule together with those in force then.
pub fn installs_what_keeps_the_rules()
    ensures { (past : List Answered) → InstallsWhatKeepsRules past }
{}

/// Once a stage is done, nothing is staged and nothing is put in force before another download begins.
pub fn nothing_after_done()
    ensures { (past : List Answered) → NothingAfterDone past }
{}

/// Each cell of the staged tables holds an allowed value, where so did the tables in force at each begin.
pub fn staged_tables_in_range()
    ensures { (calls : List Call) → BeginInRange calls → EachFits (staged (answered calls)) }
{}
