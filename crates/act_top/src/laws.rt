//! Laws on how commands end, on what they write, on journals that hold the steps of several scripts, and on the versions of answers.
ghost use Rattle.act_top.specs.Laws.{BoardsAreHanded, CommandsEndAsTold, DeskIsReadBack, EvalIsReadBack, InTurnIsInterleaving, OneScriptIsJournal, StatusesTellFaults, TextsHaveOneJournal, VersionsNeverGoBack};

/// The status with which a command ended tells what failed: with 3 a read, with 7 a write, and with others nothing, but for a read before 7
/// or 9.
pub fn statuses_tell_faults()
    ensures { StatusesTellFaults }
{}

/// Where files tell their bytes, a command wrote what these come to, whole and with its status; or a fault was counted, as its status tells,
/// or memory ran out.
pub fn commands_end_as_told()
    ensures { CommandsEndAsTold }
{}

/// A board is handed out where a command of several threads ended with 0 or 8, and nowhere else.
pub fn boards_are_handed()
    ensures { BoardsAreHanded }
{}

/// Runs of the desk over one portfolio, whose scripts were read with the same names, have written the same text only where their journals
/// are the same, and so their answers.
pub fn texts_have_one_journal()
    ensures { TextsHaveOneJournal }
{}

/// What `eval` writes in front of the line of its work, and all that `desk` writes, is the text of one journal with its answers, so that
/// `read_text` gives these back with the names that the scripts were read with, where it has fewer than 2^32 - 1 lines, unless memory runs
/// out.
pub fn texts_are_read_back()
    ensures eval { EvalIsReadBack }
    ensures desk { DeskIsReadBack }
{}

/// One script after the other is a journal of all of them.
pub fn scripts_in_turn_are_an_interleaving()
    ensures { InTurnIsInterleaving }
{}

/// A journal of one script is that script.
pub fn one_script_is_its_journal()
    ensures { OneScriptIsJournal }
{}

/// Of one caller, the answer to a later ask is at the version of that to an earlier ask or at a later one, in any journal.
pub fn versions_never_go_back()
    ensures { VersionsNeverGoBack }
{}
