//! Laws on how audits end, and on what they compute.
ghost use Rattle.act_audit.specs.Laws.{AuditsEndAsTold, RightTextsCountAsEval, StatusesTellFaults, VerdictsAreTold};

/// The status with which an audit ended tells what failed: with 3 a read, with 7 a write, and with others nothing, but for a read before 7
/// or 9.
pub fn statuses_tell_faults()
    ensures { StatusesTellFaults }
{}

/// Where files tell their bytes, an audit wrote what these come to, whole and with its status; or a fault was counted, as its status tells,
/// or memory ran out.
pub fn audits_end_as_told()
    ensures { AuditsEndAsTold }
{}

/// A verdict that is so of the text that files tell is the one that is written, as `right` of a right text; or a fault was counted, as the
/// status tells, or memory ran out.
pub fn verdicts_are_told()
    ensures { VerdictsAreTold }
{}

/// For a right text so many rows are computed as `eval` computes for the steps of its journal, made by one caller.
pub fn right_texts_count_as_eval()
    ensures { RightTextsCountAsEval }
{}
