//! What is said of a text.
ghost use Rattle.std.specs.Prelude.{◌≡◌, IfOk};
ghost use Rattle.act_audit.specs.Verdict.{OneVerdict, RightIsOfScripts, RightTextsHaveOneJournal, verdict_line, verdict_status};

use act_engine::{Status, line_of};
use act_num::NoMemory;
use itoa::Buffer;
use std::alloc::Global;

/// What is said of a text. Lines are counted from 1; one that is missing is the one behind the last.
#[derive(Clone, Copy)]
pub enum Verdict {
    /// It is right, with so many answers.
    Right(u64),
    /// It is wrong in this line: no text begins with the lines up to it, or the text differs there from the right one of its journal.
    Wrong(u64),
    /// It is the right text of its journal, but the step in this line isn't the next one of this caller's script.
    Disorder(u64, u32),
}

impl Verdict {
    /// The status that it comes to.
    pub(crate) fn status(self) -> Status
        ensures { result ≡ verdict_status self }
    {
        match self {
            Verdict::Right(_) => Status::Done,
            Verdict::Wrong(_) | Verdict::Disorder(_, _) => Status::Wrong,
        }
    }

    /// The line that tells it.
    pub(crate) fn line(self, alloc: Global) -> Result<Vec<u8>, NoMemory>
        ensures { IfOk result (λ line. line.items ≡ verdict_line self) }
    {
        let mut first = Buffer::new();
        match self {
            Verdict::Right(answers) => {
                line_of(alloc, b"right", &[first.format(answers).as_bytes()])
            }
            Verdict::Wrong(line) => line_of(alloc, b"wrong", &[first.format(line).as_bytes()]),
            Verdict::Disorder(line, caller) => {
                let mut second = Buffer::new();
                let numbers = [
                    first.format(line).as_bytes(),
                    second.format(caller).as_bytes(),
                ];
                line_of(alloc, b"order", &numbers)
            }
        }
    }
}

/// A law, which does nothing: of a text no two verdicts are both so.
pub fn no_two_verdicts_are_both_so()
    ensures { OneVerdict }
{}

/// A law, which does nothing: a text is the right one of one journal alone.
pub fn right_texts_have_one_journal()
    ensures { RightTextsHaveOneJournal }
{}

/// A law, which does nothing: where scripts are given a right text is that of an interleaving of them, as a run of the desk writes it.
pub fn right_texts_are_of_the_scripts()
    ensures { RightIsOfScripts }
{}
