//! How a command ended.
ghost use Rattle.std.specs.Prelude.{◌≡◌, if◌then◌else◌};
ghost use Rattle.std.specs.Process.{exit_status};
ghost use Rattle.act_engine.specs.declared.status.Status.TheVariants.{WriteFault};
ghost use Rattle.act_engine.specs.Status.{status_number};

use std::process::ExitCode;

/// How a command ended.
#[derive(Clone, Copy)]
pub enum Status {
    /// All was accepted, and the whole text was written; each block in it ends in `end`. Of an audit: the text is right.
    Done,
    /// Of an audit: the text is wrong, or its journal isn't an interleaving of the scripts.
    Wrong,
    /// The words are of none of the call's forms.
    Words,
    /// A file wasn't read.
    ReadFault,
    /// A file is longer than 64 MiB, or a text to be audited than 4,294,967,294 bytes.
    TooLong,
    /// The portfolio was refused.
    PortfolioRefused,
    /// A script was refused.
    ScriptRefused,
    /// The sink failed; what was written is a part of the text or of the refusal line, and not all of it.
    WriteFault,
    /// The whole text was written, and a block in it ends in `missing` or `overflow`.
    Unfinished,
    /// Memory ran out; what was written is a part of the text or of the refusal line, or nothing.
    NoMemory,
}

impl Status {
    /// Its number, the program's exit status.
    pub fn number(self) -> u8
        ensures { result ≡ status_number self }
    {
        match self {
            Status::Done => 0,
            Status::Wrong => 1,
            Status::Words => 2,
            Status::ReadFault => 3,
            Status::TooLong => 4,
            Status::PortfolioRefused => 5,
            Status::ScriptRefused => 6,
            Status::WriteFault => 7,
            Status::Unfinished => 8,
            Status::NoMemory => 9,
        }
    }

    /// The status of a program whose command ended so, by whether what its sink had gathered was written at last.
    fn if_written(self, written: bool) -> Status
        ensures { result ≡ (if written then self else WriteFault) }
    {
        if written { self } else { Status::WriteFault }
    }
}

/// How a program ends whose command ended so, by whether what its sink had gathered was written at last.
pub fn exit_of(status: Status, written: bool) -> ExitCode
    ensures { exit_status result ≡ status_number (if written then status else WriteFault) }
{
    ExitCode::from(status.if_written(written).number())
}
