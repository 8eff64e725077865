// How a call of the program ends.
ghost use Rattle.std.specs.Prelude.{◌≡◌};
ghost use Rattle.hc_top.specs.Causes.{exit_number_of, status_of_read, status_of_script};
ghost use Rattle.hc_top.specs.declared.status.Status.TheVariants.{NoMemory};

use crate::reading::ReadError;
use crate::script::ScriptError;
use std::alloc::AllocError;
use std::fmt;
use std::fmt::{Display, Formatter, Write};
use thiserror::Error;

/// What is wrong with an input.
#[derive(Clone, Copy, Debug, PartialEq, Eq, Error)]
pub enum InputKind {
    /// It is not in the language that is built so far. Its place is always 0.
    #[error("the input as a whole (byte 0, line 1, column 1) cannot be run: it may hold `INSERT INTO t VALUES(N,N);` and `SELECT v FROM t WHERE id=N;` alone, with spaces and line feeds around them, at most 65,535 statements and 16,777,216 bytes; N is 0 to 9223372036854775807, without a sign or a leading zero")]
    Unbuilt,
}

/// How a call of the program ends. Each has an exit number.
#[derive(Clone, Copy, Debug, PartialEq, Eq)]
pub enum Status {
    /// The input was read to its end, and the whole output is written. Exit number 0.
    Done,
    /// The input has a fault at byte `at`, counted from 0. Nothing is written. Exit number 1.
    Input { at: u64, kind: InputKind },
    /// The input could not be read. Nothing is written. Exit number 2.
    ReadFault,
    /// The output could not be written whole. Exit number 3.
    WriteFault,
    /// The command-line arguments are not of the form. Nothing is read or written. Exit number 4.
    Words,
    /// Memory ran out. Nothing is written. Exit number 7.
    NoMemory,
}

impl Status {
    /// The number that the program ends with.
    pub fn exit_number(self) -> u8
        ensures { result ≡ exit_number_of self }
    {
        match self {
            Status::Done => 0,
            Status::Input { at: _, kind: _ } => 1,
            Status::ReadFault => 2,
            Status::WriteFault => 3,
            Status::Words => 4,
            Status::NoMemory => 7,
        }
    }
}

/// What happened, as one line of text without its end.
impl Display for Status {
    fn fmt<W: Write>(&self, f: &mut Formatter<W>) -> fmt::Result {
        match self {
            Status::Done => f.write_str("the script was run, and its output is written"),
            Status::Input { at: _, kind } => kind.fmt(f),
            Status::ReadFault => f.write_str("standard input could not be read"),
            Status::WriteFault => f.write_str("standard output could not be written to its end"),
            Status::Words => f.write_str(
                "the words of the command line may be none, or `--mode step` (see `hctree --help`)",
            ),
            Status::NoMemory => f.write_str("memory ran out"),
        }
    }
}

impl From<ReadError> for Status {
    ghost from_gives = { λ error status. status ≡ status_of_read error };

    fn from(error: ReadError) -> Status {
        match error {
            ReadError::Fault => Status::ReadFault,
            ReadError::NoMemory => Status::NoMemory,
        }
    }
}

impl From<ScriptError> for Status {
    ghost from_gives = { λ error status. status ≡ status_of_script error };

    fn from(error: ScriptError) -> Status {
        match error {
            ScriptError::Unbuilt => Status::Input {
                at: 0,
                kind: InputKind::Unbuilt,
            },
            ScriptError::NoMemory => Status::NoMemory,
        }
    }
}

impl From<AllocError> for Status {
    ghost from_gives = { λ _ status. status ≡ NoMemory };

    fn from(_error: AllocError) -> Status {
        Status::NoMemory
    }
}
