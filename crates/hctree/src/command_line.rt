// What the user wrote after the program's name.
use crate::fault::Fault;
use hc_top::Status;
use hc_value::Str;
use std::env;
use std::io::ErrorKind;

const HELP: &str = "\
hctree runs a SQL script from standard input and prints every reply.

Usage: hctree [--mode step] < SCRIPT

The script may hold these two statements, written exactly so, with spaces
and line feeds around them:

  INSERT INTO t VALUES(N,N);
  SELECT v FROM t WHERE id=N;

The table t(id, v) is there from the start, and empty. Each N is a number
from 0 to 9223372036854775807, without a sign or a leading zero. A script
has at most 65,535 statements and 16,777,216 bytes.

Options:
  --mode step    run one whole statement after another; this is the default
  --help, -h     print this text
  --version, -V  print the version

Exit numbers: 0 done, 1 faulty input, 2 standard input could not be read,
3 standard output could not be written, 4 faulty command line, 7 no memory.
";

const VERSION: &str = "hctree 0.1.0\n";

/// What the program answers in place of running a script.
#[derive(Clone, Copy)]
pub enum Question {
    /// How the program is used.
    Help,
    /// Which version it is.
    Version,
}

impl Question {
    /// The text to print, with its line feeds.
    pub fn answer(self) -> &'static str {
        match self {
            Question::Help => HELP,
            Question::Version => VERSION,
        }
    }
}

/// The arguments after the program's name.
pub fn gather_words(rt: &HostRuntime) -> Result<Vec<Str>, Fault> {
    let arguments = match env::args(rt) {
        Ok(arguments) => arguments,
        Err(error) => {
            return Err(match error.kind() {
                ErrorKind::InvalidData => Fault::NotText,
                _ => Fault::Ended(Status::NoMemory),
            });
        }
    };
    let mut words = Vec::new(rt.alloc());
    for argument in arguments.skip(1) {
        if words.push(Str::from_string(argument)).is_err() {
            return Err(Fault::Ended(Status::NoMemory));
        }
    }
    Ok(words)
}

/// The first word that asks for help or for the version, wherever it is.
pub fn question_in(words: &[Str]) -> Option<Question> {
    for word in words {
        match word.as_str() {
            "--help" | "-h" => return Some(Question::Help),
            "--version" | "-V" => return Some(Question::Version),
            _ => {}
        }
    }
    None
}
