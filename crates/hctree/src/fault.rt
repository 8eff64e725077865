// What a person is told on standard error when a call did not end in `Done`.
ghost use Rattle.std.specs.Prelude.{◌≡◌};
ghost use Rattle.hctree.specs.Ends.{status_of};

use hc_top::Status;
use hc_value::{NoMemory, Str};
use std::alloc::Global;
use thiserror::Error;

// How many characters of a word are shown.
const SHOWN: usize = 60;

/// Why the program did not do its work, as one line of text.
#[derive(Debug, Drop, Error)]
pub enum Fault {
    /// A word that does not fit, or its beginning.
    #[error("{word:?} is not expected on the command line; the words may be none, or `--mode step`, and the script is read from standard input (see `hctree --help`)")]
    Word { word: String },
    /// The option without its value.
    #[error("`--mode` needs a mode after it; the words may be none, or `--mode step` (see `hctree --help`)")]
    NoMode,
    /// A word that is not text.
    #[error("a word of the command line is not UTF-8; the words may be none, or `--mode step` (see `hctree --help`)")]
    NotText,
    /// What the status says, where there is no more to say.
    #[error("{0}")]
    Ended(Status),
}

impl Fault {
    /// The fault that a status other than `Done` tells, and for `Words` the word that does not fit.
    pub fn of_status(alloc: Global, status: Status, words: &[Str]) -> Fault
        ensures { status_of result ≡ status }
    {
        match status {
            Status::Words => Fault::of_words(alloc, words),
            _ => Fault::Ended(status),
        }
    }

    // The first word that does not fit, where there is memory to name it.
    fn of_words(alloc: Global, words: &[Str]) -> Fault
        ensures { status_of result ≡ Status.Words }
    {
        let unfit = match words {
            [option] if option.as_str() == "--mode" => return Fault::NoMode,
            [option, mode, ..] if option.as_str() == "--mode" && mode.as_str() != "step" => mode,
            [option, _, third, ..] if option.as_str() == "--mode" => third,
            [first, ..] => first,
            [] => return Fault::Ended(Status::Words),
        };
        match beginning(alloc, unfit.as_str()) {
            Ok(word) => Fault::Word { word },
            Err(_) => Fault::Ended(Status::Words),
        }
    }

    /// The status that the fault ends the program with.
    pub fn status(&self) -> Status
        ensures { result ≡ status_of self.now }
    {
        match self {
            Fault::Word { word: _ } | Fault::NoMode | Fault::NotText => Status::Words,
            Fault::Ended(status) => *status,
        }
    }
}

// The word, or its first characters where it is long.
fn beginning(alloc: Global, word: &str) -> Result<String, NoMemory> {
    word.chars().take(SHOWN).collect(alloc)
}
