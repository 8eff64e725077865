//! What a connection answers, and the text that stands for it.
//!
//! A `Transcript` is a connection's number and its replies. `specs/Text.antt` is the output form, line by line, and
//! `specs/Outputs.antt` says which byte strings are outputs and where others are at fault. Each refusal is one row
//! of the table of `src/table.rt`: its tag and its arguments, and back.
#![tactic(auto)]

mod boxed_key;
pub mod laws;
mod refusal;
mod reply;
mod sameness;
mod table;
mod tag;

pub use boxed_key::BoxedKey;
pub use refusal::Refusal;
pub use reply::{Ending, Line, Reply, Row, Transcript};
pub use table::{Told, bare_of, name_of, names_of, number_of, numbers_of};
pub use tag::{
    BareTag, EndingTag, LINE_TAGS, LineTag, NameTag, NamesTag, NumberTag, NumbersTag, RefusalTag,
    tag_words, words_between,
};

const _: () = prove!(size_of::<Line>() <= 64);
