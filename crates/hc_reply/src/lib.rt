//! The text of a run's transcripts, written and read again.
//!
//! `print` writes the text of transcripts, and `read` answers the transcripts whose text the bytes are, or the place
//! where no output goes on, if no memory is refused. What `print` writes is read as what it was given. The types and
//! the output form are those of `hc_transcript`, which are given out here too.
#![tactic(auto)]

mod allowed;
mod blob;
mod expected_tag;
mod fault;
mod fields;
pub mod laws;
mod literals;
mod mismatch;
mod number;
mod output_line;
mod parser_state;
mod printed_refusal;
mod printer;
mod reader;
mod refusal_fields;
mod row;
mod text;
mod value;
mod word;

pub use fault::ReplyFault;
pub use hc_transcript::{BoxedKey, Ending, Line, Refusal, Reply, Row, Transcript};
pub use printer::print;
pub use reader::read;
