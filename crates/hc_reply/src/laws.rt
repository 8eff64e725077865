// What holds of all outputs. Each law is the contract of a function that does nothing.
ghost use Rattle.hc_reply.specs.Laws.{OneFault, OneSpelling, OutputsDiffer, OutputsHaveNoFault};

pub use hc_transcript::laws::no_tag_begins_another;

/// An output stands for one list of transcripts.
pub fn outputs_differ()
    ensures { OutputsDiffer }
{}

/// Transcripts have one text.
pub fn one_spelling()
    ensures { OneSpelling }
{}

/// Bytes are at fault at one place at most.
pub fn one_fault()
    ensures { OneFault }
{}

/// An output has no fault.
pub fn outputs_have_no_fault()
    ensures { OutputsHaveNoFault }
{}
