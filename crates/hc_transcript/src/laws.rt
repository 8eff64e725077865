// What holds of all outputs. Each law is the contract of a function that does nothing.
ghost use Rattle.hc_transcript.specs.Laws.{NoTagBeginsAnother};

/// No line opens with the words of another line.
pub fn no_tag_begins_another()
    ensures { NoTagBeginsAnother }
{}
