// What holds of encodings.
ghost use Rattle.hc_record.specs.Laws.{NoEncodingBeginsAnother, IsNumberReadAgain, IsBodyReadAgain, IsRecordReadAgain, IsTailAfterRecord, IsPrefixShort};

/// Two lists have two encodings, and none of them begins the other.
pub fn no_encoding_begins_another()
    ensures { NoEncodingBeginsAnother }
{}

/// A number that was written is read again, whatever follows it.
pub fn a_number_is_read_again()
    ensures { IsNumberReadAgain }
{}

/// A body that was written is read again by its type, whatever follows it.
pub fn a_body_is_read_again()
    ensures { IsBodyReadAgain }
{}

/// A record that was written is read again, whatever follows it.
pub fn a_record_is_read_again()
    ensures { IsRecordReadAgain }
{}

/// Bytes are told to be a tail exactly where they follow a record.
pub fn a_tail_follows_a_record()
    ensures { IsTailAfterRecord }
{}

/// Each proper prefix of a record is short, and its fault is where it ends.
pub fn a_prefix_of_a_record_is_short()
    ensures { IsPrefixShort }
{}
