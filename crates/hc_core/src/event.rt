use hc_range::Bytes;

/// One event of the machine. Each but `Purge` is an event of a connection `conn`, counted from 0. An event that
/// is not enabled is answered `NotNow`. "Its transaction" is the open one of the connection, and where there is
/// none nothing but `Begin` is enabled.
#[derive(Debug, Drop)]
pub enum Event {
    /// Opens a transaction, whose snapshot is all that is committed now. Enabled where the connection is there and
    /// has none open. The answer is `Began`.
    Begin {
        conn: u32,
    },
    /// Draws a transaction id, for the transaction with this ordinal in its connection. Enabled where its
    /// transaction has no id, `ord` is at least 1 and above each ordinal that the connection drew with, and fewer
    /// than 4294967295 ids were drawn. The answer is `Drew`.
    Draw {
        conn: u32,
        ord: u32,
    },
    /// Reads the cells of the snapshot whose keys are at `from` or above, and below `upto` where it is there.
    /// Enabled where its transaction has no id. The answer is `Cells`.
    Read {
        conn: u32,
        from: Bytes,
        upto: Option<Bytes>,
    },
    /// Puts a record at a key of at most 463 bytes, or a tombstone, where `rec` is not there. Enabled where its
    /// transaction has an id, is not decided and proposes nothing, and the key is not in its write set. The
    /// answer is `Done` or `Met`.
    Put {
        conn: u32,
        key: Bytes,
        rec: Option<Bytes>,
    },
    /// Proposes the next commit number, and makes earlier checks void. Enabled where its transaction has an id and
    /// is not decided. The answer is `Proposed`.
    Propose {
        conn: u32,
    },
    /// Looks whether a key of the part from `from` up to `upto` was put by a commit above the snapshot and below
    /// the proposed number. Enabled where something is proposed. The answer is `Done` or `Met`.
    Check {
        conn: u32,
        from: Bytes,
        upto: Option<Bytes>,
    },
    /// Takes the proposed number, if it is still the next one. Enabled where something is proposed, its transaction is
    /// not decided, and each part that it read lies in the parts that were checked for the proposal. The answer
    /// is `Decided` or `Lost`.
    Decide {
        conn: u32,
    },
    /// Takes a put back. Enabled where the key is in the write set and its transaction is not decided. The answer is `Done`.
    Unput {
        conn: u32,
        key: Bytes,
    },
    /// Ends the transaction, which is rolled back if it was not decided. Enabled where it is decided or its
    /// write set is empty. The answer is `Done`.
    End {
        conn: u32,
    },
    /// Asks whether a key may be forgotten: its newest version is a committed tombstone that each open transaction
    /// sees. The answer is `Done`. It changes nothing and is in no account.
    Purge {
        key: Bytes,
    },
}
