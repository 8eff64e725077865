// Copies of byte strings.
ghost use Rattle.std.specs.Prelude.{◌≡◌, IfOk};
ghost use Rattle.std.specs.Option.{option_copied};

use hc_range::{Bytes, NoMemory};
use std::alloc::Global;

/// A copy of a key.
pub fn copy_bytes(alloc: Global, bytes: &[u8]) -> Result<Bytes, NoMemory>
    ensures { IfOk result (λ copy. copy ≡ bytes.now) }
{
    Bytes::from_slice(alloc, bytes)
}

/// A copy of a record, or of a tombstone.
pub fn copy_rec(alloc: Global, rec: Option<&[u8]>) -> Result<Option<Bytes>, NoMemory>
    ensures { IfOk result (λ copy. copy ≡ option_copied rec.entry) }
{
    match rec {
        Some(rec) => Ok(Some(Bytes::from_slice(alloc, rec)?)),
        None => Ok(None),
    }
}

/// A copy of a record that is kept.
pub fn copy_kept(alloc: Global, rec: &Option<Bytes>) -> Result<Option<Bytes>, NoMemory>
    ensures { IfOk result (λ copy. copy ≡ rec.now) }
{
    match rec {
        Some(rec) => Ok(Some(Bytes::from_slice(alloc, rec.as_slice())?)),
        None => Ok(None),
    }
}
