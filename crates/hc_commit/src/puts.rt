// Writes are put one after another, and taken out again.
ghost use Rattle.std.specs.Prelude.{◌≡◌, IfErr, OnOk, OnErr};
ghost use Rattle.std.specs.Option.{option_copied};
ghost use Rattle.hc_core.specs.Account.{WhenOpen, txns};
ghost use Rattle.hc_core.specs.Desk.{AreAscendingWrites, GoesOn};
ghost use Rattle.hc_commit.specs.Entries.{with_puts, with_unputs};
ghost use Rattle.hc_commit.specs.Giving.{HasGivenUpPuts, HasMetAt};
ghost use Rattle.hc_commit.specs.Stages.{HasNonePut, HasPut, MayPutAll};

use hc_core::{Desk, Met, Write};
use hc_range::Bytes;

// A put that was refused, and how many writes are put.
#[derive(Debug, Clone, Copy)]
struct Stop {
    met: Met,
    count: usize,
}

// A record as bytes.
fn bytes_of(rec: &Option<Bytes>) -> Option<&[u8]>
    ensures { option_copied result ≡ rec.now }
{
    match rec {
        Some(rec) => Some(rec.as_slice()),
        None => None,
    }
}

// Puts writes, until one is refused.
fn put_each<D: Desk>(desk: &mut D, writes: &[Write]) -> Result<(), Stop>
    requires ascending { AreAscendingWrites writes.now }
    requires room { WhenOpen (txns (D.account desk.old)) (MayPutAll writes.now) }
    ensures put { OnOk result (D.account desk.new ≡ with_puts (D.conn desk.old) writes.now (D.account desk.old)) }
    ensures met { IfErr result (λ stop. HasMetAt (D.conn desk.old) writes.now stop.met stop.count (D.account desk.old) (D.account desk.new)) }
    ensures on { GoesOn D.conn D.most D.seen D.later desk.old desk.new }
{
    for (i, write) in writes.iter().enumerate() {
        if let Err(met) = desk.put(write.key.as_slice(), bytes_of(&write.rec)) {
            return Err(Stop { met, count: i });
        }
    }
    Ok(())
}

// Takes writes out that are put, in ascending order of their keys.
pub fn unput_all<D: Desk>(desk: &mut D, writes: &[Write])
    requires ascending { AreAscendingWrites writes.now }
    requires put { WhenOpen (txns (D.account desk.old)) (HasPut writes.now) }
    ensures entries { D.account desk.new ≡ with_unputs (D.conn desk.old) writes.now (D.account desk.old) }
    ensures none { WhenOpen (txns (D.account desk.new)) HasNonePut }
    ensures on { GoesOn D.conn D.most D.seen D.later desk.old desk.new }
{
    for write in writes {
        desk.unput(write.key.as_slice());
    }
}

// Puts writes. Where one is refused, those before it are taken out again.
pub fn put_all<D: Desk>(desk: &mut D, writes: &[Write]) -> Result<(), Met>
    requires ascending { AreAscendingWrites writes.now }
    requires room { WhenOpen (txns (D.account desk.old)) (MayPutAll writes.now) }
    ensures put { OnOk result (D.account desk.new ≡ with_puts (D.conn desk.old) writes.now (D.account desk.old)) }
    ensures met { IfErr result (λ met. HasGivenUpPuts (D.conn desk.old) writes.now met (D.account desk.old) (D.account desk.new)) }
    ensures none { OnErr result (WhenOpen (txns (D.account desk.new)) HasNonePut) }
    ensures on { GoesOn D.conn D.most D.seen D.later desk.old desk.new }
{
    match put_each(desk, writes) {
        Ok(()) => Ok(()),
        Err(stop) => {
            unput_all(desk, &writes[..stop.count]);
            Err(stop.met)
        }
    }
}
