// The output, written whole.
ghost use Rattle.std.specs.Prelude.{length, OnOk};
ghost use Rattle.hc_io.specs.Faults.{HasCause};
ghost use Rattle.hc_io.specs.Transfer.{WritesIfTold};
ghost use Rattle.hc_top.specs.Streams.{WritesFront};

use hc_io::{Failed, Sink};

/// Writes all bytes of the output, in as many pieces as the sink takes them.
pub fn write_output<K: Sink>(sink: &mut K, output: &[u8]) -> Result<(), Failed>
    ensures whole { OnOk result (WritesIfTold (K.written sink.old) (K.written sink.new) output.now (length output.now)) }
    ensures front { WritesFront (K.written sink.old) (K.written sink.new) output.now }
    ensures cause { HasCause (K.faults sink.old) (K.faults sink.new) result }
{
    let mut at = 0;
    while at < output.len() {
        at += sink.write(&output[at..])?;
    }
    Ok(())
}
