//! The output, in as many writes as it takes.
ghost use Rattle.std.specs.Prelude.{◌≡◌, true, OnOk, OnErr, Err};
ghost use Rattle.std.specs.Io.KnownBytes.{Appends};
ghost use Rattle.aud_base.specs.Watched.{inner_of, has_failed};
ghost use Rattle.aud_base.specs.Written.{AppendsFront};

use crate::run_fault::RunFault;
use crate::watched::Watched;
use std::io::Write;

/// Writes a text. A write that fails or takes nothing is not tried again, of whatever kind its
/// error is.
pub fn write_out<W: Write>(output: &mut Watched<W>, text: &[u8]) -> Result<(), RunFault>
    ensures ok { OnOk result (Appends (W.contents (inner_of output.old))
        (W.contents (inner_of output.new)) text.now) }
    ensures unfailed { OnOk result (has_failed output.new ≡ has_failed output.old) }
    ensures front { OnErr result (AppendsFront (W.contents (inner_of output.old))
        (W.contents (inner_of output.new)) text.now) }
    ensures err { OnErr result ((result ≡ Err RunFault.Write) × (has_failed output.new ≡ true)) }
{
    let mut rest = text;
    'pieces: while !rest.is_empty() {
        match output.write(rest) {
            Ok(0) => return Err(RunFault::Write),
            Ok(n) => rest = &rest[n..],
            Err(_) => return Err(RunFault::Write),
        }
    }
    Ok(())
}
