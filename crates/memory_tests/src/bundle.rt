//! The bundle of the calls: session `P` is recovered on another node, session `Q` gets an event with an attachment.
ghost use Rattle.std.specs.Prelude.{IfOk};
ghost use Rattle.aud_tap.specs.Names.{AreNamedOnce};

use anyhow::Result;
use aud_reader::{LentLine, Lines, read_bundle};
use aud_tap::Taps;
use std::alloc::{AllocError, Global};
use std::hash::RandomState;

/// Five taps: a stream of 3 entries, two nodes of 8 and 4 records, two clients of 8 and 4.
pub const BUNDLE: &str = r#"st {"k":"tap","v":1,"of":"stream"}
st {"k":"ev","off":"1-0","nsp":"/","rooms":["r"],"text":"2[\"hi\",\"1-0\"]"}
st {"k":"ev","off":"2-0","nsp":"/","rooms":["r"],"text":"2[\"hi\",\"2-0\"]"}
st {"k":"ev","off":"3-0","nsp":"/","rooms":["s2"],"text":"51-[\"f\",{\"_placeholder\":true,\"num\":0},\"3-0\"]","bin":["AQI="]}
a {"k":"tap","v":1,"of":"node"}
a {"k":"start","off":null}
a {"k":"open","pid":"P","sid":"s1","nsp":"/"}
a {"k":"open","pid":"Q","sid":"s2","nsp":"/"}
a {"k":"join","pid":"P","room":"r"}
a {"k":"take","off":"1-0"}
a {"k":"break","pid":"P","turn":0}
a {"k":"take","off":"2-0"}
a {"k":"take","off":"3-0"}
b {"k":"tap","v":1,"of":"node"}
b {"k":"start","off":null}
b {"k":"take","off":"1-0"}
b {"k":"take","off":"2-0"}
b {"k":"back","pid":"P","turn":1}
c1 {"k":"tap","v":1,"of":"client"}
c1 {"k":"conn","c":1}
c1 {"k":"in","t":"40{\"sid\":\"s1\",\"pid\":\"P\"}"}
c1 {"k":"in","t":"42[\"hi\",\"1-0\"]"}
c1 {"k":"lost"}
c1 {"k":"conn","c":2}
c1 {"k":"out","t":"40{\"pid\":\"P\",\"offset\":\"1-0\"}"}
c1 {"k":"in","t":"42[\"hi\",\"2-0\"]"}
c1 {"k":"in","t":"40{\"sid\":\"s1\",\"pid\":\"P\"}"}
c2 {"k":"tap","v":1,"of":"client"}
c2 {"k":"conn","c":1}
c2 {"k":"poll","t":"40{\"sid\":\"s2\",\"pid\":\"Q\"}"}
c2 {"k":"in","t":"451-[\"f\",{\"_placeholder\":true,\"num\":0},\"3-0\"]"}
c2 {"k":"inb","b":"AQI="}
"#;

/// The place of the client `c1` among the taps.
pub const CLIENT: usize = 3;

/// A certificate of session `P`.
pub const CERTIFICATE: &str =
    r#"{"client":"c1","pid":"P","spans":[["r",1,2],["s1",1,2]],"turns":[["a",1,6,0,1],["b",3,4,2,2]]}"#;

/// The lines of the bundle.
pub fn lines(alloc: Global) -> Result<Lines, AllocError> {
    let mut lines = Lines::new(alloc);
    for text in BUNDLE.lines() {
        let number = (lines.len() as u64).saturating_add(1);
        let bytes = text.as_bytes();
        lines.push(&LentLine { number, bytes })?;
    }
    Ok(lines)
}

/// The taps of these lines.
pub fn taps(alloc: Global, keys: RandomState, lines: &Lines) -> Result<Taps>
    ensures { IfOk result (λ taps. AreNamedOnce taps) }
{
    let taps = read_bundle(alloc, keys, lines)?;
    Ok(taps)
}
