//! What no explanation calls by itself: the rooms that a session held, and as spans after its turns; the first reply that
//! names it and the first that names it otherwise.
use aud_base::Watched;
use aud_cert::{Certificate, Turn};
use aud_client::Recording;
use aud_input::read_files;
use aud_maker::make;
use aud_session_facts::{rooms_held, spans_held};
use std::alloc::{AllocError, Global};
use std::hash::RandomState;
use std::mem::ManuallyDrop;
use std::random::RandomSource;
use std::test::Fail;
use std::thread::Threads;

/// A session that holds `q` and `r` when its node takes entry 1, and its own room alone when it takes entry 2. Of the
/// replies on the client's three connections the first names no session, the second this one, and the third this one
/// with another sid.
const BUNDLE: &str = r#"st {"k":"tap","v":1,"of":"stream"}
st {"k":"ev","off":"o1","nsp":"/","text":"2[\"m\",\"o1\"]"}
st {"k":"ev","off":"o2","nsp":"/","text":"2[\"m\",\"o2\"]"}
a {"k":"tap","v":1,"of":"node"}
a {"k":"start","off":null}
a {"k":"open","pid":"P","sid":"s1","nsp":"/"}
a {"k":"join","pid":"P","room":"r"}
a {"k":"join","pid":"P","room":"q"}
a {"k":"take","off":"o1"}
a {"k":"leave","pid":"P","room":"q"}
a {"k":"leave","pid":"P","room":"r"}
a {"k":"take","off":"o2"}
a {"k":"break","pid":"P","turn":0}
a {"k":"back","pid":"P","turn":1}
c1 {"k":"tap","v":1,"of":"client"}
c1 {"k":"conn","c":1}
c1 {"k":"in","t":"40{\"sid\":\"s7\"}"}
c1 {"k":"conn","c":2}
c1 {"k":"in","t":"40{\"sid\":\"s1\",\"pid\":\"P\"}"}
c1 {"k":"conn","c":3}
c1 {"k":"in","t":"40{\"sid\":\"s2\",\"pid\":\"P\"}"}
"#;

const ANSWERS: &str = "held at 1: q r s1
held at 2: s1
spans held: s1 2-2
";

/// Adds the rooms that the session held when it reached the position.
fn push_held(
    alloc: Global,
    out: &mut String,
    cert: &Certificate<'_>,
    position: u64,
) -> Result<(), AllocError> {
    write!(out, "held at {position}:")?;
    for room in &rooms_held(alloc, cert, position)? {
        write!(out, " {room}")?;
    }
    writeln!(out, "")
}

/// Adds the spans of the rooms that the session held after these turns, past position 1 up to 2.
fn push_spans(
    alloc: Global,
    out: &mut String,
    recording: &Recording<'_>,
    turns: &[Turn<'_>],
) -> Result<(), AllocError> {
    write!(out, "spans held:")?;
    for span in &spans_held(alloc, recording.logs(), "P", "s1", turns, 1, 2)? {
        let (room, first, last) = (span.room.as_str(), span.first, span.last);
        write!(out, " {room} {first}-{last}")?;
    }
    writeln!(out, "")
}

/// The answers over a recording.
fn answers(alloc: Global, recording: &Recording<'_>) -> Result<String, Fail> {
    let mut out = String::new(alloc);
    let Ok(cert) = make(alloc, recording, "P") else {
        return Err("no certificate")?;
    };
    push_held(alloc, &mut out, &cert, 1)?;
    push_held(alloc, &mut out, &cert, 2)?;
    push_spans(alloc, &mut out, recording, cert.turns.as_slice())?;
    Ok(out)
}

/// The same over a bundle.
fn answers_over(
    rt: &(impl RandomSource + Threads + Sync),
    alloc: Global,
    bundle: &str,
) -> Result<String, Fail> {
    let keys = RandomState::new(rt)?;
    let mut files = [Watched::new(bundle.as_bytes())];
    let Ok(recorded) = read_files(rt, 1, alloc, keys, &mut files) else {
        return Err("the bundle is refused")?;
    };
    let recorded = ManuallyDrop::new(recorded);
    let recording = ManuallyDrop::new(Recording::read(rt, alloc, keys, 1, &recorded.taps)?);
    answers(alloc, &recording)
}

#[test]
fn what_no_explanation_calls(rt: HostRuntime) -> Result<(), Fail> {
    let found = answers_over(&rt, rt.alloc(), BUNDLE)?;
    assert_eq!(rt; found.as_str(), ANSWERS);
    Ok(())
}
