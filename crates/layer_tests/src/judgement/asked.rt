//! Cases, each a text: the lines of a bundle, then what is asked of it, each time after `? `, with the answer below.
//!
//! | question | what it asks for |
//! |---|---|
//! | `entry 1-0` | where the entry with this offset stands, and the one that is known by its text |
//! | `addressees / r` | the entries that name the room, those for all of the namespace, and those that except the room |
//! | `tap a` | the place of this tap, those of taps that name it as a session, and the node's cursors |
//! | `turns` | turn 0 of the session `P` on `a` and its turn 1 on `b`, the spans by these, and what is due |
//! | `walked a` | the spans of the session `P` by the records of `a`, each at its number as the cursor |
//! | `addressed / r` | the entries for a session in the namespace that was in `s1` and `r`, and left this room |
//! | `order` | the run that is shown, or the records that block |
//! | `packets c1` | the packets of the client's tap, connection by connection |
//! | `client c1` | a line for each stay of the client's tap, and what else it tells |
//! | `sessions` | the sessions, their verdicts, and their certificates, written, read and checked |
use crate::given::taps_of;
use crate::judgement::cases::CASES;
use crate::judgement::{clients, logs, rooms, sessions, taps};
use crate::told::Told;
use aud_client::Recording;
use std::alloc::Global;
use std::hash::RandomState;
use std::mem::ManuallyDrop;
use std::random::RandomSource;
use std::test::Fail;
use std::thread::Threads;

#[test]
fn cases_are_answered_so(rt: HostRuntime) -> Result<(), Fail> {
    for cases in [CASES.as_slice(), taps::CASES.as_slice()] {
        for case in cases {
            let told = told(&rt, rt.alloc(), case)?;
            assert_eq!(rt; told.as_str(), *case);
        }
    }
    Ok(())
}

/// The case as the recording of its bundle answers it.
fn told(
    rt: &(impl RandomSource + Threads + Sync),
    alloc: Global,
    case: &str,
) -> Result<String, Fail> {
    let (bundle, asked) = case.split_once("\n? ").unwrap_or((case, ""));
    let keys = RandomState::new(rt)?;
    let taps = ManuallyDrop::new(taps_of(alloc, keys, bundle)?);
    let recording = ManuallyDrop::new(Recording::read(rt, alloc, keys, 4, &taps)?);
    let mut out = Told::new(alloc);
    out.text(bundle);
    for asked in asked.split("\n? ") {
        let (question, _) = asked.split_once('\n').unwrap_or((asked, ""));
        out.text("\n? ");
        out.text(question);
        out.text("\n");
        tell(&recording, alloc, question, &mut out);
    }
    Ok(out.finish()?)
}

/// Writes the answer of the recording.
fn tell(recording: &Recording<'_>, alloc: Global, question: &str, out: &mut Told) {
    let (word, of) = cut(question);
    match word {
        "entry" => logs::tell_entry(recording.logs().stream(), of, out),
        "addressees" => logs::tell_addressees(recording.logs().stream(), of, out),
        "tap" => logs::tell_tap(recording, of, out),
        "turns" => rooms::tell_turns(recording.logs(), alloc, out),
        "walked" => rooms::tell_walked(recording.logs(), alloc, of, out),
        "addressed" => rooms::tell_addressed(recording.logs().stream(), alloc, of, out),
        "order" => logs::tell_order(recording.logs(), alloc, out),
        "packets" => clients::tell_packets(recording.logs(), alloc, of, out),
        "sessions" => sessions::tell_sessions(recording, alloc, out),
        _ => clients::tell_client(recording, alloc, of, out),
    }
}

/// The first word of a text, and what comes after it.
pub fn cut(text: &str) -> (&str, &str) {
    text.split_once(' ').unwrap_or((text, ""))
}
