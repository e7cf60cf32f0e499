//! The figures of a large recording, as text and as JSON.
use aud_explain_app::{
    CausesTold, Classes, Entries, Input, Recoveries, Summary, Tails, summary_json, summary_text,
};
use std::alloc::{AllocError, Global};
use std::test::Fail;

const FIGURES: Summary = Summary {
    sessions: 268,
    yes: 213,
    no: 55,
    unobserved: 1,
    classes: Classes {
        delivery: 31,
        packets: 12,
        recording: 12,
    },
    faults: [
        ("NOLOG", 2),
        ("CHAIN", 1),
        ("ORDER", 6),
        ("CLIENT", 0),
        ("NAMES", 3),
        ("FRAME", 8),
        ("ORPHAN", 4),
        ("CONTENT", 10),
        ("EXTRA", 5),
        ("DOUBLED", 8),
        ("SWAPPED", 3),
        ("LOST", 4),
        ("WINDOW", 0),
        ("TAIL", 1),
    ],
    tails: Tails {
        sessions: 5,
        events: 28,
    },
    recoveries: Recoveries {
        asked: 540,
        granted: 533,
        refused: 7,
    },
    entries: Entries {
        all: 1200,
        recoverable: 1100,
    },
    input: Input {
        lines: 30000,
        bytes: 2500000,
        seconds: 2,
    },
};

const FIGURES_TEXT: &str = "sessions: 268, yes: 213, no: 55
  recording 12: NOLOG 2 CHAIN 1 ORDER 6 NAMES 3
  packets 12: FRAME 8 ORPHAN 4
  delivery 31: CONTENT 10 EXTRA 5 DOUBLED 8 SWAPPED 3 LOST 4 TAIL 1
  cause no-offset: 1
  cause extra-live: 9
  cause missing-break: 1007
  no known cause: 6
sessions that no client named: 1
sessions with a tail: 5, events in tails: 28
recoveries asked for: 540, granted: 533, refused: 7
entries of the stream: 1200, recoverable: 1100
lines: 30000, bytes: 2500000, seconds: 2
";

const FIGURES_JSON: &str =
    r#"{"summary":{"bytes":2500000,"causes":{"after-disconnect":0,"altered":0,"another-encoder":0,"another-event":0,"asked-too-early":0,"attachments-reordered":0,"before-birth":0,"body-came-twice":0,"cleared-after-break":0,"client-tap-has-no-packets":0,"cut-before-reply":0,"doubled-in-replay":0,"doubled-live":0,"entries-skipped-by-node":0,"entry-taken-again":0,"extra-live":9,"frame-not-recorded":0,"join-missing":0,"late-leave":0,"leave-missing":0,"log-ended-early":0,"lost-live":0,"missing-back":0,"missing-break":1007,"namespace-differs":0,"never-broken":0,"no-client-tap":0,"no-offset":1,"no-start":0,"node-behind-break":0,"node-ended-in-turn":0,"node-not-tapped":0,"not-a-packet":0,"not-in-stream":0,"offset-of-another-session":0,"open-not-recorded":0,"opened-twice":0,"out-after-answer":0,"recovered-twice":0,"recovery-not-recorded":0,"replay-includes-offset":0,"reply-missing":0,"reply-without-pid":0,"restarted-in-old-log":0,"rooms-at-break":0,"second-connect":0,"sent-after-end":0,"sent-again-after-replay":0,"session-over":0,"sid-differs":0,"skipped-in-window":0,"stale-offset":0,"swapped-in-replay":0,"swapped-live":0,"tap-began-late":0,"turn-not-stored":0,"two-taps":0,"unknown-offset":0},"class":{"delivery":31,"packets":12,"recording":12},"entries":{"all":1200,"recoverable":1100},"fault":{"CHAIN":1,"CLIENT":0,"CONTENT":10,"DOUBLED":8,"EXTRA":5,"FRAME":8,"LOST":4,"NAMES":3,"NOLOG":2,"ORDER":6,"ORPHAN":4,"SWAPPED":3,"TAIL":1,"WINDOW":0},"lines":30000,"no":55,"no_known_cause":6,"recoveries":{"asked":540,"granted":533,"refused":7},"seconds":2,"sessions":268,"tail":{"events":28,"sessions":5},"unobserved":1,"yes":213},"v":1}"#;

/// What an explanation told of causes: how many other sessions it is of, whether no known cause holds, and the names.
type Told = (usize, bool, &'static [&'static str]);

static TOLD: [Told; 4] = [
    (8, false, &["missing-break", "extra-live", "missing-break"]),
    (997, false, &["missing-break"]),
    (0, true, &["no-offset", "no-offset"]),
    (4, true, &[]),
];

/// More sessions than a count holds: it is the greatest number of 64 bits.
static TOO_MANY: [Told; 2] = [(usize::MAX, true, &[]), (usize::MAX, true, &[])];

fn told(alloc: Global, rows: &[Told]) -> Result<Vec<CausesTold>, AllocError> {
    let mut told = Vec::new(alloc);
    for (others, is_unknown, names) in rows {
        let mut ids: Vec<&'static str> = Vec::new(alloc);
        ids.extend_from_slice(*names)?;
        told.push(CausesTold {
            ids,
            is_unknown: *is_unknown,
            others: *others,
        })?;
    }
    Ok(told)
}

#[test]
fn figures(rt: HostRuntime) -> Result<(), Fail> {
    let alloc = rt.alloc();
    let few = told(alloc, &TOLD)?;
    assert_eq!(rt; summary_text(alloc, &FIGURES, &few)?.as_str(), FIGURES_TEXT);
    assert_eq!(rt; summary_json(alloc, &FIGURES, &few)?.as_str(), FIGURES_JSON);
    let many = told(alloc, &TOO_MANY)?;
    let text = summary_text(alloc, &FIGURES, &many)?;
    let line = "\n  no known cause: 18446744073709551615\n";
    assert!(rt; text.as_str().contains(line), "{text}");
    Ok(())
}
