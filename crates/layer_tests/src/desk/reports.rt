//! Reports: the same by any number of workers, and with a gate that opens only where two workers are at work at once.
ghost use Rattle.aud_tap.specs.Names.{AreNamedOnce};

use crate::desk::bundle::{ONE_SESSION, REPORT, REPORT_OF_TWO, TWO_SESSIONS};
use crate::given::taps_of;
use aud_client::Recording;
use aud_desk::{AuditFault, Gate, OpenGate, audit_with};
use aud_tap::Taps;
use aud_verdict::report_on;
use std::alloc::Global;
use std::hash::RandomState;
use std::mem::ManuallyDrop;
use std::random::RandomSource;
use std::sync::Wait;
use std::sync::atomic::AtomicBool;
use std::sync::atomic::Ordering::SeqCst;
use std::test::Fail;
use std::thread;
use std::thread::Threads;
use std::time::{Clock, Duration};

/// The report of so many workers behind this gate; nothing where there are none or too many.
pub fn report<G: Gate + Sync, R: Threads + Wait + Clock + RandomSource + Sync>(
    taps: &Taps,
    rt: &R,
    alloc: Global,
    workers: usize,
    whole: bool,
    gate: &G,
) -> Result<String, Fail>
    requires { AreNamedOnce taps.now }
{
    let keys = RandomState::new(rt)?;
    let recording = ManuallyDrop::new(Recording::read(rt, alloc, keys, 2, taps)?);
    match audit_with(rt, alloc, &recording, workers, whole, gate) {
        Ok(report) => Ok(report_on(alloc, &report.verdicts)?.text),
        Err(AuditFault::Workers) => Ok(String::new(alloc)),
        Err(_) => Err(Fail::new("an audit")),
    }
}

/// A bundle, how many workers, whether the whole is asked for, and the report.
static ROWS: [(&str, usize, bool, &str); 7] = [
    (TWO_SESSIONS, 1, false, REPORT_OF_TWO),
    (TWO_SESSIONS, 2, false, REPORT_OF_TWO),
    (TWO_SESSIONS, 64, false, REPORT_OF_TWO),
    (TWO_SESSIONS, 2, true, REPORT_OF_TWO),
    (ONE_SESSION, 1, true, REPORT),
    (TWO_SESSIONS, 0, false, ""),
    (TWO_SESSIONS, 65, false, ""),
];

/// Holds index 0 until the entry of index 1 is kept, for at most 10,000 turns of a millisecond.
#[derive(Drop)]
struct Held {
    began: AtomicBool,
    kept: AtomicBool,
    gave_up: AtomicBool,
}

impl Gate for Held {
    fn before<R: Wait + Clock>(&self, rt: &R, index: usize) {
        if index != 0 {
            return;
        }
        self.began.store(true, SeqCst);
        for _ in 0..10_000u32 {
            if self.kept.load(SeqCst) {
                return;
            }
            thread::sleep(rt, Duration::from_millis(1));
        }
        self.gave_up.store(true, SeqCst);
    }

    fn after<R: Wait + Clock>(&self, _rt: &R, index: usize) {
        if index == 1 {
            self.kept.store(true, SeqCst);
        }
    }
}

#[test]
fn any_number_of_workers_gives_one_report(rt: HostRuntime) -> Result<(), Fail> {
    let (alloc, keys) = (rt.alloc(), RandomState::new(&rt)?);
    for (bundle, workers, whole, wanted) in &ROWS {
        let taps = ManuallyDrop::new(taps_of(alloc, keys, bundle)?);
        let report = report(&taps, &rt, alloc, *workers, *whole, &OpenGate)?;
        assert_eq!(rt; report.as_str(), *wanted);
    }
    let gate = Held {
        began: AtomicBool::new(false),
        kept: AtomicBool::new(false),
        gave_up: AtomicBool::new(false),
    };
    let taps = ManuallyDrop::new(taps_of(alloc, keys, TWO_SESSIONS)?);
    let report = report(&taps, &rt, alloc, 2, false, &gate)?;
    assert_eq!(rt; report.as_str(), REPORT_OF_TWO);
    assert!(rt; gate.began.load(SeqCst) && gate.kept.load(SeqCst) && !gate.gave_up.load(SeqCst));
    Ok(())
}
