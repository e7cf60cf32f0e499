//! The calls, by their names.
ghost use Rattle.aud_tap.specs.Names.{AreNamedOnce};

use crate::certificates::OnCertificates;
use crate::desk::AtDesk;
use crate::given::Given;
use crate::lines::Fed;
use crate::logs::OnLogs;
use crate::rooms::OnRooms;
use crate::taps::OnTaps;
use crate::workers::OnWorkers;
use crate::{certificates, desk, lines, logs, rooms, taps, workers};
use aud_client::Recording;
use aud_reader::Lines;
use aud_tap::Taps;
use std::alloc::Global;
use std::hash::RandomState;
use std::sync::Wait;
use std::thread::Threads;
use std::time::Clock;

/// A call of the library.
pub enum Call {
    Fed(Fed),
    OnRooms(OnRooms),
    AtDesk(AtDesk),
    OnTaps(OnTaps),
    OnLogs(OnLogs),
    OnCertificates(OnCertificates),
    OnWorkers(OnWorkers),
}

/// Each call, after its name; a number in a name is that of the threads or workers.
pub static CALLS: [(&str, Call); 32] = [
    ("Splitter::feed", Call::Fed(Fed::Splitter)),
    ("BundleReader::line", Call::Fed(Fed::Reader)),
    ("Assembler::feed", Call::Fed(Fed::Assembler)),
    ("Logs::build", Call::OnTaps(OnTaps::Build)),
    ("Recording::read 1", Call::OnTaps(OnTaps::Read(1))),
    ("Recording::read 2", Call::OnTaps(OnTaps::Read(2))),
    ("Recording::read 64", Call::OnTaps(OnTaps::Read(64))),
    ("IndexedTranscript::read", Call::OnLogs(OnLogs::Transcript)),
    ("RoomSet::join", Call::OnRooms(OnRooms::Join)),
    ("SpanBuilder::join", Call::OnRooms(OnRooms::SpansJoin)),
    ("SpanBuilder::upto", Call::OnRooms(OnRooms::SpansUpto)),
    ("SpanBuilder::finish", Call::OnRooms(OnRooms::SpansFinish)),
    ("apply", Call::OnLogs(OnLogs::Apply)),
    ("make", Call::OnCertificates(OnCertificates::Make)),
    (
        "make_all 1",
        Call::OnCertificates(OnCertificates::MakeAll(1)),
    ),
    (
        "make_all 2",
        Call::OnCertificates(OnCertificates::MakeAll(2)),
    ),
    (
        "make_all 64",
        Call::OnCertificates(OnCertificates::MakeAll(64)),
    ),
    ("check", Call::OnCertificates(OnCertificates::Check)),
    ("read_cert", Call::OnCertificates(OnCertificates::Read)),
    ("Book::append", Call::AtDesk(AtDesk::Append)),
    ("Desk::new", Call::AtDesk(AtDesk::New)),
    ("Desk::post", Call::AtDesk(AtDesk::Post)),
    ("Desk::read_back", Call::AtDesk(AtDesk::ReadBack)),
    ("Tickets::new", Call::OnWorkers(OnWorkers::Tickets)),
    ("work", Call::OnWorkers(OnWorkers::Work)),
    ("gather", Call::OnWorkers(OnWorkers::Gather)),
    ("audit_with 1", Call::OnWorkers(OnWorkers::Audit(1))),
    ("audit_with 2", Call::OnWorkers(OnWorkers::Audit(2))),
    ("audit_with 64", Call::OnWorkers(OnWorkers::Audit(64))),
    ("order", Call::OnLogs(OnLogs::Order)),
    ("upgrade", Call::OnLogs(OnLogs::Upgrade)),
    ("write_bundle", Call::OnTaps(OnTaps::Write)),
];

/// Makes the call, where it is on the bundle, on its lines, its taps, or its recording and the pids of its sessions.
pub fn given<R: Threads + Wait + Clock + Sync>(
    recording: &Recording<'_>,
    taps: &Taps,
    rt: &R,
    alloc: Global,
    keys: RandomState,
    lines: &Lines,
    pids: &[String],
    call: &Call,
) -> Given
    requires { AreNamedOnce taps.now }
{
    match call {
        Call::Fed(fed) => lines::given(lines, alloc, keys, fed),
        Call::OnRooms(call) => rooms::given(alloc, call),
        Call::AtDesk(call) => desk::given(rt, alloc, call),
        Call::OnTaps(call) => taps::given(taps, rt, alloc, keys, call),
        Call::OnLogs(call) => logs::given(recording.logs(), alloc, keys, call),
        Call::OnCertificates(call) => certificates::given(recording, rt, alloc, pids, call),
        Call::OnWorkers(call) => workers::given(recording, rt, alloc, pids, call),
    }
}
