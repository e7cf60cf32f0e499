//! Causes, each with the figures that show it.

use aud_check::Part;
use aud_refusals::NoPacket;
use aud_session_facts::RecordPlace;

/// What a fault may come from, with what shows it. Positions of the stream count from 1; all else from 0: frames over
/// all that was received of the session, in the order of the client's tap, and stays among those whose reply names it.
#[derive(Clone, Copy, Drop)]
pub enum Cause {
    /// The node that took the session back was at a lower cursor than an earlier one on which it had broken.
    NodeBehindBreak {
        broke: RecordPlace,
        back: RecordPlace,
        high: u64,
        low: u64,
    },
    /// The replay went past the node's cursor at the `back`, and the node sent the same again when it took it.
    SentAgainAfterReplay {
        first: usize,
        again: usize,
        low: u64,
    },
    /// The first that came in a recovery was the entry after which the client had asked to go on.
    ReplayIncludesOffset {
        stay: usize,
        again: usize,
        after: u64,
    },
    /// An entry that the node had to send again came twice in one recovery.
    DoubledInReplay {
        first: usize,
        again: usize,
    },
    /// The client asked to go on after an entry before others that it had.
    StaleOffset {
        stay: usize,
        after: u64,
    },
    /// What came twice had come in one body of polling before a recovery; or in two bodies of the same text, if `equal`.
    BodyCameTwice {
        first: usize,
        again: usize,
        equal: bool,
    },
    /// The client asked to go on after an entry that was not due to the session.
    OffsetOfAnotherSession {
        stay: usize,
        after: u64,
    },
    /// The client asked to go on after this entry, which was due to the session, and of which its tap has no frame.
    FrameNotRecorded {
        stay: usize,
        after: u64,
    },
    /// The client asked to go on, in this stay, after an offset that the stream doesn't have.
    UnknownOffset(usize),
    /// The client asked for the session in this stay, and gave no offset.
    NoOffset(usize),
    /// What was replayed is what the rooms held at the break are addressed by.
    RoomsAtBreak {
        stay: usize,
        after: u64,
        low: u64,
    },
    /// The entry is one of those to be replayed, and no frame of it came.
    SkippedInWindow {
        stay: usize,
        after: u64,
        low: u64,
    },
    /// An entry was left out while the client was connected; this is the frame in its place.
    LostLive(usize),
    /// An entry was sent twice while the client was connected.
    DoubledLive {
        first: usize,
        again: usize,
    },
    /// Two entries changed places while the client was connected.
    SwappedLive {
        first: usize,
        again: usize,
    },
    /// An entry that the node had to send again came late in its recovery.
    SwappedInReplay {
        first: usize,
        again: usize,
    },
    /// An event says what its entry says, and its text is another. Its sentence counts bytes from 1.
    AnotherEncoder {
        frame: usize,
        part: Part,
    },
    /// The event in this frame has its entry's attachments in another order.
    AttachmentsReordered(usize),
    /// The event in this frame has another name than its entry, or another number of arguments, or is of another
    /// namespace.
    AnotherEvent(usize),
    /// An event doesn't say what its entry says, or has other attachments; its text or attachments are not the entry's
    /// from this part on. Its sentence counts bytes and attachments from 1.
    Altered {
        frame: usize,
        part: Part,
    },
    /// The log of the session's last turn ends in that turn, before the entry.
    LogEndedEarly {
        last: RecordPlace,
        high: u64,
    },
    /// The turn in which the event came had ended, with the node's cursor before the entry.
    SentAfterEnd {
        end: RecordPlace,
        high: u64,
    },
    /// The session left a room of the entry, by this record, before it reached the entry.
    LateLeave(RecordPlace),
    /// The node had taken the entry before it opened the session.
    BeforeBirth {
        begin: RecordPlace,
        low: u64,
    },
    /// An entry that wasn't addressed to the session was sent, in this frame, while the client was connected.
    ExtraLive(usize),
    /// The entry in this frame would be due if the session had joined one of its rooms before.
    JoinMissing(usize),
    /// What came from this frame on would fit if the session had left a room of the entry before, or one that it
    /// excepts.
    LeaveMissing(usize),
    /// The client was taken back more often than the logs have turns after the first. The stay is that of the first
    /// recovery past so many as there are turns.
    RecoveryNotRecorded {
        stay: usize,
        recoveries: usize,
        turns: usize,
    },
    /// The session went on after a turn of which no node has the `break`, by this recovery, where it is known.
    MissingBreak {
        turn: usize,
        begin: RecordPlace,
        back: RecordPlace,
        stay: Option<usize>,
    },
    /// No log has the begin of this turn, though a log has its `break`, or a later turn; this record says so.
    MissingBack {
        turn: usize,
        next: RecordPlace,
    },
    /// The session left a room, or was over, after its break in the same log.
    ClearedAfterBreak {
        broke: RecordPlace,
        cleared: RecordPlace,
    },
    /// Two records take the session back for one turn, and a log ends that turn, or the client has a recovery for each.
    TurnNotStored {
        turn: usize,
        first: RecordPlace,
        again: RecordPlace,
    },
    /// Two nodes took the session back for one turn.
    RecoveredTwice {
        turn: usize,
        first: RecordPlace,
        again: RecordPlace,
    },
    /// Two records open the session.
    OpenedTwice {
        first: RecordPlace,
        again: RecordPlace,
    },
    /// A node is tapped, and no log has the `open` of the session; this is its first record in a node's log, if it has any.
    OpenNotRecorded(Option<RecordPlace>),
    /// No node's log has the begin of this turn, nor its `break`.
    NodeNotTapped(usize),
    /// A log's first record, this one, is no `start`.
    NoStart(RecordPlace),
    /// A log goes on after a second `start`, which is this record.
    RestartedInOldLog(RecordPlace),
    /// A node took an entry that isn't the next one.
    EntriesSkippedByNode {
        taken: RecordPlace,
        cursor: u64,
        position: u64,
    },
    /// A node took an entry that its cursor had passed.
    EntryTakenAgain {
        taken: RecordPlace,
        cursor: u64,
        position: u64,
    },
    /// A node took an entry that the stream doesn't have, by this record.
    NotInStream(RecordPlace),
    /// So many clients' taps, more than one, name the session.
    TwoTaps(usize),
    /// No client's tap names the session.
    NoClientTap,
    /// A client's tap, at this place, has a CONNECT or events of no known session.
    ReplyMissing(usize),
    /// The first connection of a client's tap, at this place, has no packet, and the session has one turn.
    ClientTapHasNoPackets(usize),
    /// The reply in this stay has another sid than the session's `open`.
    SidDiffers(usize),
    /// The reply in this stay is of another namespace than the session's `open`.
    NamespaceDiffers(usize),
    /// A record of the client's tap is no packet; and why, where its decoder says so.
    NotAPacket(Option<NoPacket>),
    /// Events came in a stay without a reply; the stay has this number in the tap.
    TapBeganLate(usize),
    /// The client asked for a session, and events came, but no reply; the stay has this number in the tap.
    CutBeforeReply(usize),
    /// The reply names nobody; the stay has this number in the tap.
    ReplyWithoutPid(usize),
    /// In an earlier stay of the connection the namespace was answered, where no session was asked for. The stays have
    /// these numbers in the tap.
    OutAfterAnswer {
        before: usize,
        stay: usize,
    },
    /// In an earlier stay of the connection the namespace was answered. The stays have these numbers in the tap.
    SecondConnect {
        before: usize,
        stay: usize,
    },
    /// The stay of the connection in the namespace before it ended by a DISCONNECT. The stays have these numbers in the
    /// tap.
    AfterDisconnect {
        before: usize,
        stay: usize,
    },
    /// The session that was asked for was over, by this record.
    SessionOver(RecordPlace),
    /// The log of the node on which the session's last turn began ends in that turn; this is its last record.
    NodeEndedInTurn(RecordPlace),
    /// The session that was asked for had not broken: no log has a break of its last turn, which begins here.
    NeverBroken(RecordPlace),
    /// The session that was asked for broke with its node's cursor past the one with which another was opened instead.
    AskedTooEarly {
        broke: RecordPlace,
        begin: RecordPlace,
        high: u64,
        low: u64,
    },
}
