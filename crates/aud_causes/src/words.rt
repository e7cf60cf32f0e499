//! What is said of a cause in words.
ghost use Rattle.std.specs.Prelude.{◌≡◌};
ghost use Rattle.aud_causes.specs.Table.{row_of};

use crate::cause::Cause;
use crate::why::{advice, no_packet_words, part_words};

/// What is said of a cause in words.
#[derive(Drop)]
pub(crate) struct Words {
    pub id: &'static str,
    pub why: &'static str,
    pub todo: &'static str,
}

/// The words of the cause's row.
pub(crate) fn words_of(cause: Cause) -> Words
    ensures id { result.id.now ≡ (row_of cause).id }
    ensures why { result.why.now ≡ (row_of cause).why }
    ensures todo { result.todo.now ≡ (row_of cause).todo }
{
    match cause {
        Cause::NodeBehindBreak { .. } => Words {
            id: "node-behind-break",
            why: "# took the session back with its cursor at #; the break was at #.",
            todo: "let the restore wait until the cursor is at the break's, or drop what the client has.",
        },
        Cause::SentAgainAfterReplay { .. } => Words {
            id: "sent-again-after-replay",
            why: "The replay ran past the node's cursor at #, and the node sent again what it took then.",
            todo: "let the replay end at the node's cursor, or drop what it sent from what the node takes.",
        },
        Cause::ReplayIncludesOffset { .. } => Words {
            id: "replay-includes-offset",
            why: "The client asked to go on after entry #, and that entry came first.",
            todo: "let the replay begin after the offset: in Redis `XRANGE` from `(OFFSET`, or skip the first.",
        },
        Cause::DoubledInReplay { .. } => Words {
            id: "doubled-in-replay",
            why: "The entry is one of those to be sent again, and came twice in one recovery.",
            todo: "look at how the node reads the stream for the replay: no entry may stand in two of its pages.",
        },
        Cause::StaleOffset { .. } => Words {
            id: "stale-offset",
            why: "The client asked to go on after entry #, and its tap has later ones.",
            todo: "store the offset with each event, before the event is worked on, and put the client's tap there.",
        },
        Cause::BodyCameTwice { equal: false, .. } => Words {
            id: "body-came-twice",
            why: "From this entry on, all that came before the recovery had come in one body of polling.",
            todo: "see whether the client refused that body, for its packets are too many or too long.",
        },
        Cause::BodyCameTwice { equal: true, .. } => Words {
            id: "body-came-twice",
            why: "The two bodies of polling in which the entry came are the same, byte for byte.",
            todo: "see whether the client's tap wrote one body twice; else whether the server sent it twice.",
        },
        Cause::OffsetOfAnotherSession { .. } => Words {
            id: "offset-of-another-session",
            why: "The client asked to go on after entry #, which was not due to this session.",
            todo: "drop the offset when a new session opens.",
        },
        Cause::FrameNotRecorded { .. } => Words {
            id: "frame-not-recorded",
            why: "The client asked to go on after entry #, of which its tap has no frame: it may have had it.",
            todo: "see whether the client's tap lost records; else look at where the client has the offset from.",
        },
        Cause::UnknownOffset(_) => Words {
            id: "unknown-offset",
            why: "The client asked to go on after an offset that no entry of the stream has.",
            todo: "take as offset only what a server that recovers put at the end of an event.",
        },
        Cause::NoOffset(_) => Words {
            id: "no-offset",
            why: "The client asked for the session and gave no offset.",
            todo: "store the offset of each event, and ask with the last one.",
        },
        Cause::RoomsAtBreak { .. } => Words {
            id: "rooms-at-break",
            why: "Of the entries after # up to #, exactly those came that are for the rooms held at the break.",
            todo: "join again after a recovery, or accept it: public adapters replay by the rooms at the break.",
        },
        Cause::SkippedInWindow { .. } => Words {
            id: "skipped-in-window",
            why: "The entry is one of those to be sent again, after # up to #, and no frame of it came.",
            todo: "look at how the node reads the stream for the replay, and at what stands between it and the client.",
        },
        Cause::LostLive(_) => Words {
            id: "lost-live",
            why: "The node took the entry while the client was connected, and no frame of it came.",
            todo: "look at what stands between the node and the client, and at what the node sent.",
        },
        Cause::DoubledLive { .. } => Words {
            id: "doubled-live",
            why: "No recovery stands between the two frames: the entry came twice while the client was connected.",
            todo: "look at what stands between the node and the client, and at what the node sent.",
        },
        Cause::SwappedLive { .. } => Words {
            id: "swapped-live",
            why: "No recovery stands between the two frames: they changed places while the client was connected.",
            todo: "look at what stands between the node and the client, and at what the node sent.",
        },
        Cause::SwappedInReplay { .. } => Words {
            id: "swapped-in-replay",
            why: "The entry is one of those to be sent again, and came late in its recovery.",
            todo: "send what is read for the replay in the stream's order, and before what the node takes.",
        },
        Cause::AnotherEncoder { .. } => Words {
            id: "another-encoder",
            why: "The event's text parts from its entry's at byte #, and is the same JSON.",
            todo: "let the stream's tap write each event as the nodes do, byte for byte.",
        },
        Cause::AttachmentsReordered(_) => Words {
            id: "attachments-reordered",
            why: "The event has its entry's attachments, in another order.",
            todo: "look at what stands between the node and the client: it has to keep the order of messages.",
        },
        Cause::AnotherEvent(_) => Words {
            id: "another-event",
            why: "The event has another name, namespace or number of arguments than its entry.",
            todo: "let no event but those of the stream end in a text that is an offset.",
        },
        Cause::Altered { part, .. } => Words {
            id: "altered",
            why: part_words(part),
            todo: "look at what stands between the node and the client.",
        },
        Cause::LogEndedEarly { .. } => Words {
            id: "log-ended-early",
            why: "The log of # ends in the session's last turn; the turns reach entry #.",
            todo: "write a node's log unbuffered, and stop the nodes after the clients.",
        },
        Cause::SentAfterEnd { .. } => Words {
            id: "sent-after-end",
            why: "By its log # had ended the turn in which the event came, with its cursor at #.",
            todo: "write `break` once nothing more is sent to the client; see whether the node sent on.",
        },
        Cause::LateLeave(_) => Words {
            id: "late-leave",
            why: "The session had left a room of the entry before it reached the entry.",
            todo: "send an entry by the rooms that the session holds when the node takes it.",
        },
        Cause::BeforeBirth { .. } => Words {
            id: "before-birth",
            why: "By its log # had taken the entry when it opened the session, with its cursor at #.",
            todo: "send a session nothing that the node took before its `open`; see whether that, and `start`, are written in time.",
        },
        Cause::ExtraLive(_) => Words {
            id: "extra-live",
            why: "The node sent the session an entry that was not addressed to it.",
            todo: "look at how the node picks the sessions of a room.",
        },
        Cause::JoinMissing(_) => Words {
            id: "join-missing",
            why: "What came would fit if the session had joined a room of the entry before: a `join` may be missing.",
            todo: "write a `join` at once, unbuffered; look at whether the session was in that room.",
        },
        Cause::LeaveMissing(_) => Words {
            id: "leave-missing",
            why: "What came would fit if the session had left a room before: a `leave` may be missing.",
            todo: "write a `leave` at once, unbuffered; look at whether the session was in that room.",
        },
        Cause::RecoveryNotRecorded { .. } => Words {
            id: "recovery-not-recorded",
            why: "The client was taken back more often (#) than the logs have turns after the first (#): a turn is missing.",
            todo: "tap each node, from its start, and write its log unbuffered.",
        },
        Cause::MissingBreak { stay: Some(_), .. } => Words {
            id: "missing-break",
            why: "The client recovered the session after turn #, so that turn broke; no log has its break.",
            todo: "write a node's log unbuffered; see whether it ended there, or the node was restarted; look at the disk and at how logs are rotated.",
        },
        Cause::MissingBreak { stay: None, .. } => Words {
            id: "missing-break",
            why: "The next turn begins, so turn # broke; no log has its break.",
            todo: "write a node's log unbuffered; see whether it ended there, or the node was restarted; look at the disk and at how logs are rotated.",
        },
        Cause::MissingBack { .. } => Words {
            id: "missing-back",
            why: "The session had turn #, by its `break` or a later turn; no log has its `back`.",
            todo: "write a node's log from its start, unbuffered; look at whether one ended early, or lost lines.",
        },
        Cause::ClearedAfterBreak { .. } => Words {
            id: "cleared-after-break",
            why: "The log of # clears the session up after its break, by a `leave` or its `gone`.",
            todo: "write no `leave` and no `gone` for what is cleared up after a break.",
        },
        Cause::TurnNotStored { .. } => Words {
            id: "turn-not-stored",
            why: "Two records take the session back as turn #; a log ends that turn, or the client has a recovery for each.",
            todo: "store the turn with the session, and write the next one into its `back`.",
        },
        Cause::RecoveredTwice { .. } => Words {
            id: "recovered-twice",
            why: "Two nodes took the session back as turn #.",
            todo: "take a stored session out of the store in one step, so that one node alone gets it.",
        },
        Cause::OpenedTwice { .. } => Words {
            id: "opened-twice",
            why: "The log of # has an `open` of the session, and that of # has another.",
            todo: "give each session a pid of its own; see whether two taps have one node's log.",
        },
        Cause::OpenNotRecorded(Some(_)) => Words {
            id: "open-not-recorded",
            why: "The log of # has records of the session, and no log has its `open`.",
            todo: "write an `open` when the session opens, unbuffered; look at how logs are rotated.",
        },
        Cause::OpenNotRecorded(None) => Words {
            id: "open-not-recorded",
            why: "No log has a record of the session, though a node is tapped: its `open` may be missing.",
            todo: "write an `open` when the session opens, unbuffered; look at how logs are rotated.",
        },
        Cause::NodeNotTapped(_) => Words {
            id: "node-not-tapped",
            why: "No node's log has the begin of turn #.",
            todo: "tap each node, from its start.",
        },
        Cause::NoStart(_) => Words {
            id: "no-start",
            why: "The log of # does not begin with a `start`.",
            todo: "begin a node's log with a `start`, when the node starts.",
        },
        Cause::RestartedInOldLog(_) => Words {
            id: "restarted-in-old-log",
            why: "# started again in its old log.",
            todo: "begin a new log, of another name, each time that a node starts.",
        },
        Cause::EntriesSkippedByNode { .. } => Words {
            id: "entries-skipped-by-node",
            why: "# took entry # with its cursor at #.",
            todo: "write a `take` for each entry before it is sent, unbuffered.",
        },
        Cause::EntryTakenAgain { .. } => Words {
            id: "entry-taken-again",
            why: "# took entry # again, with its cursor at #.",
            todo: "let a node take each entry once, in the order of the stream.",
        },
        Cause::NotInStream(_) => Words {
            id: "not-in-stream",
            why: "# names an entry that the stream's tap doesn't have.",
            todo: "tap the stream before the nodes, and stop its tap after them.",
        },
        Cause::TwoTaps(_) => Words {
            id: "two-taps",
            why: "# taps of clients name the session.",
            todo: "keep one name of a tap for a client's whole life.",
        },
        Cause::NoClientTap => Words {
            id: "no-client-tap",
            why: "No tap of a client names the session.",
            todo: "tap the client before its first connection.",
        },
        Cause::ReplyMissing(_) => Words {
            id: "reply-missing",
            why: "The tap of # has a CONNECT or events, and no reply that names their session.",
            todo: "begin a client's tap before its first packet, and record each answer to a CONNECT.",
        },
        Cause::ClientTapHasNoPackets(_) => Words {
            id: "client-tap-has-no-packets",
            why: "The first connection in the tap of # has no packet: it may be the session's.",
            todo: "begin to record a connection's packets before its first one; see why it ended.",
        },
        Cause::SidDiffers(_) => Words {
            id: "sid-differs",
            why: "The reply has another sid than the session was opened with.",
            todo: "write the session's sid into the node's log, not that of the transport.",
        },
        Cause::NamespaceDiffers(_) => Words {
            id: "namespace-differs",
            why: "The reply is of another namespace than the session was opened in.",
            todo: "write the namespace in which the session was opened.",
        },
        Cause::NotAPacket(why) => Words {
            id: "not-a-packet",
            why: no_packet_words(why),
            todo: advice(why),
        },
        Cause::TapBeganLate(_) => Words {
            id: "tap-began-late",
            why: "Events came in a stay without a reply, and no session was asked for in it.",
            todo: "begin a client's tap before its first packet.",
        },
        Cause::CutBeforeReply(_) => Words {
            id: "cut-before-reply",
            why: "The client asked for a session, and events came, but no reply did.",
            todo: "nothing, where the client came back; else look at why the connection was cut.",
        },
        Cause::ReplyWithoutPid(_) => Words {
            id: "reply-without-pid",
            why: "The reply names no session: the server recovers none there.",
            todo: "let the server recover sessions in this namespace.",
        },
        Cause::OutAfterAnswer { .. } => Words {
            id: "out-after-answer",
            why: "The namespace was answered before on this connection; the CONNECT may be recorded after its answer.",
            todo: "record what the client sends before it is sent.",
        },
        Cause::SecondConnect { .. } => Words {
            id: "second-connect",
            why: "The namespace was answered before on this connection; the client may have sent a second CONNECT.",
            todo: "connect to a namespace once, and not again while its session goes on.",
        },
        Cause::AfterDisconnect { .. } => Words {
            id: "after-disconnect",
            why: "Events came after a DISCONNECT from the namespace on this connection.",
            todo: "record what a client takes in: nothing of a namespace after its DISCONNECT.",
        },
        Cause::SessionOver(_) => Words {
            id: "session-over",
            why: "The log of # ends the session.",
            todo: "keep a session that a client may come back to, for as long as it may.",
        },
        Cause::NodeEndedInTurn(_) => Words {
            id: "node-ended-in-turn",
            why: "The log of # ends in the session's last turn.",
            todo: "see whether the node was killed: then it stored no session, and waiting can't help.",
        },
        Cause::NeverBroken(_) => Words {
            id: "never-broken",
            why: "No log has a break of the session's last turn.",
            todo: "let the client wait longer before it comes back, or the server notice a break sooner.",
        },
        Cause::AskedTooEarly { .. } => Words {
            id: "asked-too-early",
            why: "The session broke with its node's cursor at #; another was opened instead with the cursor at #.",
            todo: "let the client wait longer before it comes back, or the server notice a break sooner.",
        },
    }
}
