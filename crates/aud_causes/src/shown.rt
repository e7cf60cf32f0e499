//! By which records and figures a cause is shown.
ghost use Rattle.std.specs.Prelude.{◌≡◌, flat_map, option_to_list};
ghost use Rattle.aud_causes.specs.Table.{row_of};

use crate::cause::Cause;
use crate::lines::RecordAt::{self, Ask, Bad, First, Got, Node, Reply};
use crate::why::Figure::{self, Name, Number};
use crate::why::{no_packet_figures, part_figures};

/// What shows a cause: its records, in the order in which they are told, and the figures for its words.
#[derive(Drop)]
pub(crate) struct Shown {
    pub records: [Option<RecordAt>; 4],
    pub figures: [Option<Figure>; 3],
}

/// The records and the figures of the cause's row.
pub(crate) fn shown_of(cause: Cause) -> Shown
    ensures records { flat_map option_to_list result.records ≡ (row_of cause).records }
    ensures figures { flat_map option_to_list result.figures ≡ (row_of cause).figures }
{
    match cause {
        Cause::NodeBehindBreak {
            broke,
            back,
            high,
            low,
        } => Shown {
            records: [Some(Node(broke)), Some(Node(back)), None, None],
            figures: [Some(Name(back.node)), Some(Number(low)), Some(Number(high))],
        },
        Cause::SentAgainAfterReplay { first, again, low } => Shown {
            records: [Some(Got(first)), Some(Got(again)), None, None],
            figures: [Some(Number(low)), None, None],
        },
        Cause::ReplayIncludesOffset { stay, again, after } => Shown {
            records: [Some(Ask(stay)), Some(Got(again)), None, None],
            figures: [Some(Number(after)), None, None],
        },
        Cause::DoubledInReplay { first, again }
        | Cause::BodyCameTwice { first, again, .. }
        | Cause::DoubledLive { first, again }
        | Cause::SwappedLive { first, again }
        | Cause::SwappedInReplay { first, again } => Shown {
            records: [Some(Got(first)), Some(Got(again)), None, None],
            figures: [None; 3],
        },
        Cause::StaleOffset { stay, after }
        | Cause::OffsetOfAnotherSession { stay, after }
        | Cause::FrameNotRecorded { stay, after } => Shown {
            records: [Some(Ask(stay)), None, None, None],
            figures: [Some(Number(after)), None, None],
        },
        Cause::UnknownOffset(stay) | Cause::NoOffset(stay) => Shown {
            records: [Some(Ask(stay)), None, None, None],
            figures: [None; 3],
        },
        Cause::RoomsAtBreak { stay, after, low } | Cause::SkippedInWindow { stay, after, low } =>
            Shown {
                records: [Some(Ask(stay)), Some(Reply(stay)), None, None],
                figures: [Some(Number(after)), Some(Number(low)), None],
            },
        Cause::LostLive(frame)
        | Cause::AttachmentsReordered(frame)
        | Cause::AnotherEvent(frame)
        | Cause::ExtraLive(frame)
        | Cause::JoinMissing(frame)
        | Cause::LeaveMissing(frame) => Shown {
            records: [Some(Got(frame)), None, None, None],
            figures: [None; 3],
        },
        Cause::AnotherEncoder { frame, part } | Cause::Altered { frame, part } => Shown {
            records: [Some(Got(frame)), None, None, None],
            figures: part_figures(part),
        },
        Cause::LogEndedEarly {
            last: at,
            high: cursor,
        }
        | Cause::SentAfterEnd {
            end: at,
            high: cursor,
        }
        | Cause::BeforeBirth {
            begin: at,
            low: cursor,
        } => Shown {
            records: [Some(Node(at)), None, None, None],
            figures: [Some(Name(at.node)), Some(Number(cursor)), None],
        },
        Cause::LateLeave(at) | Cause::NeverBroken(at) => Shown {
            records: [Some(Node(at)), None, None, None],
            figures: [None; 3],
        },
        Cause::RecoveryNotRecorded {
            stay,
            recoveries,
            turns,
        } => Shown {
            records: [Some(Ask(stay)), Some(Reply(stay)), None, None],
            figures: [
                Some(Number(recoveries as u64)),
                Some(Number(turns as u64)),
                None,
            ],
        },
        Cause::MissingBreak {
            turn,
            begin,
            back,
            stay: Some(stay),
        } => Shown {
            records: [
                Some(Node(begin)),
                Some(Node(back)),
                Some(Ask(stay)),
                Some(Reply(stay)),
            ],
            figures: [Some(Number(turn as u64)), None, None],
        },
        Cause::MissingBreak {
            turn,
            begin: first,
            back: again,
            stay: None,
        }
        | Cause::TurnNotStored { turn, first, again }
        | Cause::RecoveredTwice { turn, first, again } => Shown {
            records: [Some(Node(first)), Some(Node(again)), None, None],
            figures: [Some(Number(turn as u64)), None, None],
        },
        Cause::MissingBack { turn, next } => Shown {
            records: [Some(Node(next)), None, None, None],
            figures: [Some(Number(turn as u64)), None, None],
        },
        Cause::ClearedAfterBreak { broke, cleared } => Shown {
            records: [Some(Node(broke)), Some(Node(cleared)), None, None],
            figures: [Some(Name(cleared.node)), None, None],
        },
        Cause::OpenedTwice { first, again } => Shown {
            records: [Some(Node(first)), Some(Node(again)), None, None],
            figures: [Some(Name(first.node)), Some(Name(again.node)), None],
        },
        Cause::OpenNotRecorded(Some(at))
        | Cause::NoStart(at)
        | Cause::RestartedInOldLog(at)
        | Cause::NotInStream(at)
        | Cause::SessionOver(at)
        | Cause::NodeEndedInTurn(at) => Shown {
            records: [Some(Node(at)), None, None, None],
            figures: [Some(Name(at.node)), None, None],
        },
        Cause::EntriesSkippedByNode {
            taken,
            cursor,
            position,
        }
        | Cause::EntryTakenAgain {
            taken,
            cursor,
            position,
        } => Shown {
            records: [Some(Node(taken)), None, None, None],
            figures: [
                Some(Name(taken.node)),
                Some(Number(position)),
                Some(Number(cursor)),
            ],
        },
        Cause::NodeNotTapped(number) | Cause::TwoTaps(number) => Shown {
            records: [None; 4],
            figures: [Some(Number(number as u64)), None, None],
        },
        Cause::OpenNotRecorded(None) | Cause::NoClientTap => Shown {
            records: [None; 4],
            figures: [None; 3],
        },
        Cause::ReplyMissing(client) | Cause::ClientTapHasNoPackets(client) => Shown {
            records: [None; 4],
            figures: [Some(Name(client)), None, None],
        },
        Cause::SidDiffers(stay) | Cause::NamespaceDiffers(stay) => Shown {
            records: [Some(Reply(stay)), None, None, None],
            figures: [None; 3],
        },
        Cause::NotAPacket(why) => Shown {
            records: [Some(Bad), None, None, None],
            figures: no_packet_figures(why),
        },
        Cause::TapBeganLate(stay) | Cause::CutBeforeReply(stay) | Cause::ReplyWithoutPid(stay) =>
            Shown {
                records: [Some(First(stay)), None, None, None],
                figures: [None; 3],
            },
        Cause::OutAfterAnswer { before, stay }
        | Cause::SecondConnect { before, stay }
        | Cause::AfterDisconnect { before, stay } => Shown {
            records: [Some(First(before)), Some(First(stay)), None, None],
            figures: [None; 3],
        },
        Cause::AskedTooEarly {
            broke,
            begin,
            high,
            low,
        } => Shown {
            records: [Some(Node(broke)), Some(Node(begin)), None, None],
            figures: [Some(Number(high)), Some(Number(low)), None],
        },
    }
}
