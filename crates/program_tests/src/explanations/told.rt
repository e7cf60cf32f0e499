//! What is told of a session whose parts are given, as text and as JSON.
use aud_explanation::{
    ClientEvent, Explanation, Happens, Missed, RefusedRecovery, TurnBegin, TurnEnd, TurnShown,
    explanation_json, push_text,
};
use aud_rows::{Role, Row, Says};
use aud_verdict::Verdict;
use std::test::Fail;

const VERDICT: Verdict = Verdict::Yes {
    got: 1,
    tail: 0,
    turns: 1,
};

const TURN: TurnShown<'static> = TurnShown {
    turn: 3,
    node: "a",
    begin: TurnBegin::Back,
    begin_line: 7,
    low: 0,
    took: None,
    end: TurnEnd::Missing,
};

const EVENT: ClientEvent = ClientEvent {
    first: 8,
    last: 8,
    happens: Happens::Lost,
};

const ASK: Row<'static> = Row {
    line: 9,
    tap: "c",
    session: None,
    says: Says::Asks {
        conn: 1,
        pid: "P",
        off: None,
    },
    role: Role::Ask,
};

const TEXT: &str = "yes P got=1 tail=0 turns=1 [delivery]
no one client, turns 1, delivery not judged
    turn 3  a  7 back, cursor 0 == no break  <- missing
    client  8 lost
refused recovery: got no session, missed 1
       9 c  conn 1 asks P, no offset
    missed entry 2 o
";

const JSON: &str =
    r#"{"alike":[],"also":[],"also_left":0,"at_frame":null,"causes":[],"causes_left":0,"class":"delivery","client":null,"conn":null,"due":null,"events":[{"after":null,"from":null,"happens":"lost","lines":[8,8],"to":null}],"events_left":0,"evidence":[],"evidence_left":0,"fault":null,"got":null,"nsp":null,"off":null,"pid":"P","refused":[{"ask":{"file":null,"file_line":null,"line":9,"of":null,"role":"ask","says":"conn 1 asks P, no offset","tap":"c"},"has_cause":true,"instead":null,"missed":[{"off":"o","position":2}],"missed_left":0,"refuted":["no-offset"],"reply":null}],"refused_left":0,"refuted":[],"tail":null,"turns":[{"begin":"back","end":"missing","high":null,"lines":[7],"low":0,"node":"a","took":null,"turn":3}],"turns_left":0,"v":1,"verdict":"yes"}"#;

#[test]
fn text_and_json_of_a_session(rt: HostRuntime) -> Result<(), Fail> {
    let alloc = rt.alloc();
    let missed = [Missed {
        position: 2,
        off: "o",
    }];
    let refused = [RefusedRecovery {
        ask: ASK,
        reply: None,
        instead: None,
        missed: Some(&missed),
        has_cause: true,
        refuted: &["no-offset"],
    }];
    let (verdict, turns, events) = (VERDICT, [TURN], [EVENT]);
    let explanation = Explanation {
        pid: "P",
        verdict: &verdict,
        client: None,
        account: None,
        turns: &turns,
        evidence: &[],
        also: &[],
        also_left: 0,
        alike: &[],
        refused: &refused,
        events: &events,
        causes: &[],
        refuted: &[],
    };
    let mut text = String::new(alloc);
    push_text(alloc, &mut text, &[], &explanation)?;
    let json = explanation_json(alloc, &[], &explanation)?;
    assert_eq!(rt; text.as_str(), TEXT);
    assert_eq!(rt; json.as_str(), JSON);
    Ok(())
}
