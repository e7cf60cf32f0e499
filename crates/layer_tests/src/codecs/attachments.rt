//! Packets with attachments: the examples of the Socket.IO protocol 5 document, and refusals in their order.
use crate::told::Told;
use aud_eio::{decode_binary, decode_text};
use aud_sio::{Assembler, SioFault, Whole, answers_are_wholes};
use std::alloc::Global;
use std::test::Fail;

/// Writes, on a line, what an assembler answered: of a packet its text, namespace, acknowledgement id and
/// attachments.
fn tell_answer(answer: &Result<Option<Whole<'_>>, SioFault>, out: &mut Told) {
    match answer {
        Ok(Some(whole)) => {
            out.text(whole.text);
            out.text(" of ");
            out.text(whole.packet.nsp);
            out.debug(&whole.packet.id);
            for blob in &whole.bin {
                out.debug(&blob.as_slice());
            }
        }
        Ok(None) => out.text("waits"),
        Err(fault) => out.debug(fault),
    }
    out.text("\n");
}

/// What a new assembler answers to the messages of a session.
fn answers(alloc: Global, session: &[(&'static str, &'static [u8])]) -> Result<String, Fail> {
    let mut out = Told::new(alloc);
    let mut assembler = Assembler::new(alloc);
    for (text, bytes) in session {
        let packet = match *text {
            "" => decode_binary(bytes),
            text => decode_text(alloc, text)?,
        };
        tell_answer(&assembler.feed(packet), &mut out);
    }
    Ok(out.finish()?)
}

/// The messages of sessions, and what is answered to them: a text, or, where it is empty, bytes.
static SESSIONS: [(&[(&str, &[u8])], &str); 4] = [
    // the document's sample session in namespace `/admin`: a packet whose attachment comes after a ping
    (
        &[
            (r#"40/admin,{"sid":"-G5j-67EZFp-q59rADQM"}"#, &[]),
            (r#"461-/admin,1[{"_placeholder":true,"num":0}]"#, &[]),
            ("2", &[]),
            ("", &[1, 2, 3]),
        ],
        "0/admin,{\"sid\":\"-G5j-67EZFp-q59rADQM\"} of /admin None\nwaits\nwaits\n\
         61-/admin,1[{\"_placeholder\":true,\"num\":0}] of /admin Some(1) [1, 2, 3]\n",
    ),
    // the first attachment comes as base64, the other as bytes
    (
        &[
            (
                r#"452-["baz",{"_placeholder":true,"num":0},{"_placeholder":true,"num":1}]"#,
                &[],
            ),
            ("bAQID", &[]),
            ("", &[4]),
        ],
        "waits\nwaits\n52-[\"baz\",{\"_placeholder\":true,\"num\":0},{\"_placeholder\":true,\"num\":1}] \
         of / None [1, 2, 3] [4]\n",
    ),
    // the packets of the document's polling bodies
    (
        &[
            (r#"42["hello"]"#, &[]),
            (r#"42["world"]"#, &[]),
            (r#"451-["baz",{"_placeholder":true,"num":0}]"#, &[]),
            ("bAQIDBA==", &[]),
        ],
        "2[\"hello\"] of / None\n2[\"world\"] of / None\nwaits\n\
         51-[\"baz\",{\"_placeholder\":true,\"num\":0}] of / None [1, 2, 3, 4]\n",
    ),
    // refusals in their order; after them the assembler is at rest
    (
        &[
            (r#"451-["f","x"]"#, &[]),
            ("2", &[]),
            ("42[]", &[]),
            ("", &[1]),
            ("47", &[]),
            ("450-[]", &[]),
        ],
        "waits\nwaits\n TextWhileBinary\n StrayBinary\n UnknownType\n50-[] of / None\n",
    ),
];

#[test]
fn sessions(rt: HostRuntime) -> Result<(), Fail> {
    answers_are_wholes();
    for (session, expected) in &SESSIONS {
        let answers = answers(rt.alloc(), session)?;
        assert_eq!(rt; answers.as_str(), *expected);
    }
    Ok(())
}
