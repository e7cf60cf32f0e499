//! The packet of a text: the examples of the Socket.IO protocol 5 document, section "Packet encoding", with the
//! frames of its sample session; and the bounds of each part.
ghost use Rattle.aud_sio.specs.Packet.{IsSpelled, packet_view};

use aud_sio::{Packet, Scratch, decode, decode_with, encode, last_text};
use std::alloc::Global;
use std::test::Fail;

/// Whether the packet has this kind, count of attachments, namespace, acknowledgement id, payload and text at its
/// end, and is written so.
fn is_packet(alloc: Global, packet: &Packet<'_>, parts: &str, written: &str) -> Result<bool, Fail>
    requires { IsSpelled (packet_view packet.now) }
{
    let payload = packet.payload.unwrap_or("None");
    let read = format!(in alloc;
        "{:?} {} {} {:?} {payload} {:?}",
        packet.kind,
        packet.attachments,
        packet.nsp,
        packet.id,
        last_text(packet)
    )?;
    let text = encode(alloc, packet)?;
    Ok(read.as_str() == parts && text.as_str() == written)
}

/// Whether a text's packet, read with memory that other texts were read with, has these parts and is written so, or
/// the text is refused for this.
fn is_read(
    alloc: Global,
    scratch: &mut Scratch,
    text: &str,
    parts: &str,
    written: &str,
) -> Result<bool, Fail> {
    match decode_with(alloc, scratch, text) {
        Ok(packet) => is_packet(alloc, &packet, parts, written),
        Err(fault) => Ok(format!(in alloc; "{fault:?}")?.as_str() == parts),
    }
}

/// Texts, and the parts of their packets, or why they are refused.
static PACKETS: [(&str, &str); 36] = [
    // those of the document
    (
        r#"0{"token":"123"}"#,
        r#"Connect 0 / None {"token":"123"} None"#,
    ),
    (
        r#"0{"sid":"CjdVH4TQvovi1VvgAC5Z"}"#,
        r#"Connect 0 / None {"sid":"CjdVH4TQvovi1VvgAC5Z"} None"#,
    ),
    (
        r#"0/admin,{"sid":"oSO0OpakMV_3jnilAAAA"}"#,
        r#"Connect 0 /admin None {"sid":"oSO0OpakMV_3jnilAAAA"} None"#,
    ),
    ("0/admin,", "Connect 0 /admin None None None"),
    (
        r#"4/admin,{"message":"Not authorized"}"#,
        r#"ConnectError 0 /admin None {"message":"Not authorized"} None"#,
    ),
    ("1/admin,", "Disconnect 0 /admin None None None"),
    (r#"2["foo"]"#, r#"Event 0 / None ["foo"] Some("foo")"#),
    (
        r#"2["hey","Jude"]"#,
        r#"Event 0 / None ["hey","Jude"] Some("Jude")"#,
    ),
    (r#"2["hello",1]"#, r#"Event 0 / None ["hello",1] None"#),
    (
        r#"2/admin,["bar"]"#,
        r#"Event 0 /admin None ["bar"] Some("bar")"#,
    ),
    (r#"212["foo"]"#, r#"Event 0 / Some(12) ["foo"] Some("foo")"#),
    (
        r#"2/admin,1["tellme"]"#,
        r#"Event 0 /admin Some(1) ["tellme"] Some("tellme")"#,
    ),
    (
        r#"2/admin,456["project:delete",123]"#,
        r#"Event 0 /admin Some(456) ["project:delete",123] None"#,
    ),
    (
        r#"3/admin,13["bar"]"#,
        r#"Ack 0 /admin Some(13) ["bar"] Some("bar")"#,
    ),
    ("3/admin,456[]", "Ack 0 /admin Some(456) [] None"),
    (
        r#"51-["baz",{"_placeholder":true,"num":0}]"#,
        r#"BinaryEvent 1 / None ["baz",{"_placeholder":true,"num":0}] None"#,
    ),
    (
        r#"52-/admin,["baz",{"_placeholder":true,"num":0},{"_placeholder":true,"num":1}]"#,
        r#"BinaryEvent 2 /admin None ["baz",{"_placeholder":true,"num":0},{"_placeholder":true,"num":1}] None"#,
    ),
    (
        r#"61-15["bar",{"_placeholder":true,"num":0}]"#,
        r#"BinaryAck 1 / Some(15) ["bar",{"_placeholder":true,"num":0}] None"#,
    ),
    (
        r#"61-/admin,1[{"_placeholder":true,"num":0}]"#,
        r#"BinaryAck 1 /admin Some(1) [{"_placeholder":true,"num":0}] None"#,
    ),
    // the bounds of each part
    ("0", "Connect 0 / None None None"),
    (r#"2/n,7["a"]"#, r#"Event 0 /n Some(7) ["a"] Some("a")"#),
    (
        "2123456789012345678[]",
        "Event 0 / Some(123456789012345678) [] None",
    ),
    ("564-[]", "BinaryEvent 64 / None [] None"),
    // a text at the end with an escape in it; none where something else stands there
    (
        r#"2["hi","1\u002d0"]"#,
        r#"Event 0 / None ["hi","1\u002d0"] Some("1-0")"#,
    ),
    (r#"2["1-0",1]"#, r#"Event 0 / None ["1-0",1] None"#),
    (
        r#"2["1-0",["1-0"]]"#,
        r#"Event 0 / None ["1-0",["1-0"]] None"#,
    ),
    (r#"0["s1"]"#, r#"Connect 0 / None ["s1"] Some("s1")"#),
    // refusals in their order
    ("", "Empty"),
    ("7", "UnknownType"),
    ("5[]", "Attachments"),
    ("52[]", "Attachments"),
    ("565-[]", "Attachments"),
    ("21234567890123456789[]", "AckId"),
    ("2", "Payload"),
    ("2{}", "Payload"),
    ("2/n[]", "Payload"),
];

/// Texts of which the packet is written without what need not be written.
static SHORTENED: [(&str, &str, &str); 4] = [
    ("1/admin", "Disconnect 0 /admin None None None", "1/admin,"),
    ("2/,[]", "Event 0 / None [] None", "2[]"),
    (
        r#"2007["b"]"#,
        r#"Event 0 / Some(7) ["b"] Some("b")"#,
        r#"27["b"]"#,
    ),
    (
        "601-/admin,456[]",
        "BinaryAck 1 /admin Some(456) [] None",
        "61-/admin,456[]",
    ),
];

#[test]
fn packets(rt: HostRuntime) -> Result<(), Fail> {
    let mut scratch = Scratch::new(rt.alloc());
    for (text, parts) in &PACKETS {
        let is = is_read(rt.alloc(), &mut scratch, text, parts, text)?;
        assert!(rt; is, "{text}");
    }
    for (text, parts, written) in &SHORTENED {
        let is = is_read(rt.alloc(), &mut scratch, text, parts, written)?;
        assert!(rt; is, "{text}");
    }
    let packet = decode(rt.alloc(), r#"2["hey","Jude"]"#)?;
    assert_eq!(rt; last_text(&packet), Some("Jude"));
    Ok(())
}
