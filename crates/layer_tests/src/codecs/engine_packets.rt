//! The packet of a text, and the packets of a body: the examples of Engine.IO protocol 4, sections "Handshake",
//! "Upgrade" and "HTTP long-polling", of the Socket.IO protocol 5 document and of RFC 4648; and refusals.
use aud_eio::{Control, Eio, decode_payload, decode_text, encode_payload, encode_text};
use std::alloc::Global;
use std::test::Fail;

/// Whether a text is read as this packet, in the words of `Debug`, and written again as it is, or refused for this.
fn is_packet(alloc: Global, text: &str, words: &str) -> Result<bool, Fail> {
    match decode_text(alloc, text) {
        Ok(packet) => {
            let read = format!(in alloc; "{packet:?}")?;
            let written = encode_text(alloc, &packet)?;
            Ok(read.as_str() == words && written.as_str() == text)
        }
        Err(fault) => Ok(format!(in alloc; "{fault:?}")?.as_str() == words),
    }
}

/// Whether a body is read as these packets, or refused for this.
fn is_body(alloc: Global, body: &str, words: &str) -> Result<bool, Fail> {
    let read = match decode_payload(alloc, body) {
        Ok(packets) => format!(in alloc; "{packets:?}"),
        Err(fault) => format!(in alloc; "{fault:?}"),
    };
    Ok(read?.as_str() == words)
}

/// Texts, and their packets or refusals.
static TEXTS: [(&str, &str); 32] = [
    // the packet types of the document, with the `open` packet of section "Handshake" and the probe of section
    // "Upgrade"
    (
        r#"0{"sid":"lv_VI97HAXpY6yYWAAAC","upgrades":["websocket"],"pingInterval":25000,"pingTimeout":20000,"maxPayload":1000000}"#,
        r#"Control(Opening, "{\"sid\":\"lv_VI97HAXpY6yYWAAAC\",\"upgrades\":[\"websocket\"],\"pingInterval\":25000,\"pingTimeout\":20000,\"maxPayload\":1000000}")"#,
    ),
    ("1", r#"Control(Closing, "")"#),
    ("2", r#"Control(Ping, "")"#),
    ("2probe", r#"Control(Ping, "probe")"#),
    ("3", r#"Control(Pong, "")"#),
    ("3probe", r#"Control(Pong, "probe")"#),
    ("4", r#"Message("")"#),
    ("4hello", r#"Message("hello")"#),
    ("4\u{20ac}", "Message(\"\u{20ac}\")"),
    ("5", r#"Control(Upgrade, "")"#),
    ("6", r#"Control(Noop, "")"#),
    ("bAQIDBA==", "Own([1, 2, 3, 4])"),
    ("bAQI=", "Own([1, 2])"),
    // RFC 4648, section 10: the beginnings of "foobar"; and "???>>>", which takes the two signs of section 4's
    // alphabet
    ("b", "Own([])"),
    ("bZg==", "Own([102])"),
    ("bZm8=", "Own([102, 111])"),
    ("bZm9v", "Own([102, 111, 111])"),
    ("bZm9vYg==", "Own([102, 111, 111, 98])"),
    ("bZm9vYmE=", "Own([102, 111, 111, 98, 97])"),
    ("bZm9vYmFy", "Own([102, 111, 111, 98, 97, 114])"),
    ("bPz8/Pj4+", "Own([63, 63, 63, 62, 62, 62])"),
    // refusals
    ("", "Empty"),
    ("7x", "UnknownType"),
    ("B", "UnknownType"),
    ("hello", "UnknownType"),
    ("\u{e9}", "UnknownType"),
    ("bAQ=", "BadBase64"),
    ("bAQI", "BadBase64"),
    ("bAQJ=", "BadBase64"),
    ("bAQID\n", "BadBase64"),
    ("b-_8=", "BadBase64"),
    ("b=", "BadBase64"),
];

/// Bodies of the documents, and refusals.
static BODIES: [(&str, &str); 8] = [
    (
        "4hello\u{1e}2\u{1e}4world",
        r#"[Message("hello"), Control(Ping, ""), Message("world")]"#,
    ),
    (
        "4hello\u{1e}bAQIDBA==",
        r#"[Message("hello"), Own([1, 2, 3, 4])]"#,
    ),
    (
        "4hello\u{1e}2\u{1e}bAQIDBA==\u{1e}4world",
        r#"[Message("hello"), Control(Ping, ""), Own([1, 2, 3, 4]), Message("world")]"#,
    ),
    (
        "42[\"hello\"]\u{1e}42[\"world\"]",
        r#"[Message("2[\"hello\"]"), Message("2[\"world\"]")]"#,
    ),
    (
        "451-[\"baz\",{\"_placeholder\":true,\"num\":0}]\u{1e}bAQIDBA==",
        r#"[Message("51-[\"baz\",{\"_placeholder\":true,\"num\":0}]"), Own([1, 2, 3, 4])]"#,
    ),
    ("", "Empty"),
    ("4a\u{1e}", "Empty"),
    ("4a\u{1e}7\u{1e}bAQ=", "UnknownType"),
];

#[test]
fn packets(rt: HostRuntime) -> Result<(), Fail> {
    for (text, words) in &TEXTS {
        assert!(rt; is_packet(rt.alloc(), text, words)?, "{text}");
    }
    for (body, words) in &BODIES {
        assert!(rt; is_body(rt.alloc(), body, words)?, "{body}");
    }
    let packets = [
        Eio::Message("hello"),
        Eio::Control(Control::Ping, ""),
        Eio::Lent(&[1, 2, 3, 4]),
        Eio::Message("world"),
    ];
    let body = encode_payload(rt.alloc(), &packets)?;
    assert_eq!(rt; body.as_str(), "4hello\u{1e}2\u{1e}bAQIDBA==\u{1e}4world");
    Ok(())
}
