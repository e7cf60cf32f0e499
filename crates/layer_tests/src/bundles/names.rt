//! The names of taps, by themselves and before a line's first blank, the pids and sids of sessions, the kinds of
//! records, the ranks of offsets, and guesses by names and by the ends of texts.
use aud_base::{Hints, mixed_ending, mixed_name};
use aud_input::{first_bytes, name_of};
use aud_reader::{cut_at_blank, is_client_kind, tap_kind, tap_name, tap_of_kind};
use aud_tap::{NodeRec, TapKind, Text, is_session_id, is_tap_name, rank};
use std::test::Fail;

/// Texts, and whether each is a tap's name, of 1 to 32 bytes, and a session's id, of 1 to 128.
static TEXTS: [(&str, bool, bool); 21] = [
    ("", false, false),
    ("a", true, true),
    ("p", true, true),
    ("a23456789a123456789b123456789c12", true, true),
    ("a23456789a123456789b123456789c123", false, true),
    (
        "pppppppppppppppppppppppppppppppppppppppppppppppppppppppppppppppp\
         pppppppppppppppppppppppppppppppppppppppppppppppppppppppppppppppp",
        false,
        true,
    ),
    (
        "pppppppppppppppppppppppppppppppppppppppppppppppppppppppppppppppp\
         ppppppppppppppppppppppppppppppppppppppppppppppppppppppppppppppppp",
        false,
        false,
    ),
    // letters, digits and three marks in a name, and all visible bytes of ASCII in an id
    ("AZ-az_09.st", true, true),
    ("!CjdVH4TQ_vov-1VvgAC5Z~", false, true),
    ("a b", false, false),
    (" ", false, false),
    ("a/b", false, true),
    ("a:", false, true),
    ("@", false, true),
    ("[", false, true),
    ("`", false, true),
    ("{", false, true),
    ("é", false, false),
    ("a\n", false, false),
    ("a\u{1f}", false, false),
    ("a\u{7f}", false, false),
];

static LINES: [(&str, Option<&str>); 7] = [
    (r#"c1 {"k":"lost"}"#, Some("c1")),
    ("c1 ", Some("c1")),
    ("c1", None),
    (" c1 {}", None),
    ("a/b {}", None),
    (
        "a23456789a123456789b123456789c12 {}",
        Some("a23456789a123456789b123456789c12"),
    ),
    ("a23456789a123456789b123456789c123 {}", None),
];

/// A word, the kind of tap that it names, and that which has records of this kind.
static KINDS: [(&str, Option<TapKind>, Option<TapKind>); 7] = [
    ("stream", Some(TapKind::Stream), None),
    ("node", Some(TapKind::Node), None),
    ("client", Some(TapKind::Client), None),
    ("other", None, Some(TapKind::Stream)),
    ("takes", None, Some(TapKind::Node)),
    ("inb", None, Some(TapKind::Client)),
    ("tap", None, None),
];

#[test]
fn names_and_kinds(rt: HostRuntime) {
    for (text, is_name, is_id) in &TEXTS {
        assert!(rt; is_tap_name(text) == *is_name, "{text}");
        assert!(rt; is_session_id(text) == *is_id, "{text}");
    }
    for (line, wanted) in &LINES {
        assert!(rt; name_of(line.as_bytes()) == *wanted, "{line}");
        let name = match cut_at_blank(line.as_bytes()) {
            Some((front, _)) => tap_name(front),
            None => None,
        };
        assert!(rt; name == *wanted, "{line}");
    }
    assert!(rt; first_bytes(2, b"c1 {}") == b"c1".as_slice());
    assert!(rt; first_bytes(9, b"c1 {}") == b"c1 {}".as_slice());
    for (word, named, has) in &KINDS {
        assert!(rt; tap_kind(word) == *named, "{word}");
        assert!(rt; tap_of_kind(word) == *has, "{word}");
        let is_client = *has == Some(TapKind::Client);
        assert!(rt; is_client_kind(word) == is_client, "{word}");
    }
}

static GUESSED: [&str; 5] = [
    "c",
    "c1",
    "client_1",
    "client_12",
    "a23456789a123456789b123456789c12",
];

/// Offsets that ascend, as a server numbers them.
static ASCENDING: [&str; 6] = ["9", "10", "9-0", "9-1", "10-0", "1700000000000-5"];

#[test]
fn guesses_ranks_and_pids(rt: HostRuntime) -> Result<(), Fail> {
    let mut hints = Hints::new(rt.alloc());
    for (place, name) in GUESSED.iter().enumerate() {
        hints.note(mixed_name(name.as_bytes()), place)?;
    }
    for (place, name) in GUESSED.iter().enumerate() {
        let guess = hints.get(mixed_name(name.as_bytes()));
        assert!(rt; guess == Some(place), "{name}");
    }
    // two more in one half of an ending, and one less in the other
    let one = mixed_ending(r#"2["hi","xxxx","10010-0"]"#, 0, 0);
    let other = mixed_ending(r#"2["hi","xxxx","30000-0"]"#, 0, 0);
    assert!(rt; one >> 32 != other >> 32);
    for pair in ASCENDING.windows(2) {
        assert!(rt; rank(pair[0]) < rank(pair[1]), "{}", pair[0]);
    }
    assert!(rt; rank("1-1") == rank("1-A"));
    let pid = Text::new(rt.alloc(), "P")?;
    let gone = NodeRec::Gone { pid };
    assert!(rt; gone.pid().is_some_and(|pid| pid.as_str() == "P"));
    assert!(rt; NodeRec::Start { off: None }.pid().is_none());
    Ok(())
}
