//! Texts as they are printed.
use aud_explanation::{named, names_apart, printed, printed_apart, push_json_printed};
use std::test::Fail;

/// Texts, and how they are printed.
static TEXTS: [(&str, &str); 40] = [
    ("", ""),
    ("c1", "c1"),
    ("a b", "a b"),
    ("\u{e9}\u{1d11e}", "\u{e9}\u{1d11e}"),
    ("\\", "\\\\"),
    ("\\x1b", "\\\\x1b"),
    ("\\u{202e}", "\\\\u{202e}"),
    ("\u{1b}[2J", "\\x1b[2J"),
    ("a\nb", "a\\x0ab"),
    ("\u{0}", "\\x00"),
    ("\u{7f}", "\\x7f"),
    ("\u{85}", "\\x85"),
    ("\u{ad}", "\\u{00ad}"),
    ("\u{61c}", "\\u{061c}"),
    ("\u{200b}", "\\u{200b}"),
    ("P\u{200d}", "P\\u{200d}"),
    ("\u{2028}", "\\u{2028}"),
    ("\u{202e}txt", "\\u{202e}txt"),
    ("\u{2060}", "\\u{2060}"),
    ("\u{2066}\u{2069}", "\\u{2066}\\u{2069}"),
    ("\u{feff}", "\\u{feff}"),
    ("r\u{34f}", "r\\u{034f}"),
    ("\u{115f}\u{1160}", "\\u{115f}\\u{1160}"),
    ("\u{17b5}", "\\u{17b5}"),
    ("\u{180b}\u{180f}", "\\u{180b}\\u{180f}"),
    ("\u{3164}", "\\u{3164}"),
    ("\u{fe0f}", "\\u{fe0f}"),
    ("\u{ffa0}", "\\u{ffa0}"),
    ("\u{fff0}\u{fffb}", "\\u{fff0}\\u{fffb}"),
    ("\u{1bca0}", "\\u{01bca0}"),
    ("\u{1d17a}", "\\u{01d17a}"),
    ("\u{e0061}", "\\u{0e0061}"),
    ("\u{e01ef}", "\\u{0e01ef}"),
    ("\u{e0fff}", "\\u{0e0fff}"),
    // beside those that are escaped
    ("\u{2010}", "\u{2010}"),
    ("\u{202f}", "\u{202f}"),
    ("\u{2070}", "\u{2070}"),
    ("\u{350}\u{1161}\u{3165}", "\u{350}\u{1161}\u{3165}"),
    ("\u{fe10}\u{ff9f}\u{fffc}", "\u{fe10}\u{ff9f}\u{fffc}"),
    ("\u{1bca4}\u{e1000}", "\u{1bca4}\u{e1000}"),
];

/// Names, and how they stand in a line.
static NAMES: [(&str, &str); 12] = [
    ("r", "r"),
    ("\u{e9}'s-room:1", "\u{e9}'s-room:1"),
    ("", "\"\""),
    ("r of P", "\"r of P\""),
    ("a\u{a0}b", "\"a\u{a0}b\""),
    ("a,b", "\"a,b\""),
    ("a\"b", "\"a\"\"b\""),
    ("\"", "\"\"\"\""),
    ("\\", "\"\\\""),
    ("\u{3164}", "\"\u{3164}\""),
    ("\n", "\"\n\""),
    ("..", ".."),
];

/// Strings of JSON, and how they are printed.
static STRINGS: [(&str, &str); 6] = [
    ("\"a\u{e9}\\n\"", "\"a\u{e9}\\n\""),
    ("\"\u{7f}\"", "\"\\u007f\""),
    ("\"\u{202e}x\"", "\"\\u202ex\""),
    ("\"\u{34f}\"", "\"\\u034f\""),
    ("\"\u{1bca0}\"", "\"\\ud82f\\udca0\""),
    ("\"\u{e0061}\"", "\"\\udb40\\udc61\""),
];

#[test]
fn texts_are_printed(rt: HostRuntime) -> Result<(), Fail> {
    for &(text, wanted) in &TEXTS {
        let found = printed(rt.alloc(), text)?;
        assert_eq!(rt; found.as_str(), wanted);
    }
    printed_apart();
    Ok(())
}

#[test]
fn names_stand_in_a_line(rt: HostRuntime) -> Result<(), Fail> {
    for &(name, wanted) in &NAMES {
        let found = named(rt.alloc(), name)?;
        assert_eq!(rt; found.as_str(), wanted);
    }
    names_apart();
    Ok(())
}

#[test]
fn json_is_printed(rt: HostRuntime) -> Result<(), Fail> {
    for &(text, wanted) in &STRINGS {
        let mut found = String::new(rt.alloc());
        push_json_printed(&mut found, text)?;
        assert_eq!(rt; found.as_str(), wanted);
    }
    Ok(())
}
