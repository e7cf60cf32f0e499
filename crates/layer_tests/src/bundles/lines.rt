//! The lines of an input that comes byte by byte, the taps of these lines, and the bytes that are written for taps.
use aud_reader::{InputCode, Lines, ReadFault, Splitter, next_line, read_bundle};
use aud_tap::{ClientRec, ClientRecs, Records, Tap, Taps, Text, Version};
use aud_writer::write_bundle;
use std::alloc::{AllocError, Global};
use std::hash::RandomState;
use std::test::Fail;

/// The lines of an input of which each byte is a piece, where every line is taken at once.
fn lines_of_bytes(alloc: Global, input: &[u8]) -> Result<Lines, ReadFault> {
    let mut splitter = Splitter::new(alloc);
    let mut lines = Lines::new(alloc);
    for byte in input {
        splitter.feed(&[*byte])?;
        lines.append(&splitter.take())?;
    }
    lines.append(&splitter.finish()?)?;
    Ok(lines)
}

/// Whether the lines have these texts, and are numbered from 1.
fn are(lines: &Lines, texts: &[&str]) -> Result<bool, AllocError> {
    let lines = lines.lent()?;
    for (i, (line, text)) in lines.iter().zip(texts.iter()).enumerate() {
        if line.number != i as u64 + 1 || line.bytes != text.as_bytes() {
            return Ok(false);
        }
    }
    Ok(lines.len() == texts.len())
}

/// Inputs, and their lines.
static INPUTS: [(&str, &[&str]); 4] = [
    ("a\n\r\nbc\r\n\r\r\n\nd", &["a", "", "bc", "\r", "", "d"]),
    // no line begins after the last newline
    ("", &[]),
    ("a\n", &["a"]),
    ("a\n\r", &["a", ""]),
];

#[test]
fn lines_end_at_newlines(rt: HostRuntime) -> Result<(), Fail> {
    for (input, wanted) in &INPUTS {
        let lines = lines_of_bytes(rt.alloc(), input.as_bytes())?;
        assert!(rt; are(&lines, wanted)?, "{input:?}");
    }
    // the lines that were handed out before are let go
    let mut splitter = Splitter::new(rt.alloc());
    let mut lines = Lines::new(rt.alloc());
    splitter.feed(b"a\nbc\nd")?;
    splitter.take_into(&mut lines);
    assert!(rt; are(&lines, &["a", "bc"])?);
    splitter.take_into(&mut lines);
    assert!(rt; are(&lines, &[])?);
    assert!(rt; next_line(b"a\r\nb\n") == Some((b"a\r".as_slice(), b"b\n".as_slice())));
    assert!(rt; next_line(b"ab").is_none());
    Ok(())
}

/// The bytes of the taps that the input is read as.
fn rewritten(alloc: Global, keys: RandomState, input: &[u8]) -> Result<Vec<u8>, ReadFault> {
    let lines = lines_of_bytes(alloc, input)?;
    let taps = read_bundle(alloc, keys, &lines)?;
    write_bundle(alloc, &taps)
}

/// Lines, and those that are written for their taps.
static BUNDLES: [(&str, &str); 3] = [
    // no taps have no bytes
    ("", ""),
    // as an editor on Windows saves it
    (
        "st {\"k\":\"tap\",\"v\":1,\"of\":\"stream\"}\r\n\
         st {\"k\":\"ev\",\"off\":\"1-0\",\"nsp\":\"/\",\"rooms\":[\"r\"],\"text\":\"2[\\\"hi\\\",\\\"1-0\\\"]\"}\r\n",
        r#"st {"k":"tap","of":"stream","v":1}
st {"k":"ev","nsp":"/","off":"1-0","rooms":["r"],"text":"2[\"hi\",\"1-0\"]"}
"#,
    ),
    // taps of either version, in the order of their first lines
    (
        r#"a {"k":"tap","v":2,"of":"node"}
st {"k":"tap","v":1,"of":"stream"}
st {"k":"other","off":"1-0"}
a {"k":"start","off":null}
c1 {"k":"tap","v":2,"of":"client"}
st {"k":"other","off":"2-0"}
a {"k":"takes","off":"2-0"}
"#,
        r#"a {"k":"tap","of":"node","v":2}
a {"k":"start","off":null}
a {"k":"takes","off":"2-0"}
st {"k":"tap","of":"stream","v":1}
st {"k":"other","off":"1-0"}
st {"k":"other","off":"2-0"}
c1 {"k":"tap","of":"client","v":2}
"#,
    ),
];

/// Why a client's tap of a connection and of a text of so many bytes isn't written.
fn refusal_of(alloc: Global, length: usize) -> Result<Option<ReadFault>, AllocError> {
    let mut text = String::new(alloc);
    for _ in 0..length {
        text.push('x')?;
    }
    let t = Text::new(alloc, text.as_str())?;
    let mut records = Vec::new(alloc);
    records.push(ClientRec::Conn { c: 1 })?;
    records.push(ClientRec::TextIn { t })?;
    let mut taps = Vec::new(alloc);
    taps.push(Tap {
        name: Text::new(alloc, "c1")?,
        version: Version::Two,
        records: Records::Client(ClientRecs::new(records)),
    })?;
    Ok(write_bundle(alloc, &Taps::new(taps)).err())
}

#[test]
fn bundles_are_written(rt: HostRuntime) -> Result<(), Fail> {
    let keys = RandomState::new(&rt)?;
    for (given, wanted) in &BUNDLES {
        for input in [given, wanted] {
            let written = rewritten(rt.alloc(), keys, input.as_bytes())?;
            assert!(rt; written.as_slice() == wanted.as_bytes(), "{given}");
        }
    }
    // the text stands in a line of twenty bytes more
    assert_eq!(rt; refusal_of(rt.alloc(), 4_194_284)?, None);
    let too_long = Some(ReadFault::Input(3, InputCode::LineTooLong));
    assert_eq!(rt; refusal_of(rt.alloc(), 4_194_285)?, too_long);
    Ok(())
}
