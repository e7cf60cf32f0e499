//! Lines, and what is written for their records: by another program, Python's
//! `json.dumps(record, sort_keys=True, separators=(",", ":"), ensure_ascii=False)` of the fields that a record has;
//! or the names of docs/FORMAT.md where they are refused.
use aud_reader::{Line, ReadFault, parse_line};
use aud_tap::Bytes;
use aud_writer::write_line;
use std::alloc::{AllocError, Global};
use std::hash::RandomState;
use std::test::Fail;

/// Whether the record of a line is written so, or the line refused under this name.
fn is_told(alloc: Global, keys: RandomState, text: &str, told: &str) -> Result<bool, AllocError> {
    let line = Line {
        number: 7,
        bytes: Bytes::new(text.as_bytes().to_vec(alloc)?),
    };
    match parse_line(alloc, keys, &line) {
        Ok((name, rec)) => match write_line(alloc, name.as_str(), &rec) {
            Ok(written) => Ok(written.as_slice() == told.as_bytes()),
            Err(_) => Ok(false),
        },
        Err(ReadFault::Input(number, code)) => Ok(number == 7 && code.name() == told),
        Err(ReadFault::Memory) => Ok(false),
    }
}

static LINES: [(&str, &str); 51] = [
    (
        r#"st {"k":"tap","v":1,"of":"stream"}"#,
        r#"st {"k":"tap","of":"stream","v":1}"#,
    ),
    (
        r#"st {"k":"ev","off":"1-0","nsp":"/","rooms":["r"],"text":"2[\"hi\",\"1-0\"]"}"#,
        r#"st {"k":"ev","nsp":"/","off":"1-0","rooms":["r"],"text":"2[\"hi\",\"1-0\"]"}"#,
    ),
    (
        r#"a {"k":"tap","v":1,"of":"node"}"#,
        r#"a {"k":"tap","of":"node","v":1}"#,
    ),
    (
        r#"a {"k":"start","off":null}"#,
        r#"a {"k":"start","off":null}"#,
    ),
    (
        r#"a {"k":"start","off":"1-0"}"#,
        r#"a {"k":"start","off":"1-0"}"#,
    ),
    (
        r#"a {"k":"open","pid":"P","sid":"s1","nsp":"/"}"#,
        r#"a {"k":"open","nsp":"/","pid":"P","sid":"s1"}"#,
    ),
    (
        r#"a {"k":"join","pid":"P","room":"r"}"#,
        r#"a {"k":"join","pid":"P","room":"r"}"#,
    ),
    (
        r#"a {"k":"leave","pid":"P","room":"r"}"#,
        r#"a {"k":"leave","pid":"P","room":"r"}"#,
    ),
    (
        r#"a {"k":"take","off":"1-0"}"#,
        r#"a {"k":"take","off":"1-0"}"#,
    ),
    (
        r#"a {"v":2,"of":"node","k":"tap"}"#,
        r#"a {"k":"tap","of":"node","v":2}"#,
    ),
    (
        r#"a {"off":"2-0","k":"takes"}"#,
        r#"a {"k":"takes","off":"2-0"}"#,
    ),
    (
        r#"a {"k":"break","pid":"P","turn":0}"#,
        r#"a {"k":"break","pid":"P","turn":0}"#,
    ),
    (
        r#"b {"k":"back","pid":"P","turn":1}"#,
        r#"b {"k":"back","pid":"P","turn":1}"#,
    ),
    (r#"a {"k":"gone","pid":"P"}"#, r#"a {"k":"gone","pid":"P"}"#),
    (
        r#"c1 {"k":"tap","v":1,"of":"client"}"#,
        r#"c1 {"k":"tap","of":"client","v":1}"#,
    ),
    (r#"c1 {"k":"conn","c":1}"#, r#"c1 {"c":1,"k":"conn"}"#),
    (
        r#"c1 {"k":"in","t":"40{\"sid\":\"s1\",\"pid\":\"P\"}"}"#,
        r#"c1 {"k":"in","t":"40{\"sid\":\"s1\",\"pid\":\"P\"}"}"#,
    ),
    (
        r#"c1 {"k":"out","t":"40{\"pid\":\"P\",\"offset\":\"1-0\"}"}"#,
        r#"c1 {"k":"out","t":"40{\"pid\":\"P\",\"offset\":\"1-0\"}"}"#,
    ),
    (
        r#"c1 {"k":"inb","b":"AQI="}"#,
        r#"c1 {"b":"AQI=","k":"inb"}"#,
    ),
    (
        r#"c1 {"k":"poll","t":"42[\"hi\",\"1-0\"]"}"#,
        r#"c1 {"k":"poll","t":"42[\"hi\",\"1-0\"]"}"#,
    ),
    (r#"c1 {"k":"lost"}"#, r#"c1 {"k":"lost"}"#),
    (
        r#"st {"k":"other","off":"2-0"}"#,
        r#"st {"k":"other","off":"2-0"}"#,
    ),
    (
        r#"st {"k":"ev","off":"4-0","nsp":"/n","rooms":[],"except":["s1"],"bin":["AQI=","Aw=="],"text":"52-/n,[\"f\"]"}"#,
        r#"st {"bin":["AQI=","Aw=="],"except":["s1"],"k":"ev","nsp":"/n","off":"4-0","text":"52-/n,[\"f\"]"}"#,
    ),
    (
        r#"A-Za.z0_9   {"c" : 18446744073709551615, "k":"conn", "seen":{"k":"lost"}}  "#,
        r#"A-Za.z0_9 {"c":18446744073709551615,"k":"conn"}"#,
    ),
    (
        r#"c1 {"t":"first","k":"in","t":"second"}"#,
        r#"c1 {"k":"in","t":"second"}"#,
    ),
    (
        r#"c1 {"k":"in","t":"\u0001\u001f\n\"\\\b\f\r\t\/\u00e9\ud83d\ude00"}"#,
        r#"c1 {"k":"in","t":"\u0001\u001f\n\"\\\b\f\r\t/é😀"}"#,
    ),
    // texts with each short escape (RFC 8259, section 7), far from it and beside another, and with characters of
    // several bytes
    (
        r#"t {"k":"in","t":"4\"\\\/\b\f\n\r\t"}"#,
        r#"t {"k":"in","t":"4\"\\/\b\f\n\r\t"}"#,
    ),
    (
        r#"t {"k":"in","t":"4sixteen bytes and\nmore before the next\\"}"#,
        r#"t {"k":"in","t":"4sixteen bytes and\nmore before the next\\"}"#,
    ),
    (
        r#"t {"k":"in","t":"4été\n€😀\t"}"#,
        r#"t {"k":"in","t":"4été\n€😀\t"}"#,
    ),
    // the other form of an escape, also in a key
    (
        r#"t {"\u006b":"in","t":"4\u0022\u20ac\ud83d\ude00"}"#,
        r#"t {"k":"in","t":"4\"€😀"}"#,
    ),
    // white space
    (
        "t {\"k\" : \"in\",\t\"t\":\"4\\\"\" }",
        r#"t {"k":"in","t":"4\""}"#,
    ),
    // numbers of 1, 15 and 16 digits, and one that has a point
    (r#"t {"k":"conn","c":0}"#, r#"t {"c":0,"k":"conn"}"#),
    (
        r#"t {"k":"conn","c":999999999999999}"#,
        r#"t {"c":999999999999999,"k":"conn"}"#,
    ),
    (
        r#"t {"k":"conn","c":1000000000000000}"#,
        r#"t {"c":1000000000000000,"k":"conn"}"#,
    ),
    (r#"t {"k":"lost","c":1.5}"#, r#"t {"k":"lost"}"#),
    // unknown keys are passed over
    (
        r#"t {"K":"lost","OFF":"2-0","k":"take","off":"1-0"}"#,
        r#"t {"k":"take","off":"1-0"}"#,
    ),
    (
        r#"t {"":{"k":"lost","off":[{}]},"k":"take","pid":null,"off":"1-0","v":1.5e300}"#,
        r#"t {"k":"take","off":"1-0"}"#,
    ),
    // of a key that stands twice the last value counts, also where it is of another kind
    (
        r#"t {"k":"conn","c":"1","c":1,"k":"lost"}"#,
        r#"t {"k":"lost"}"#,
    ),
    (r#"t {"k":"conn","c":"1","c":1}"#, r#"t {"c":1,"k":"conn"}"#),
    // refused for the form of the line
    ("", "NoTapName"),
    (r#" {"k":"lost"}"#, "NoTapName"),
    (r#"a {"k":"lost""#, "NotJson"),
    (r#"a {"k":"lost",}"#, "NotJson"),
    (r#"a {"k":"in","t":"\ud800"}"#, "NotJson"),
    // or for a field
    (r#"a ["k"]"#, "Field"),
    (r#"a {"k":"tap","of":"node","v":1.0}"#, "Field"),
    (r#"a {"k":"tap","of":"bundle","v":3}"#, "Version"),
    (r#"a {"k":"tap","of":"bundle","v":2}"#, "UnknownKind"),
    (r#"a {"k":"event"}"#, "UnknownKind"),
    (r#"a {"k":"take","off":"1 0"}"#, "Field"),
    (r#"a {"k":"take","off":""}"#, "Limit"),
];

#[test]
fn lines_have_records_or_are_refused(rt: HostRuntime) -> Result<(), Fail> {
    let keys = RandomState::new(&rt)?;
    for (text, told) in &LINES {
        assert!(rt; is_told(rt.alloc(), keys, text, told)?, "{text}");
    }
    Ok(())
}
