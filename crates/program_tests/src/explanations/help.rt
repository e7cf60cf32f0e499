//! Help on refused lines.
use crate::case::cut;
use aud_reader::InputCode;
use aud_refusals::refusal_help;
use std::alloc::Global;
use std::process::Abort;
use std::test::Fail;

/// Why a line is refused, with the line of the header that stands already; the line; and what is said of it.
static LINES: [&str; 39] = [
    r#"NoTapName
no_blank
A line begins with the name of its tap, 1 to 32 bytes of A-Za-z0-9_.-, and a blank.
In this line stands no blank.
"#,
    r#"NoTapName
 {}
A line begins with the name of its tap, 1 to 32 bytes of A-Za-z0-9_.-, and a blank.
This line begins with a blank.
"#,
    r#"NoTapName
a/b {}
A line begins with the name of its tap, 1 to 32 bytes of A-Za-z0-9_.-, and a blank.
Byte 2 of this line stands in no name.
"#,
    r#"NoTapName
a23456789012345678901234567890123 {}
A line begins with the name of its tap, 1 to 32 bytes of A-Za-z0-9_.-, and a blank.
Before the first blank of this line stand 33 bytes.
"#,
    r#"LineTooLong

A line may have at most 4194304 bytes.
"#,
    r#"NotJson
a 
Nothing follows the first blank of this line.
"#,
    r#"NotJson
a 5,
What follows the first blank does not begin with {.
"#,
    r#"NotJson
a {"k":"open","pid":"P
This line does not end with }: its end may be missing.
"#,
    r#"NotJson
a {"k":"open" "pid":"P"} 
What follows the first blank is no JSON at byte 13 of it, or at a comma or colon in front of that.
"#,
    r#"Field
a []
The field k is missing: it has to be a text.
"#,
    r#"Field
a {"k":1}
The field k is of another type or form: it has to be a text.
"#,
    r#"Field
a {"k":"tap","v":1.0,"of":"node"}
The field v is of another type or form: it has to be a whole number below 2^64, without sign, point or exponent.
"#,
    r#"Field
a {"k":"open","pid":"P","sid":"s 1"}
The field sid is of another type or form: it has to be a text of bytes 0x21 to 0x7e.
"#,
    r#"Field
a {"k":"start"}
The field off is missing: it has to be null, or a text of bytes 0x21 to 0x7e.
"#,
    r#"Field
st {"k":"ev","off":"1-0","nsp":"a","text":1}
The field nsp is of another type or form: it has to be a text that begins with / and holds no comma.
"#,
    r#"Field
st {"k":"ev","off":"1-0","nsp":"/","text":"2[]","rooms":["r",1]}
The field rooms is of another type or form: it has to be a list of texts, if it is there.
"#,
    r#"Field
st {"k":"ev","off":"1-0","nsp":"/","text":"2[]","bin":["AA"]}
The field bin is of another type or form: it has to be a list of texts in padded base64, if it is there.
"#,
    r#"Field
c1 {"k":"conn","c":1}
The field c has to be greater than that of the conn before it in this tap.
"#,
    r#"Field
c1 {"k":"lost"}
This record has to stand while a connection is open: after a conn of this tap, and before its lost.
"#,
    r#"Limit
a {"k":"take","off":""}
The field off has 0 bytes; it may have 1 to 64.
"#,
    r#"Limit
a {"k":"join","pid":"P","room":""}
The field room has 0 bytes; it may have 1 to 256.
"#,
    r#"Limit
st {"k":"ev","off":"1-0","nsp":"/","text":"2[]","rooms":["r",""]}
Item 2 of the field rooms has 0 bytes; it may have 1 to 256.
"#,
    r#"Limit
a {"k":"back","pid":"P","turn":65536}
The field turn is 65536; it may be at most 65535.
"#,
    r#"Limit
a {"k":"tap","v":1,"of":"node"}
A bundle may have at most 64 taps of nodes.
"#,
    r#"Limit
a {"k":"open","pid":"P","sid":"s1","nsp":"/"}
A tap may have at most 4000000 records.
The taps of nodes may have at most 65536 different pids.
"#,
    r#"Limit
st {"k":"other","off":"1-0"}
A stream may have at most 1000000 entries.
"#,
    r#"Limit
c1 {"k":"lost"}
A tap may have at most 4000000 records.
"#,
    r#"NoHeader
a {"k":"take","off":"1-0"}
The first line of a tap is its header: k is tap, v is 1 or 2, and of is stream, node or client.
"#,
    r#"UnknownKind
a {"k":"tap","v":1,"of":"nodes"}
The field of has to be stream, node or client.
"#,
    r#"UnknownKind 3
a {"k":"tape"}
No tap has records of this kind.
The header of this tap stands on line 3.
"#,
    r#"UnknownKind 3
a {"k":"ev"}
Records of this kind stand in the tap of the stream.
The header of this tap stands on line 3.
"#,
    r#"UnknownKind
a {"k":"takes","off":"1-0"}
Records of this kind stand in the taps of nodes that are written in version 2.
"#,
    r#"UnknownKind
c1 {"k":"take","off":"1-0"}
Records of this kind stand in the taps of nodes.
"#,
    r#"UnknownKind
st {"k":"poll"}
Records of this kind stand in the taps of clients.
"#,
    r#"Version
a {"k":"tap","v":3,"of":"node"}
The field v is 3; the versions 1 and 2 are read.
"#,
    r#"HeaderTwice 7
a {"k":"tap","v":1,"of":"node"}
The header of this tap stands on line 7.
"#,
    r#"SecondStream 1
s2 {"k":"tap","v":1,"of":"stream"}
A bundle may have one stream: its header stands on line 1.
"#,
    r#"OffsetTwice
st {"k":"other","off":"1-0"}
An earlier entry of the stream has the offset 1-0.
"#,
    r#"NotJson
a {"k":[[[[[[[[[[[[[[[[[[[[[[[[[[[[[[[[[[[[[[[[[[[[[[[[[[[[[[[[[[[[[[[[[[[[[[[[[[[[[[[[[[[[[[[[[[[[[[[[[[[[[[[[[[[[[[[[[[[[[[[[[[[[[[[]]]]]]]]]]]]]]]]]]]]]]]]]]]]]]]]]]]]]]]]]]]]]]]]]]]]]]]]]]]]]]]]]]]]]]]]]]]]]]]]]]]]]]]]]]]]]]]]]]]]]]]]]]]]]]]]]]]]]]]]]]]]]]]}
What follows the first blank nests 128 deep; at most 127 is read.
"#,
];

/// Bytes that no tap wrote, why they are refused as a line, and what is said of them.
static BYTES: [(&[u8], InputCode, &str); 6] = [
    (
        b"\x1f\x8b\x08\x00",
        InputCode::NoTapName,
        "A line begins with the name of its tap, 1 to 32 bytes of A-Za-z0-9_.-, and a blank.
This is compressed by gzip: gzip -dc gives the lines.
",
    ),
    (
        b"\xef\xbb\xbfst {\"k\":\"tap\",\"v\":1,\"of\":\"stream\"}",
        InputCode::NoTapName,
        "A line begins with the name of its tap, 1 to 32 bytes of A-Za-z0-9_.-, and a blank.
This line begins with a byte order mark, which no bundle has: remove it.
",
    ),
    (
        b"\xff\xfes\x00t\x00",
        InputCode::NoTapName,
        "A line begins with the name of its tap, 1 to 32 bytes of A-Za-z0-9_.-, and a blank.
This is UTF-16: a bundle is UTF-8.
",
    ),
    (
        b"\xfe\xff\x00s\x00t",
        InputCode::NoTapName,
        "A line begins with the name of its tap, 1 to 32 bytes of A-Za-z0-9_.-, and a blank.
This is UTF-16: a bundle is UTF-8.
",
    ),
    (
        b"{\"k\":\"start\",\"off\":null}",
        InputCode::NoTapName,
        "A line begins with the name of its tap, 1 to 32 bytes of A-Za-z0-9_.-, and a blank.
The name of the tap is missing before this record.
",
    ),
    // UTF-8 up to its byte 8
    (
        b"a {\"k\":\"\xff\"}",
        InputCode::NotJson,
        "What follows the first blank is UTF-8 up to byte 8 of this line, and not from there on.\n",
    ),
];

/// The code of this name.
fn code_of(name: &str) -> Option<InputCode> {
    match name {
        "NoTapName" => Some(InputCode::NoTapName),
        "LineTooLong" => Some(InputCode::LineTooLong),
        "NotJson" => Some(InputCode::NotJson),
        "Field" => Some(InputCode::Field),
        "Limit" => Some(InputCode::Limit),
        "NoHeader" => Some(InputCode::NoHeader),
        "UnknownKind" => Some(InputCode::UnknownKind),
        "Version" => Some(InputCode::Version),
        "HeaderTwice" => Some(InputCode::HeaderTwice),
        "SecondStream" => Some(InputCode::SecondStream),
        "OffsetTwice" => Some(InputCode::OffsetTwice),
        _ => None,
    }
}

/// Asserts that each line has its help.
fn assert_help(rt: &impl Abort, alloc: Global, rows: &[&str]) -> Result<(), Fail> {
    for row in rows {
        let (why, rest) = cut(row, "\n");
        let (line, help) = cut(rest, "\n");
        let (name, header) = cut(why, " ");
        let code = code_of(name).ok_or("no code")?;
        let header = header.parse::<u64>().ok();
        let said = refusal_help(alloc, line.as_bytes(), code, header)?;
        assert_eq!(rt; said.as_str(), help, "{row}");
    }
    Ok(())
}

/// Asserts that these bytes have their help.
fn assert_help_on_bytes(
    rt: &impl Abort,
    alloc: Global,
    rows: &[(&[u8], InputCode, &str)],
) -> Result<(), Fail> {
    for &(bytes, code, help) in rows {
        let said = refusal_help(alloc, bytes, code, None)?;
        assert_eq!(rt; said.as_str(), help);
    }
    Ok(())
}

#[test]
fn refused_lines_have_help(rt: HostRuntime) -> Result<(), Fail> {
    assert_help(&rt, rt.alloc(), &LINES)?;
    assert_help_on_bytes(&rt, rt.alloc(), &BYTES)
}
