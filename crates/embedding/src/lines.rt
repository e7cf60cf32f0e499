//! What the taps saw: the lines of `examples/bundle_a.jsonl`, without their names. A service makes them while it runs.

const STREAM: [&[u8]; 2] = [
    br#"{"k":"tap","v":1,"of":"stream"}"#,
    br#"{"k":"ev","off":"1-0","nsp":"/","rooms":["r"],"text":"2[\"hi\",\"1-0\"]"}"#,
];

const NODE: [&[u8]; 5] = [
    br#"{"k":"tap","v":1,"of":"node"}"#,
    br#"{"k":"start","off":null}"#,
    br#"{"k":"open","pid":"P","sid":"s1","nsp":"/"}"#,
    br#"{"k":"join","pid":"P","room":"r"}"#,
    br#"{"k":"take","off":"1-0"}"#,
];

const CLIENT: [&[u8]; 4] = [
    br#"{"k":"tap","v":1,"of":"client"}"#,
    br#"{"k":"conn","c":1}"#,
    br#"{"k":"in","t":"40{\"sid\":\"s1\",\"pid\":\"P\"}"}"#,
    br#"{"k":"in","t":"42[\"hi\",\"1-0\"]"}"#,
];

/// The names of the taps.
pub const NAMES: [&str; 3] = ["st", "a", "c1"];

/// The lines of the tap of this name: the first is its header.
pub fn lines_of(name: &str) -> &'static [&'static [u8]] {
    match name {
        "st" => &STREAM,
        "a" => &NODE,
        _ => &CLIENT,
    }
}
