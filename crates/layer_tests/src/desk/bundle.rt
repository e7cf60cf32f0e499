//! Two bundles, and the reports on them.

/// `examples/bundle_a.jsonl`: a session of one node, whose client receives the only event.
pub const ONE_SESSION: &str = r#"st {"k":"tap","v":1,"of":"stream"}
st {"k":"ev","off":"1-0","nsp":"/","rooms":["r"],"text":"2[\"hi\",\"1-0\"]"}
a {"k":"tap","v":1,"of":"node"}
a {"k":"start","off":null}
a {"k":"open","pid":"P","sid":"s1","nsp":"/"}
a {"k":"join","pid":"P","room":"r"}
a {"k":"take","off":"1-0"}
c1 {"k":"tap","v":1,"of":"client"}
c1 {"k":"conn","c":1}
c1 {"k":"in","t":"40{\"sid\":\"s1\",\"pid\":\"P\"}"}
c1 {"k":"in","t":"42[\"hi\",\"1-0\"]"}
"#;

/// What is written for it.
pub const REPORT: &str = "yes P got=1 tail=0 turns=1\nsessions=1 yes=1 no=0\n";

/// Two sessions, of which the event leaves out the first.
pub const TWO_SESSIONS: &str = r#"st {"k":"tap","v":1,"of":"stream"}
st {"k":"ev","off":"1-0","nsp":"/","rooms":[],"except":["s1"],"text":"2[\"hi\",\"1-0\"]"}
a {"k":"tap","v":1,"of":"node"}
a {"k":"start","off":null}
a {"k":"open","pid":"P","sid":"s1","nsp":"/"}
a {"k":"open","pid":"Q","sid":"s2","nsp":"/"}
a {"k":"take","off":"1-0"}
c1 {"k":"tap","v":1,"of":"client"}
c1 {"k":"conn","c":1}
c1 {"k":"in","t":"40{\"sid\":\"s1\",\"pid\":\"P\"}"}
c2 {"k":"tap","v":1,"of":"client"}
c2 {"k":"conn","c":1}
c2 {"k":"in","t":"40{\"sid\":\"s2\",\"pid\":\"Q\"}"}
c2 {"k":"in","t":"42[\"hi\",\"1-0\"]"}
"#;

/// What is written for these.
pub const REPORT_OF_TWO: &str =
    "yes P got=0 tail=0 turns=1\nyes Q got=1 tail=0 turns=1\nsessions=2 yes=2 no=0\n";

/// The line of this number, from 0, of the bundle's tap of this name, without the name and the blank after it.
pub fn line_at(name: &str, number: usize) -> Option<&'static [u8]> {
    let mut left = number;
    for line in ONE_SESSION.lines() {
        match line.split_once(' ') {
            Some((own, json)) if own == name => {
                if left == 0 {
                    return Some(json.as_bytes());
                }
                left -= 1;
            }
            _ => {}
        }
    }
    None
}
