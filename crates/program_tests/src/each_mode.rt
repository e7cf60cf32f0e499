//! Each mode on a bundle of two turns, and inputs that are blocked, bad or refused in it.
use crate::case::{AUDIT, Case};
use aud_app::{Mode, Options, Status};
use std::alloc::{AllocError, Global};

/// A session on node `a`, whose client receives one of two events.
const FIRST_TURN: &str = r#"st {"k":"tap","v":1,"of":"stream"}
st {"k":"ev","off":"1-0","nsp":"/","rooms":["r"],"text":"2[\"hi\",\"1-0\"]"}
st {"k":"ev","off":"2-0","nsp":"/","rooms":["r"],"text":"2[\"hi\",\"2-0\"]"}
a {"k":"tap","v":1,"of":"node"}
a {"k":"start","off":null}
a {"k":"open","pid":"P","sid":"s1","nsp":"/"}
a {"k":"join","pid":"P","room":"r"}
a {"k":"take","off":"1-0"}
"#;

/// It breaks, and is recovered on node `b`; the replayed frame stands before the reply.
const SECOND_TURN: &str = r#"a {"k":"break","pid":"P","turn":0}
b {"k":"tap","v":1,"of":"node"}
b {"k":"start","off":null}
b {"k":"take","off":"1-0"}
b {"k":"take","off":"2-0"}
b {"k":"back","pid":"P","turn":1}
c1 {"k":"tap","v":1,"of":"client"}
c1 {"k":"conn","c":1}
c1 {"k":"in","t":"40{\"sid\":\"s1\",\"pid\":\"P\"}"}
c1 {"k":"in","t":"42[\"hi\",\"1-0\"]"}
c1 {"k":"lost"}
c1 {"k":"conn","c":2}
c1 {"k":"out","t":"40{\"pid\":\"P\",\"offset\":\"1-0\"}"}
c1 {"k":"in","t":"42[\"hi\",\"2-0\"]"}
c1 {"k":"in","t":"40{\"sid\":\"s1\",\"pid\":\"P\"}"}
"#;

/// The certificate of the session.
const PROOF: &str =
    r#"{"client":"c1","pid":"P","spans":[["r",1,2],["s1",1,2]],"turns":[["a",1,5,0,1],["b",3,4,2,2]]}
"#;

/// The bundle in version 2 of the format.
const UPGRADED: &str = r#"st {"k":"tap","of":"stream","v":2}
st {"k":"ev","nsp":"/","off":"1-0","rooms":["r"],"text":"2[\"hi\",\"1-0\"]"}
st {"k":"ev","nsp":"/","off":"2-0","rooms":["r"],"text":"2[\"hi\",\"2-0\"]"}
a {"k":"tap","of":"node","v":2}
a {"k":"start","off":null}
a {"k":"open","nsp":"/","pid":"P","sid":"s1"}
a {"k":"join","pid":"P","room":"r"}
a {"k":"take","off":"1-0"}
a {"k":"break","pid":"P","turn":0}
b {"k":"tap","of":"node","v":2}
b {"k":"start","off":null}
b {"k":"takes","off":"2-0"}
b {"k":"back","pid":"P","turn":1}
c1 {"k":"tap","of":"client","v":2}
c1 {"c":1,"k":"conn"}
c1 {"k":"in","t":"40{\"sid\":\"s1\",\"pid\":\"P\"}"}
c1 {"k":"in","t":"42[\"hi\",\"1-0\"]"}
c1 {"k":"lost"}
c1 {"c":2,"k":"conn"}
c1 {"k":"out","t":"40{\"pid\":\"P\",\"offset\":\"1-0\"}"}
c1 {"k":"in","t":"42[\"hi\",\"2-0\"]"}
c1 {"k":"in","t":"40{\"sid\":\"s1\",\"pid\":\"P\"}"}
"#;

/// A name, the mode, the parts of the input, how the run ends, and what is written.
pub type Row = (
    &'static str,
    Mode,
    &'static [&'static str],
    Status,
    &'static str,
);

pub static EACH_MODE: [Row; 8] = [
    (
        "audit",
        Mode::Audit,
        &[FIRST_TURN, SECOND_TURN],
        Status::AllYes,
        "yes P got=2 tail=0 turns=2\nsessions=1 yes=1 no=0\n",
    ),
    (
        "prove",
        Mode::Prove,
        &[FIRST_TURN, SECOND_TURN],
        Status::AllYes,
        PROOF,
    ),
    (
        "verify",
        Mode::Verify,
        &[FIRST_TURN, SECOND_TURN, PROOF],
        Status::AllYes,
        "ok 24 P got=2 tail=0 turns=2\ncerts=1 ok=1 bad=0\n",
    ),
    (
        "order",
        Mode::Order,
        &[FIRST_TURN, SECOND_TURN],
        Status::AllYes,
        "st 0\nst 1\na 0\na 1\na 2\na 3\na 4\nb 0\nb 1\nb 2\nb 3\nsteps=11\n",
    ),
    (
        "upgrade",
        Mode::Upgrade,
        &[FIRST_TURN, SECOND_TURN],
        Status::AllYes,
        UPGRADED,
    ),
    (
        "order of a take without entry",
        Mode::Order,
        &[FIRST_TURN, "a {\"k\":\"take\",\"off\":\"3-0\"}\n"],
        Status::SomeNo,
        "blocked a 4\nblocked=1\n",
    ),
    (
        "two certificates cut",
        Mode::Verify,
        &[FIRST_TURN, "{\n{}\n"],
        Status::SomeNo,
        "bad 9 K1 Syntax\nbad 10 K1 Syntax\ncerts=2 ok=0 bad=2\n",
    ),
    (
        "upgrade of what is refused",
        Mode::Upgrade,
        &[FIRST_TURN, "a {\n"],
        Status::Refused,
        "line 9: NotJson\n",
    ),
];

/// The case of a row.
pub fn case_of(alloc: Global, row: &Row) -> Result<Case<'static>, AllocError> {
    let &(name, mode, parts, status, text) = row;
    let mut input = String::new(alloc);
    for part in parts {
        input.push_str(part)?;
    }
    Ok(Case {
        name,
        options: Options { mode, ..AUDIT },
        input,
        text,
        status,
    })
}
