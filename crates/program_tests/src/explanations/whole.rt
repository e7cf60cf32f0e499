//! Whole explanations, as the program calls them: files in, and how the run ends.
use aud_base::Watched;
use aud_cli::explain_asked;
use aud_explain_app::explain;
use std::alloc::Global;
use std::hash::RandomState;
use std::random::RandomSource;
use std::sync::Wait;
use std::test::Fail;
use std::thread::Threads;
use std::time::Clock;

/// Two nodes' logs. The session is opened on the first of them.
const NODES: &str = r#"st {"k":"tap","v":1,"of":"stream"}
a {"k":"tap","v":1,"of":"node"}
a {"k":"start","off":null}
a {"k":"open","pid":"P","sid":"s1","nsp":"/"}
b {"k":"tap","v":1,"of":"node"}
b {"k":"start","off":null}"#;

/// It is opened again, on the second.
const AGAIN: &str = r#"b {"k":"open","pid":"P","sid":"s1","nsp":"/"}"#;

/// Arguments, how the run ends with the sessions that are left out, and what stands first in its output.
static CASES: [(&[&str], &str); 2] = [
    (
        &["explain", "n.jsonl", "m.jsonl"],
        "SomeNo
no P CHAIN [recording]
no one client, turns 2, delivery not judged
    line tap  record
       4 a    open, sid s1, namespace /, cursor 0  earlier  (n.jsonl:4)
       7 b    open, sid s1, namespace /, cursor 0  <- does not fit in the turns  (m.jsonl:1)
    turn 0  a  4 open, cursor 0 == 4 log ends, cursor 0
    turn 0  b  7 open, cursor 0 == 7 log ends, cursor 0
",
    ),
    (
        &["explain", "--pid", "P", "--only", "LOST"],
        "SomeNo without P
sessions: 1, yes: 0, no: 1
  recording 1: CHAIN 1
",
    ),
];

/// How the run over the two files ends, and below it what it writes.
fn explained<H: Threads + Wait + Clock + RandomSource + Sync>(
    rt: &H,
    alloc: Global,
    arguments: &[&str],
) -> Result<String, Fail> {
    let keys = RandomState::new(rt)?;
    let options = explain_asked(alloc, arguments)?;
    let mut files = [
        Watched::new(NODES.as_bytes()),
        Watched::new(AGAIN.as_bytes()),
    ];
    let mut output = Watched::new(Vec::new(alloc));
    let Ok(ending) = explain(rt, alloc, keys, &mut files, &mut output, &options, None) else {
        return Err("no explanation")?;
    };
    let status = ending.status;
    let mut told = format!(in alloc; "{status:?}")?;
    for pid in &ending.left_out {
        write!(&mut told, " without {pid}")?;
    }
    let written = output.into_inner();
    let written = str::from_utf8(&written)?;
    write!(&mut told, "\n{written}")?;
    Ok(told)
}

#[test]
fn explanations_of_two_files(rt: HostRuntime) -> Result<(), Fail> {
    for &(arguments, begin) in &CASES {
        let told = explained(&rt, rt.alloc(), arguments)?;
        let told = told.as_str();
        assert!(rt; told.starts_with(begin), "{told}");
    }
    Ok(())
}
