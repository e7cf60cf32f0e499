//! The arguments of `explain`.
use crate::arguments::words_of;
use crate::case::cut;
use aud_cli::{ExplainOptions, FailOn, Faults, NamedRecord, Only, explain_asked};
use aud_tap::Text;
use std::alloc::{AllocError, Global};
use std::process::Abort;
use std::test::Fail;

/// Arguments, on a line each how the text begins that tells of them, and a part of it.
static ARGUMENTS: [&str; 37] = [
    "explain\nread all, form Text, quiet false, workers 4, \nfail on delivery packets recording, pids, files\n",
    "explain --\nread all, form Text, quiet false, workers 4, \nfail on delivery packets recording, pids, files\n",
    "explain --json\nread all, form Json, quiet false, workers 4, \nfail on delivery packets recording, pids, files\n",
    "explain --html\nread all, form Html, quiet false, workers 4, \nfail on delivery packets recording, pids, files\n",
    "explain --quiet\nread all, form Text, quiet true, workers 4, \nfail on delivery packets recording, pids, files\n",
    "explain --only no\nread no, form Text, quiet false, workers 4, \nfail on delivery packets recording, pids, files\n",
    "explain --only=delivery\nread delivery, form Text, quiet false, workers 4, \nfail on delivery packets recording, pids, files\n",
    "explain --only packets\nread packets, form Text, quiet false, workers 4, \nfail on delivery packets recording, pids, files\n",
    "explain --only recording\nread recording, form Text, quiet false, workers 4, \nfail on delivery packets recording, pids, files\n",
    "explain --fail-on delivery,refused\nread all, form Text, quiet false, workers 4, \nfail on delivery refused, pids, files\n",
    "explain --fail-on=packets,packets\nread all, form Text, quiet false, workers 4, \nfail on packets, pids, files\n",
    "explain --fail-on=packets,recording,delivery\nread all, form Text, quiet false, workers 4, \nfail on delivery packets recording, pids, files\n",
    "explain --lines p.lines --pid P p.jsonl\nread all, form Text, quiet false, workers 4, fail on delivery packets recording, lines p.lines, \npids P, files p.jsonl\n",
    "explain --only LOST\nread LOST, form Text, quiet false, workers 4, \nfail on delivery packets recording, pids, files\n",
    "explain --only=NOLOG\nread NOLOG, form Text, quiet false, workers 4, \nfail on delivery packets recording, pids, files\n",
    "explain --fail-on nothing\nread all, form Text, quiet false, workers 4, \nfail on nothing, pids, files\n",
    "explain --fail-on LOST,refused,delivery\nread all, form Text, quiet false, workers 4, \nfail on delivery refused LOST, pids, files\n",
    "explain --fail-on=NOLOG,CHAIN,ORDER,CLIENT,NAMES,FRAME,ORPHAN,CONTENT,EXTRA,DOUBLED,SWAPPED,LOST,WINDOW\nread all, form Text, quiet false, workers 4, \nfail on NOLOG CHAIN ORDER CLIENT NAMES FRAME ORPHAN CONTENT EXTRA DOUBLED SWAPPED LOST WINDOW, pids",
    "explain --whole\nread all, whole, form Text, quiet false, workers 4, \nfail on delivery packets recording, pids, files\n",
    "explain --only TAIL --whole\nread TAIL, whole, form Text, quiet false, workers 4, \nfail on delivery packets recording, pids, files\n",
    "explain --whole --fail-on=refused,TAIL,LOST\nread all, whole, form Text, quiet false, workers 4, \nfail on refused LOST TAIL, pids, files\n",
    "explain --workers=64 --quiet --json\nread all, form Json, quiet true, workers 64, \nfail on delivery packets recording, pids, files\n",
    "explain a.jsonl\nread \n, pids, files a.jsonl\n",
    "explain -\nread \n, pids, files -\n",
    "explain a - a\nread \n, pids, files a - a\n",
    "explain --pid P\nread \n, pids P, files\n",
    "explain --pid -P f --pid=--Q=\nread \n, pids -P --Q=, files f\n",
    "explain --json f --quiet g\nread \n, pids, files f g\n",
    "explain -- --json -- f\nread \n, pids, files --json -- f\n",
    "explain --pid -- f\nread \n, pids --, files f\n",
    "\nrefused: \nUsage",
    "audit\nrefused: \naudit",
    "-- explain\nrefused: \nexplain",
    "explain --pid\nrefused: \n--pid",
    "explain --only\nrefused: \n--only",
    "explain --only yes\nrefused: \nyes",
    "explain --only No\nrefused: \nNo",
];

/// More of them.
static MORE_ARGUMENTS: [&str; 36] = [
    "explain --only lost\nrefused: \nlost",
    "explain --only TAIL\nrefused: error: TAIL is named without --whole, which alone looks for it\n--help",
    "explain --only LOST,EXTRA\nrefused: \nLOST,EXTRA",
    "explain --only=\nrefused: \n--only",
    "explain --only=no --only no\nrefused: \n--only",
    "explain --json=yes\nrefused: \n--json",
    "explain --json=\nrefused: \n--json",
    "explain --json --json\nrefused: \n--json",
    "explain --html=yes\nrefused: \n--html",
    "explain --html --html\nrefused: \n--html",
    "explain --html --json\nrefused: error: the argument '--html' cannot be used with '--json'\nUsage",
    "explain --json f --html\nrefused: error: the argument '--json' cannot be used with '--html'\nUsage",
    "explain --quiet f --quiet\nrefused: \n--quiet",
    "explain --fail-on\nrefused: \n--fail-on",
    "explain --fail-on \nrefused: \n--fail-on",
    "explain --fail-on delivery,\nrefused: \n--fail-on",
    "explain --fail-on delivery,lost\nrefused: \nlost",
    "explain --fail-on LOST,TAIL\nrefused: error: TAIL is named without --whole, which alone looks for it\n--help",
    "explain --whole=yes\nrefused: \n--whole",
    "explain --whole f --whole\nrefused: \n--whole",
    "explain --fail-on=refused --fail-on=refused\nrefused: \n--fail-on",
    "explain --workers 0\nrefused: \n0",
    "explain --workers 65\nrefused: \n65",
    "explain --workers=7x\nrefused: \n7x",
    "explain --workers=1 --workers=1\nrefused: \n--workers",
    "explain --lines\nrefused: \n--lines",
    "explain --lines=a --lines b\nrefused: \n--lines",
    "explain -j\nrefused: \n-j",
    "explain --help\nhelp: \n--pid <P>",
    "explain --help\nhelp: \n--only <WHICH>",
    "explain --help\nhelp: \n[possible values: no, delivery, packets, recording, NOLOG, ",
    "explain --help\nhelp: \n--html",
    "explain --help\nhelp: \n--fail-on <LIST>",
    "explain --help\nhelp: \n[default: delivery,packets,recording]",
    "explain --help\nhelp: \n[FILES]...",
    "explain --help\nhelp: \n[default: 4]",
];

/// Those that name records.
static RECORD_ARGUMENTS: [&str; 29] = [
    "explain --record a 3\nread all, form Text, \n, pids, records a:3, files\n",
    "explain --record a 3 0 3\nread \n, pids, records a:3 a:0 a:3, files\n",
    "explain --record=a 3 4 f\nread \n, pids, records a:3 a:4, files f\n",
    "explain f --record a 3 g 4\nread \n, pids, records a:3, files f g 4\n",
    "explain 5 --record a 3 -- 4\nread \n, pids, records a:3, files 5 4\n",
    "explain --record a 3 --record st 0 1 --json f\nread all, form Json, \n, pids, records a:3 st:0 st:1, files f\n",
    "explain --record a 3 --quiet 4\nread all, form Text, quiet true\n, pids, records a:3, files 4\n",
    "explain --record -- 3 -\nread \n, pids, records --:3, files -\n",
    "explain --record 7 7 7x 7\nread \n, pids, records 7:7, files 7x 7\n",
    "explain --record a 18446744073709551615\nread \nrecords a:18446744073709551615, files\n",
    "explain --record a 1 18446744073709551616\nread \nrecords a:1, files 18446744073709551616\n",
    "explain --record a 007 +8\nread \nrecords a:7 a:8, files\n",
    "explain --lines p.lines --record a 3 --workers 1 p.jsonl\nread all, form Text, quiet false, workers 1, \n, lines p.lines, pids, records a:3, files p.jsonl\n",
    "explain --record\nrefused: \n--record",
    "explain --record a\nrefused: \n--record",
    "explain --record=a\nrefused: \n--record",
    "explain --record a f\nrefused: error: --record has the name of a tap, and after it the numbers of records\n--help",
    "explain --record a -- 3\nrefused: \n--record",
    "explain --record a --record b 3\nrefused: \n--record",
    "explain --record a 18446744073709551616\nrefused: error: --record has the name of a tap, and after it the numbers of records\n--help",
    "explain --record a 3 --pid P\nrefused: error: the argument '--record\ncannot be used with '--pid",
    "explain --record a 3 --html\nrefused: error: the argument '--record\ncannot be used with '--html'",
    "explain --only no --record a 3\nrefused: \ncannot be used with",
    "explain --fail-on LOST --record a 3\nrefused: \ncannot be used with",
    "explain --record a 3 --whole\nrefused: \ncannot be used with '--whole'",
    "explain --record a 3 --unknown\nrefused: error: unexpected argument '--unknown' found\nUsage",
    "audit --record a 3\nrefused: error: unexpected argument '--record' found\nUsage",
    "explain --help\nhelp: \n--record <TAP> <NUMBER>...",
    "explain --help\nhelp: \nthey count from 0, without the tap's",
];

/// Adds the texts, each after a blank.
fn push_texts(out: &mut String, texts: &[Text]) -> Result<(), AllocError> {
    for text in texts {
        let text = text.as_str();
        write!(out, " {text}")?;
    }
    Ok(())
}

/// Adds the words of the faults, each after a blank.
fn push_faults(out: &mut String, faults: Faults) -> Result<(), AllocError> {
    let all = [
        (faults.no_log, "NOLOG"),
        (faults.chain, "CHAIN"),
        (faults.order, "ORDER"),
        (faults.client, "CLIENT"),
        (faults.names, "NAMES"),
        (faults.frame, "FRAME"),
        (faults.orphan, "ORPHAN"),
        (faults.content, "CONTENT"),
        (faults.extra, "EXTRA"),
        (faults.doubled, "DOUBLED"),
        (faults.swapped, "SWAPPED"),
        (faults.lost, "LOST"),
        (faults.window, "WINDOW"),
        (faults.tail, "TAIL"),
    ];
    push_chosen(out, &all)
}

/// Adds those of the words that are chosen, each after a blank.
fn push_chosen(out: &mut String, words: &[(bool, &str)]) -> Result<(), AllocError> {
    for &(is_chosen, word) in words {
        if is_chosen {
            write!(out, " {word}")?;
        }
    }
    Ok(())
}

/// Adds which sessions are shown.
fn push_only(out: &mut String, only: Option<Only>) -> Result<(), AllocError> {
    match only {
        None => write!(out, " all"),
        Some(Only::No) => write!(out, " no"),
        Some(Only::Of(class)) => write!(out, " {class}"),
        Some(Only::With(faults)) => push_faults(out, faults),
    }
}

/// Adds what makes status 1.
fn push_fail_on(out: &mut String, fail_on: FailOn) -> Result<(), AllocError> {
    let words = [
        (fail_on.delivery, "delivery"),
        (fail_on.packets, "packets"),
        (fail_on.recording, "recording"),
        (fail_on.refused, "refused"),
        (fail_on.nothing, "nothing"),
    ];
    push_chosen(out, &words)?;
    push_faults(out, fail_on.faults)
}

/// Adds the records that are named, if there are some.
fn push_records(out: &mut String, records: &[NamedRecord]) -> Result<(), AllocError> {
    if !records.is_empty() {
        write!(out, ", records")?;
    }
    for record in records {
        let (tap, number) = (record.tap.as_str(), record.number);
        write!(out, " {tap}:{number}")?;
    }
    Ok(())
}

/// The options, in words.
fn options_text(alloc: Global, options: &ExplainOptions) -> Result<String, AllocError> {
    let (form, quiet, workers) = (options.form, options.quiet, options.workers);
    let mut out = String::new(alloc);
    write!(out, "read")?;
    push_only(&mut out, options.only)?;
    if options.whole {
        write!(out, ", whole")?;
    }
    write!(
        out,
        ", form {form:?}, quiet {quiet}, workers {workers}, fail on"
    )?;
    push_fail_on(&mut out, options.fail_on)?;
    if let Some(lines) = &options.lines {
        let lines = lines.as_str();
        write!(out, ", lines {lines}")?;
    }
    write!(out, ", pids")?;
    push_texts(&mut out, options.pids.as_slice())?;
    push_records(&mut out, options.records.as_slice())?;
    write!(out, ", files")?;
    push_texts(&mut out, options.files.as_slice())?;
    writeln!(out, "")?;
    Ok(out)
}

/// What the arguments ask for, or what is written where they are refused or ask for help.
fn text_of(alloc: Global, arguments: &[&str]) -> Result<String, AllocError> {
    match explain_asked(alloc, arguments) {
        Ok(options) => options_text(alloc, &options),
        Err(error) => {
            let word = if error.use_stderr() {
                "refused"
            } else {
                "help"
            };
            format!(in alloc; "{word}: {error}")
        }
    }
}

/// Asserts that each text begins so, and has this part.
fn assert_texts(rt: &impl Abort, alloc: Global, rows: &[&str]) -> Result<(), Fail> {
    for row in rows {
        let (arguments, wanted) = cut(row, "\n");
        let (begin, part) = cut(wanted, "\n");
        let text = text_of(alloc, &words_of(alloc, arguments)?)?;
        let text = text.as_str();
        assert!(rt;
            text.starts_with(begin) && text.contains(part),
            "{arguments}: {text}"
        );
    }
    Ok(())
}

#[test]
fn arguments_are_read(rt: HostRuntime) -> Result<(), Fail> {
    assert_texts(&rt, rt.alloc(), &ARGUMENTS)?;
    assert_texts(&rt, rt.alloc(), &MORE_ARGUMENTS)?;
    assert_texts(&rt, rt.alloc(), &RECORD_ARGUMENTS)
}
