//! Files as one input: the lines that records stand on, the line that is refused, and certificates among the lines.
use crate::told::Told;
use aud_base::{Text, Watched};
use aud_input::{
    InputFile, InputFiles, InputReader, Layout, ReadingFault, Recorded, Sources, place_told,
    read_files,
};
use aud_reader::{InputCode, ReadFault};
use std::alloc::Global;
use std::collections::VecDeque;
use std::hash::RandomState;
use std::io::Read;
use std::test::Fail;
use std::thread::Threads;

/// Of each tap the lines of its first records, each with its file and its line there where there are several files.
fn tell_lines(recorded: &Recorded, files: &[InputFile], out: &mut Told) {
    for (place, tap) in recorded.taps.as_slice().iter().enumerate() {
        out.text(tap.name.as_str());
        for number in 0..3usize {
            if let Some(line) = recorded.lines.line_of(place, number) {
                out.debug(&line);
                out.debug(&place_told(files, line));
            }
        }
        out.text("\n");
    }
}

/// What is read of files, by so many threads; or the number of the line that is refused, its text, and the number of
/// the header of its tap.
fn told<H: Threads + Sync>(
    rt: &H,
    alloc: Global,
    keys: RandomState,
    threads: usize,
    files: &[&'static str],
) -> Result<String, Fail> {
    let mut names = Vec::new(alloc);
    let mut input = Vec::new(alloc);
    for (file, name) in files.iter().zip(["one", "two"]) {
        names.push(Text::new(alloc, name)?)?;
        input.push(Watched::new(file.as_bytes()))?;
    }
    let mut out = Told::new(alloc);
    match read_files(rt, threads, alloc, keys, &mut input) {
        Ok(recorded) => {
            let files = InputFiles::of(alloc, &names, &recorded.counts)?;
            tell_lines(&recorded, files.as_slice(), &mut out);
        }
        Err(ReadingFault::Refused(refusal)) => {
            out.show(&refusal.number);
            out.text(" ");
            out.text(str::from_utf8(refusal.line.as_slice()).unwrap_or("?"));
            out.debug(&refusal.header);
        }
        Err(_) => out.fail(),
    }
    Ok(out.finish()?)
}

/// Files, and what is read of them.
static INPUTS: [(&[&str], &str); 5] = [
    // the taps' lines in turn, lines without bytes, carriage returns, and no newline at the end
    (
        &[
            "\nb {\"k\":\"tap\",\"v\":1,\"of\":\"node\"}\r\na {\"k\":\"tap\",\"v\":1,\"of\":\"node\"}\n\r\n\
             a {\"k\":\"take\",\"off\":\"1\"}\nb {\"k\":\"take\",\"off\":\"1\"}\r\n\
             b {\"k\":\"take\",\"off\":\"1\"}\na {\"k\":\"take\",\"off\":\"1\"}",
        ],
        "b 6 None 7 None\na 5 None 8 None\n",
    ),
    // a file's end ends its last line
    (
        &[
            r#"a {"k":"tap","v":1,"of":"node"}"#,
            "a {\"k\":\"start\",\"off\":null}\na {\"k\":\"take\",\"off\":\"1\"}\n",
        ],
        "a 2 Some((\"two\", 1)) 3 Some((\"two\", 2))\n",
    ),
    // the first of two, and a header before it
    (
        &[
            "b {\"k\":\"tap\",\"v\":1,\"of\":\"node\"}\na {\"k\":\"tap\",\"v\":1,\"of\":\"node\"}\n\
             a {\"k\":1}\r\na {\"k\":2}\n",
        ],
        r#"3 a {"k":1} Some(2)"#,
    ),
    // a line that would begin its tap is the first of its name
    (
        &["b {\"k\":\"take\"}\nb {\"k\":\"tap\",\"v\":1,\"of\":\"node\"}\n"],
        r#"1 b {"k":"take"} Some(1)"#,
    ),
    // a certificate names no tap
    (
        &[
            "a {\"k\":\"tap\",\"v\":1,\"of\":\"node\"}\n",
            "{\"pid\": \"P\"}\n",
        ],
        r#"2 {"pid": "P"} None"#,
    ),
];

#[test]
fn records_and_refused_lines_are_found(rt: HostRuntime) -> Result<(), Fail> {
    let keys = RandomState::new(&rt)?;
    for threads in [1, 4] {
        for (files, wanted) in &INPUTS {
            let told = told(&rt, rt.alloc(), keys, threads, files)?;
            assert_eq!(rt; told.as_str(), *wanted);
        }
    }
    Ok(())
}

/// How many taps are read, by one thread, of a tap of one record with a certificate between its lines, and the number
/// of the line of its first certificate.
fn certified<H: Threads + Sync>(
    rt: &H,
    alloc: Global,
    keys: RandomState,
    layout: Layout,
) -> Result<(usize, Option<u64>), ReadFault> {
    let mut reader = InputReader::new(alloc, keys, layout);
    reader.feed(
        rt,
        1,
        b"a {\"k\":\"tap\",\"v\":1,\"of\":\"node\"}\n{\"pid\":\"P\"}\n",
    )?;
    reader.feed(rt, 1, b"a {\"k\":\"start\",\"off\":null}\n")?;
    let input = reader.finish(rt, 1)?;
    let first = input.certificates.first().map(|line| line.number);
    Ok((input.taps.as_slice().len(), first))
}

#[test]
fn certificates_stand_apart_and_files_are_joined(rt: HostRuntime) -> Result<(), Fail> {
    let keys = RandomState::new(&rt)?;
    let both = certified(&rt, rt.alloc(), keys, Layout::BundleAndCertificates);
    assert!(rt; both == Ok((1, Some(2))));
    let bundle = certified(&rt, rt.alloc(), keys, Layout::Bundle);
    assert!(rt; bundle == Err(ReadFault::Input(2, InputCode::NoTapName)));
    let mut others = VecDeque::new(rt.alloc());
    others.push_back(b"b".as_slice())?;
    let mut sources = Sources::new(b"a".as_slice(), others);
    let mut buf = [0; 2];
    assert_eq!(rt; sources.read(&mut buf)?, 1);
    assert!(rt; sources.current().is_empty());
    // the newline that ends the first file's line
    assert_eq!(rt; sources.read(&mut buf)?, 1);
    assert!(rt; *sources.current() == b"b".as_slice());
    Ok(())
}
