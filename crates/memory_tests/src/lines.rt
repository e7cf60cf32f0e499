//! The calls that are fed what was recorded, one after another.
ghost use Rattle.std.specs.Prelude.{◌≡◌, ◌≤◌, ◌^◌};

use crate::counted::{begin, end};
use crate::given::{Given, memory_if};
use aud_eio::Eio;
use aud_reader::{BundleReader, LentLine, Lines, ReadFault, Splitter};
use aud_sio::{Assembler, SioFault};
use std::alloc::Global;
use std::hash::RandomState;
use std::mem::ManuallyDrop;

/// What is fed.
pub enum Fed {
    Splitter,
    Reader,
    Assembler,
}

/// Feeds it.
pub fn given(lines: &Lines, alloc: Global, keys: RandomState, fed: &Fed) -> Given {
    match fed {
        Fed::Splitter => split(alloc),
        Fed::Reader => read(lines, alloc, keys),
        Fed::Assembler => assemble(alloc),
    }
}

/// Feeds two lines and the front of a third, in three pieces.
fn feed_pieces(splitter: &mut Splitter) -> Result<(), ReadFault>
    requires { splitter.old.number ≡ 1 }
    ensures { splitter.new.number ≤ 2 ^ 32 }
{
    splitter.feed(b"one\ntw")?;
    splitter.feed(b"o\nthr")?;
    splitter.feed(b"ee")
}

/// After a refusal the splitter goes on to give its memory fault; else it takes the end of the third line.
fn split(alloc: Global) -> Given {
    let mut splitter = Splitter::new(alloc);
    begin(alloc);
    let fed = feed_pieces(&mut splitter);
    end(alloc);
    let next = splitter.feed(b"four\n");
    let finished = ManuallyDrop::new(splitter.finish());
    match (fed, next, &*finished) {
        (Ok(()), Ok(()), Ok(lines)) => Given::Answer("lines", lines.len()),
        (Err(ReadFault::Memory), Err(ReadFault::Memory), Err(ReadFault::Memory)) => Given::Memory,
        (Err(ReadFault::Memory), _, _) => Given::Wrong("the splitter goes on"),
        _ => Given::Wrong("a line is refused"),
    }
}

/// Reads the lines in turn, up to the first that is refused.
fn read_lines(reader: &mut BundleReader, lines: &[LentLine<'_>]) -> Result<(), ReadFault> {
    for line in lines {
        reader.line(line)?;
    }
    Ok(())
}

fn read(lines: &Lines, alloc: Global, keys: RandomState) -> Given {
    let Ok(lines) = lines.lent() else {
        return Given::Wrong("the lines are not lent");
    };
    let mut reader = BundleReader::new(alloc, keys);
    begin(alloc);
    let read = read_lines(&mut reader, &lines);
    end(alloc);
    let again = if read.is_ok() {
        Ok(())
    } else {
        read_lines(&mut reader, &lines)
    };
    let finished = ManuallyDrop::new(reader.finish());
    match (read, again, &*finished) {
        (Ok(()), _, Ok(taps)) => Given::Answer("taps", taps.as_slice().len()),
        (Err(ReadFault::Memory), Err(ReadFault::Memory), Err(ReadFault::Memory)) => Given::Memory,
        (Err(ReadFault::Memory), _, _) => Given::Wrong("the reader goes on"),
        _ => Given::Wrong("a line is refused"),
    }
}

/// Feeds a packet and its two attachments: how many it is given with.
fn feed_packet(assembler: &mut Assembler<'_>) -> Result<usize, SioFault> {
    let mut count = 0usize;
    for message in [
        Eio::Message(r#"52-["f",{"_placeholder":true,"num":0},{"_placeholder":true,"num":1}]"#),
        Eio::Lent(&[1, 2]),
        Eio::Lent(&[3]),
    ] {
        let whole = ManuallyDrop::new(assembler.feed(message)?);
        if let Some(whole) = &*whole {
            count = whole.bin.len();
        }
    }
    Ok(count)
}

fn assemble(alloc: Global) -> Given {
    let mut assembler = ManuallyDrop::new(Assembler::new(alloc));
    begin(alloc);
    let fed = feed_packet(&mut assembler);
    end(alloc);
    match fed {
        Ok(count) => Given::Answer("attachments", count),
        Err(SioFault::Memory) => {
            let again = assembler.is_at_rest() && matches!(feed_packet(&mut assembler), Ok(2));
            memory_if(again, "the assembler takes no new header")
        }
        Err(_) => Given::Wrong("the packet isn't given"),
    }
}
