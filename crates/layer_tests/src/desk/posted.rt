//! What is posted at a desk and refused, by one thread and by several, and the report on a bundle that is posted.
use crate::desk::bundle::REPORT;
use crate::desk::desks::{Way, at_desk};
use crate::desk::reports::report;
use aud_book::{Book, DeskFault, PostFault, Posted, read_posted};
use aud_desk::OpenGate;
use std::alloc::Global;
use std::hash::RandomState;
use std::mem::ManuallyDrop;
use std::random::RandomSource;
use std::sync::Wait;
use std::test::Fail;
use std::thread::Threads;
use std::time::Clock;

#[test]
fn each_line_in_a_book_has_the_next_place(rt: HostRuntime) -> Result<(), Fail> {
    let mut book = Book::new(rt.alloc(), &["st", "a"])?;
    let places = (book.append(1, b"node")?, book.append(0, b"stream")?);
    assert_eq!(rt; (places, book.len()), ((0, 1), 2));
    let lines = book.lines_of(rt.alloc(), 1)?;
    assert!(rt; matches!(lines.as_slice(), [line] if *line == b"node".as_slice()));
    Ok(())
}

/// The names of the taps of the bundle, in the order of their first lines.
static NAMES: [&str; 3] = ["st", "a", "c1"];

/// The report on what was posted.
fn report_on_posted<R: Threads + Wait + Clock + RandomSource + Sync>(
    posted: &Posted<'_>,
    rt: &R,
    alloc: Global,
) -> Result<String, Fail> {
    let taps = ManuallyDrop::new(read_posted(alloc, RandomState::new(rt)?, posted)?);
    report(&taps, rt, alloc, 2, false, &OpenGate)
}

/// The orders in which one thread posts the whole bundle, and then three threads.
static WAYS: [Way<'static, 'static>; 4] = [
    Way::InOrder(&[2, 2, 2, 2, 1, 1, 1, 1, 1, 0, 0]),
    Way::InOrder(&[1, 2, 0, 1, 2, 1, 2, 1, 2, 1, 0]),
    Way::InOrder(&[2, 0, 1, 1, 2, 2, 1, 1, 0, 1, 2]),
    Way::ByThreads(5),
];

#[test]
fn the_order_of_the_posts_changes_nothing(rt: HostRuntime) -> Result<(), Fail> {
    for way in &WAYS {
        let posted = at_desk(&rt, rt.alloc(), &NAMES, way)??;
        assert_eq!(rt; posted.history.len(), 11);
        if let Way::InOrder(order) = way {
            for ((place, _), wanted) in posted.history.iter().zip(*order) {
                assert_eq!(rt; place, wanted);
            }
        }
        let report = report_on_posted(&posted, &rt, rt.alloc())?;
        assert_eq!(rt; report.as_str(), REPORT);
    }
    Ok(())
}

/// The longest line of a tap whose name has one byte.
const LONGEST: usize = 4_194_302;

static NO_NAMES: [&[&str]; 4] = [&["a", "a"], &["st", "a", "b", "a"], &["st", ""], &[]];

#[test]
fn lines_and_names_are_refused(rt: HostRuntime) -> Result<(), Fail> {
    let longest = vec![in rt.alloc(); b'x'; LONGEST]?;
    let longer = vec![in rt.alloc(); b'x'; LONGEST + 1]?;
    let posts: [(&[u8], Option<PostFault>); 3] = [
        (longest.as_slice(), None),
        (longer.as_slice(), Some(PostFault::TooLong)),
        (b"x\n", Some(PostFault::Newline)),
    ];
    let posted = at_desk(&rt, rt.alloc(), &["st", "a"], &Way::Each(&posts))??;
    assert_eq!(rt; posted.history.len(), 1);
    for names in NO_NAMES {
        let opened = at_desk(&rt, rt.alloc(), names, &Way::ByThreads(1));
        assert!(rt; matches!(opened, Err(DeskFault::Names)));
    }
    Ok(())
}
