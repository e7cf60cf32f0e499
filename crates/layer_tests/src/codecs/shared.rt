//! Texts, lists of them, lists in pages, places and pools, over the public calls of `aud_base`; and work that is
//! shared out among threads.
use crate::told::Told;
use aud_base::{Paged, Places, Text, TextPool, Texts, numbers_to, try_map};
use std::alloc::{AllocError, Global};
use std::hash::RandomState;
use std::test::Fail;

/// Texts: of 1, 0, 3, 14 and 15 bytes, of 15 that end in a character of two, of 16, 40, 41, 104, 105, 168, 169, 232
/// and 233.
static TEXTS: [&str; 15] = [
    "r",
    "",
    "\u{20ac}",
    "fourteen bytes",
    "1700000000000-0",
    "fifteen bytes\u{e9}",
    "1700000000000-10",
    "forty bytes stand in the smallest block.",
    "forty-one bytes stand in the second block",
    "one hundred and four bytes stand in the second of the blocks, as many as it may have, the last of them:.",
    "one hundred and five bytes stand in the third of the blocks, one more than the second may have: this one.",
    "one hundred and sixty-eight bytes stand in the third block and so on and so on and so on and so on and so on and so on and so on and so on and so on and so on and so on",
    "one hundred and sixty-nine bytes stand in the fourth block and so on and so on and so on and so on and so on and so on and so on and so on and so on and so on and so on.",
    "two hundred and thirty-two bytes stand in the fourth block and so on and so on and so on and so on and so on and so on and so on and so on and so on and so on and so on and so on and so on and so on and so on and so on and so on....",
    "two hundred and thirty-three bytes stand in a block of their own and so on and so on and so on and so on and so on and so on and so on and so on and so on and so on and so on and so on and so on and so on and so on and so on.........",
];

/// Whether a list of the texts has them in their order, and a pool gives each, and again, as it was asked for.
fn keeps_texts(alloc: Global, keys: RandomState) -> Result<bool, AllocError> {
    let mut pool = TextPool::new(alloc, keys);
    let mut texts = Vec::new(alloc);
    for text in TEXTS.iter().chain(&TEXTS) {
        let shared = pool.text(text)?.share()?;
        if shared.as_str() != *text {
            return Ok(false);
        }
        texts.push(Text::new(alloc, text)?)?;
    }
    let texts = Texts::new(texts);
    for (text, wanted) in texts.as_slice().iter().zip(&TEXTS) {
        if text.as_str() != *wanted {
            return Ok(false);
        }
    }
    Ok(texts.as_slice().len() == 2 * TEXTS.len())
}

/// Places that are noted one after another, and the texts that stand there: `r` stands at 0 twice.
static NOTED: [(usize, &str); 6] = [(0, "r"), (0, "q"), (0, "r"), (2, "r"), (3, ""), (3, "q")];

/// The texts of an index of what is noted, in their order, each with its places; and those of a text that it hasn't.
fn noted(alloc: Global, keys: RandomState) -> Result<String, AllocError> {
    let mut index = Places::new(alloc, keys);
    for (place, text) in &NOTED {
        index.note(*place, text)?;
    }
    let mut out = Told::new(alloc);
    for number in 0..index.len() {
        out.text(index.text(number));
        out.debug(&index.of(index.text(number)));
        out.text(", ");
    }
    out.debug(&index.of("s"));
    out.finish()
}

/// Whether so many numbers, from 0 on, come back when they are moved out of their pages.
fn pages_numbers(alloc: Global, count: usize) -> Result<bool, AllocError> {
    let mut pages = Paged::new(alloc);
    for number in 0..count {
        pages.push(number)?;
    }
    let numbers = numbers_to(alloc, count)?;
    Ok(
        numbers.len() == count
            && numbers.last().copied() == count.checked_sub(1)
            && pages.into_vec()?.as_slice() == numbers.as_slice(),
    )
}

#[test]
fn texts_and_lists(rt: HostRuntime) -> Result<(), Fail> {
    let keys = RandomState::new(&rt)?;
    assert!(rt; keeps_texts(rt.alloc(), keys)?);
    let noted = noted(rt.alloc(), keys)?;
    assert_eq!(rt; noted.as_str(), "r [0, 2], q [0, 3],  [3],  []");
    for count in [0, 1, 4_096, 4_097, 9_000] {
        assert!(rt; pages_numbers(rt.alloc(), count)?, "{count} numbers");
    }
    Ok(())
}

static WORDS: [&str; 10] = ["", "a", "bc", "d", "efg", "h", "ijkl", "", "mn", "o"];

static LENGTHS: [usize; 10] = [0, 1, 2, 1, 3, 1, 4, 0, 2, 1];

/// The list is the same, however many threads there are, and the error of one item is that of all.
#[test]
fn any_number_of_threads_gives_one_list(rt: HostRuntime) -> Result<(), Fail> {
    for threads in [0usize, 1, 3, 64] {
        for count in [0usize, 1, 2, 7, 10] {
            let words = &WORDS[..count];
            let lengths = try_map(&rt, rt.alloc(), threads, words, |word| Ok(word.len()))?;
            assert_eq!(rt; lengths.as_slice(), &LENGTHS[..count]);
        }
        let refused = try_map(&rt, rt.alloc(), threads, &WORDS, |word| {
            if *word == "mn" {
                Err(AllocError)
            } else {
                Ok(word.len())
            }
        });
        assert!(rt; refused.is_err());
    }
    Ok(())
}
