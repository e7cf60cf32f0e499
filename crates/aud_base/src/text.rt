//! Texts that contracts see as their bytes.
ghost use Rattle.std.specs.Prelude.{◌≡◌, IfOk, IfSome, MatchOption, false};
ghost use Rattle.std.specs.Arc.{arc_value};
ghost use Rattle.aud_base.specs.Private.Block.{block_bytes};
ghost use Rattle.aud_base.specs.Private.ShortText.{is_short};

use crate::short_text::ShortText;
use arrayvec::ArrayString;
use std::alloc::{AllocError, Global};
use std::hash::{Hash, Hasher};
use std::marker::Model;
use std::sync::Arc;

/// Where the bytes of a text stand: those of a short one in the value itself, and those of any other in a block of
/// memory that is shared. Only of the longest this is two blocks: the other blocks have as many bytes as the text may
/// have, so that with its count and its length it takes 64, 128, 192 or 256 bytes of glibc's memory.
#[derive(Drop)]
pub(crate) enum Block {
    Short(ShortText),
    UpTo40(Arc<ArrayString<40>>),
    UpTo104(Arc<ArrayString<104>>),
    UpTo168(Arc<ArrayString<168>>),
    UpTo232(Arc<ArrayString<232>>),
    Long(Arc<String>),
}

impl Block {
    /// A copy of the text, in a block that can be shared.
    fn shared(alloc: Global, text: &str) -> Result<Block, AllocError>
        ensures { IfOk result (λ block. block_bytes block ≡ text.now) }
    {
        if let Some(array) = array_of(alloc, text)? {
            return Ok(Block::UpTo40(array));
        }
        if let Some(array) = array_of(alloc, text)? {
            return Ok(Block::UpTo104(array));
        }
        if let Some(array) = array_of(alloc, text)? {
            return Ok(Block::UpTo168(array));
        }
        if let Some(array) = array_of(alloc, text)? {
            return Ok(Block::UpTo232(array));
        }
        let long = String::from_str(alloc, text)?;
        Ok(Block::Long(Arc::new(alloc, long)?))
    }

    /// The same block again, of which nothing is copied that can be shared.
    fn share(&self) -> Result<Block, AllocError>
        ensures { IfOk result (λ same. block_bytes same ≡ block_bytes self.now) }
    {
        match self {
            Block::Short(short) => Ok(Block::Short(short.copied())),
            Block::UpTo40(array) => Ok(Block::UpTo40(Arc::try_clone(array)?)),
            Block::UpTo104(array) => Ok(Block::UpTo104(Arc::try_clone(array)?)),
            Block::UpTo168(array) => Ok(Block::UpTo168(Arc::try_clone(array)?)),
            Block::UpTo232(array) => Ok(Block::UpTo232(Arc::try_clone(array)?)),
            Block::Long(long) => Ok(Block::Long(Arc::try_clone(long)?)),
        }
    }

    /// The text, borrowed.
    fn as_str(&self) -> &str
        ensures { result.now ≡ block_bytes self.now }
    {
        match self {
            Block::Short(short) => short.as_str(),
            Block::UpTo40(array) => array.as_str(),
            Block::UpTo104(array) => array.as_str(),
            Block::UpTo168(array) => array.as_str(),
            Block::UpTo232(array) => array.as_str(),
            Block::Long(long) => long.as_str(),
        }
    }
}

/// A block that has a copy of the text, where this isn't too long for it.
fn array_of<const CAP: usize>(
    alloc: Global,
    text: &str,
) -> Result<Option<Arc<ArrayString<CAP>>>, AllocError>
    ensures { IfOk result (λ made. IfSome made (λ array. (arc_value array).bytes ≡ text.now)) }
{
    if text.len() > CAP {
        return Ok(None);
    }
    match ArrayString::from(text) {
        Ok(array) => Ok(Some(Arc::new(alloc, array)?)),
        Err(_) => Ok(None),
    }
}

/// A name, an offset, a pid, a room or any other text of a record, seen as its bytes. One of at most 15 bytes takes no
/// memory beside the value; what shares a longer one has the same copy.
pub struct Text {
    block: Block,
}

impl Model for Text {
    ghost use Rattle.std.specs.Prelude.{List, ℕ};
    ghost use Rattle.aud_base.specs.Private.Block.{block_bytes};

    ghost Value = { List ℕ };

    ghost view = { λ t. block_bytes t.block };
}

impl Text {
    /// A copy of the text: forms and limits are the reader's.
    pub fn new(alloc: Global, text: &str) -> Result<Text, AllocError>
        ensures { IfOk result (λ copy. copy ≡ text.now) }
    {
        match Text::short(text) {
            Some(short) => Ok(short),
            None => Text::shared(alloc, text),
        }
    }

    /// A copy of the text, if it is one of few bytes, which takes no memory.
    pub(crate) fn short(text: &str) -> Option<Text>
        ensures { MatchOption result (is_short text.now ≡ false) (λ copy. copy ≡ text.now) }
    {
        let short = ShortText::new(text)?;
        Some(Text {
            block: Block::Short(short),
        })
    }

    /// A copy of the text in memory that can be shared.
    pub(crate) fn shared(alloc: Global, text: &str) -> Result<Text, AllocError>
        ensures { IfOk result (λ copy. copy ≡ text.now) }
    {
        Ok(Text {
            block: Block::shared(alloc, text)?,
        })
    }

    /// The same text again, of which nothing is copied that can be shared.
    pub fn share(&self) -> Result<Text, AllocError>
        ensures { IfOk result (λ same. same ≡ self.now) }
    {
        Ok(Text {
            block: self.block.share()?,
        })
    }

    /// The text, borrowed.
    pub fn as_str(&self) -> &str
        ensures { result.now ≡ self.now }
    {
        self.block.as_str()
    }
}

/// So that whoever drops a record drops its texts by a call, where one that is derived would look into their blocks.
impl Drop for Text {
    fn drop(self) {
        let Text { block } = self;
        drop(block);
    }
}

impl PartialEq for Text {
    ghost use Rattle.std.specs.Str.{bytes_eq};
    ghost use Rattle.std.specs.Cmp.{partial_equiv_from_equiv};
    ghost use Rattle.std.specs.Cmp.Lexicographic.{nat_list_eq_equiv};

    ghost eq = { bytes_eq };

    ghost laws = { partial_equiv_from_equiv nat_list_eq_equiv };

    fn eq(&self, other: &Text) -> bool {
        self.as_str() == other.as_str()
    }
}

impl Eq for Text {
    ghost use Rattle.std.specs.Cmp.Lexicographic.{nat_list_eq_equiv};

    ghost laws = { nat_list_eq_equiv };
}

impl Hash for Text {
    ghost use mathlib.Core.Path.{ap};
    ghost use Rattle.std.specs.Hash as fed;
    ghost use Rattle.std.specs.Cmp.Lexicographic.{bytes_decides};

    ghost hash_input = { fed.str };

    ghost respects_eq = { λ x y h. ap fed.str ((bytes_decides x y).0 h) };

    fn hash<H: Hasher>(&self, state: &mut H) {
        self.as_str().hash(state);
    }
}
