//! Lists that contracts see as their elements.
ghost use Rattle.std.specs.Prelude.{◌≡◌};

use crate::Text;
use std::marker::Model;

/// Elements in their order, seen as their list: a record that has a field of this type is plain data in contracts.
#[derive(Drop)]
pub struct Listed<T> {
    items: Vec<T>,
}

impl<T> Model for Listed<T> {
    ghost use Rattle.std.specs.Prelude.{List};
    ghost use Rattle.std.specs.Coded.{coded_list};

    ghost Value = { List T };

    ghost coded = { coded_list T.code };

    ghost view = { λ l. l.items.items };
}

impl<T> Listed<T> {
    /// These elements, in this order: forms and limits are the reader's.
    pub fn new(items: Vec<T>) -> Listed<T>
        ensures { result ≡ items.items }
    {
        Listed { items }
    }

    /// The elements, borrowed.
    pub fn as_slice(&self) -> &[T]
        ensures { result.now ≡ self.now }
    {
        self.items.as_slice()
    }
}

/// Texts, as of the rooms of an event.
pub type Texts = Listed<Text>;

/// Bytes of any kind.
pub type Bytes = Listed<u8>;

/// The attachments of an event.
pub type Blobs = Listed<Bytes>;
