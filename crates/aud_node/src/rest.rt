//! The rest of a long list.
ghost use Rattle.std.specs.Prelude.{◌≡◌, ◌<◌, ◌==◌, ◌≤◌, Some, [], drop, length, slice_get, slice_index_or};
ghost use Rattle.std.specs.Option.{option_copied};

use aud_base::Paged;
use std::marker::Model;

/// The elements of a long list from one of them on, borrowed; seen as their list.
#[derive(Drop)]
pub struct Rest<'a, T> {
    /// None where there are no elements.
    list: Option<&'a Paged<T>>,
    from: usize,
    /// How long the list is.
    to: usize,
}

impl<'a, T> Model for Rest<'a, T> {
    ghost use Rattle.std.specs.Prelude.{◌≡◌, ◌<◌, ◌≤◌, ◌^◌, List, drop, length};
    ghost use Rattle.aud_node.specs.Private.LentList.{lent_list};

    ghost Value = { List T };

    ghost view = { λ r. drop r.from (lent_list r.list) };

    ghost invariant = { λ r. (r.from ≤ r.to) × (r.to ≡ length (lent_list r.list)) × (r.to < 2 ^ 64) };
}

impl<'a, T> Rest<'a, T> {
    /// No elements.
    pub fn none() -> Rest<'a, T>
        ensures { result ≡ [] }
    {
        Rest {
            list: None,
            from: 0,
            to: 0,
        }
    }

    /// All of the list.
    pub fn all(list: &'a Paged<T>) -> Rest<'a, T>
        ensures { result ≡ list.now }
    {
        Rest {
            list: Some(list),
            from: 0,
            to: list.len(),
        }
    }

    /// How many elements there are.
    pub fn len(&self) -> usize
        ensures { result ≡ length self.now }
    {
        self.to - self.from
    }

    pub fn is_empty(&self) -> bool
        ensures { result ≡ (length self.now == 0) }
    {
        self.from == self.to
    }

    /// The element with this number, which counts from 0; borrowed for as long as the list.
    pub fn at(&self, number: usize) -> &'a T
        requires { number < length self.now }
        ensures value { slice_get self.now number ≡ Some result.now }
        ensures item { result.now ≡ slice_index_or self.now number result.now }
    {
        match self.list {
            Some(list) => &list[self.from + number],
            None => unreachable!(),
        }
    }

    /// The element with this number, if there is one.
    pub fn get(&self, number: usize) -> Option<&'a T>
        ensures { option_copied result ≡ slice_get self.now number }
    {
        if number < self.len() {
            Some(self.at(number))
        } else {
            None
        }
    }

    /// The elements after so many.
    pub fn after(&self, count: usize) -> Rest<'a, T>
        requires { count ≤ length self.now }
        ensures { result ≡ drop count self.now }
    {
        Rest {
            list: self.list,
            from: self.from + count,
            to: self.to,
        }
    }
}
