//! Long lists, kept in pages.
ghost use Rattle.std.specs.Prelude.{◌≡◌, ◌<◌, ◌==◌, ◌++◌, ◌∷◌, [], IfOk, OnErr, OnOk, Some, length, slice_get, slice_index_or};
ghost use Rattle.std.specs.Option.{option_copied};
ghost use Rattle.aud_base.specs.Private.Pages.{are_full, elements};

use std::alloc::{AllocError, Global};
use std::marker::Model;
use std::mem;
use std::ops::Index;

/// The most elements of a page.
const PAGE: usize = 4_096;

/// Elements in their order, seen as their list. They are kept in pages, so that no more than one page is copied when
/// the list grows, however long it is; the first page grows with its elements, and each other one is made whole.
#[derive(Drop)]
pub struct Paged<T> {
    alloc: Global,
    full: Vec<Vec<T>>,
    /// The page after the full ones.
    last: Vec<T>,
    len: usize,
}

impl<T> Model for Paged<T> {
    ghost use Rattle.std.specs.Prelude.{List, length, ◌≡◌, ◌≤◌};
    ghost use Rattle.std.specs.Coded.{coded_list};

    ghost Value = { List T };

    ghost coded = { coded_list T.code };

    ghost use Rattle.aud_base.specs.Private.Pages.{elements, are_full};

    ghost view = { λ l. elements l.full.items l.last.items };

    ghost invariant = { λ l. are_full l.full.items × (length l.last.items ≤ 4096) × (l.len ≡ length (elements l.full.items l.last.items)) };
}

impl<T> Paged<T> {
    /// No elements.
    pub fn new(alloc: Global) -> Paged<T>
        ensures { result ≡ [] }
    {
        Paged {
            alloc,
            full: Vec::new(alloc),
            last: Vec::new(alloc),
            len: 0,
        }
    }

    /// How many elements there are.
    pub fn len(&self) -> usize
        ensures { result ≡ length self.now }
    {
        self.len
    }

    pub fn is_empty(&self) -> bool
        ensures { result ≡ (length self.now == 0) }
    {
        self.len == 0
    }

    /// The element with this number, which counts from 0.
    pub fn get(&self, number: usize) -> Option<&T>
        ensures { option_copied result ≡ slice_get self.now number }
    {
        if number < self.len {
            Some(element(&self.full, &self.last, number))
        } else {
            None
        }
    }
}

impl<T: Drop> Paged<T> {
    /// Adds the element at the end.
    pub fn push(&mut self, item: T) -> Result<(), AllocError>
        ensures added { OnOk result (self.new ≡ self.old ++ item ∷ []) }
        ensures unchanged { OnErr result (self.new ≡ self.old) }
    {
        let Some(len) = self.len.checked_add(1) else {
            return Err(AllocError);
        };
        if self.last.len() == PAGE {
            turn_page(self.alloc, &mut self.full, &mut self.last)?;
        }
        self.last.push(item)?;
        self.len = len;
        Ok(())
    }

    /// The elements, in a vector with room for no others. Each page is dropped once its elements are moved there.
    pub fn into_vec(self) -> Result<Vec<T>, AllocError>
        ensures { IfOk result (λ all. all.items ≡ self) }
    {
        let Paged {
            alloc,
            full,
            last,
            len,
        } = self;
        let mut all = Vec::with_capacity(alloc, len)?;
        for page in full {
            move_to(&mut all, page)?;
        }
        move_to(&mut all, last)?;
        Ok(all)
    }
}

/// Moves the elements of the page after all others.
fn move_to<T: Drop>(all: &mut Vec<T>, page: Vec<T>) -> Result<(), AllocError>
    ensures { OnOk result (all.new.items ≡ all.old.items ++ page.items) }
{
    let mut page = page;
    all.append(&mut page)?;
    Ok(())
}

impl<T> Index<usize> for Paged<T> {
    type Output = T;

    ghost can_index = { λ list number. number < length list };

    ghost index_gives = { λ list number item. item ≡ slice_index_or list number item };

    fn index(&self, number: usize) -> &T
        requires { number < length self.now }
        ensures { result.now ≡ slice_index_or self.now number result.now }
    {
        element(&self.full, &self.last, number)
    }
}

/// The element with this number, of full pages and the one after them.
fn element<'p, T>(full: &'p [Vec<T>], last: &'p [T], number: usize) -> &'p T
    requires full { are_full full.now }
    requires within { number < length (elements full.now last.now) }
    ensures { slice_get (elements full.now last.now) number ≡ Some result.now }
{
    let page = number / PAGE;
    if page < full.len() {
        &full[page].as_slice()[number % PAGE]
    } else {
        &last[number - full.len() * PAGE]
    }
}

/// Puts the page after the full ones, and an empty one in its place; where memory runs out, all stays.
fn turn_page<T: Drop>(
    alloc: Global,
    full: &mut Vec<Vec<T>>,
    last: &mut Vec<T>,
) -> Result<(), AllocError>
    requires { length last.old.items ≡ 4096 }
    ensures same { elements full.new.items last.new.items ≡ elements full.old.items last.old.items }
    ensures empty { OnOk result (last.new.items ≡ []) }
    ensures unchanged { OnErr result (last.new.items ≡ last.old.items) }
    ensures full { are_full full.old.items → are_full full.new.items }
{
    let next = Vec::with_capacity(alloc, PAGE)?;
    let page = mem::replace(last, next);
    if let Err(failed) = full.push(page) {
        *last = failed.value;
        return Err(AllocError);
    }
    Ok(())
}
