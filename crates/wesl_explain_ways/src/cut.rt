//! Lists without their middle where they are long.

use std::alloc::{AllocError, Global};

/// How many items a long list has at each end. One of no more than twice as many is whole.
pub const END: usize = 16;

const WHOLE: usize = 32;

/// A list, without its middle where it is long.
#[derive(Drop)]
pub struct Cut<T> {
    /// All items, or the first and behind them the last.
    items: Vec<T>,
    /// How many items are left out between these.
    pub left_out: usize,
}

/// Whether a list of so many items is cut.
pub fn is_cut(count: usize) -> bool {
    count > WHOLE
}

impl<T: Copy> Cut<T> {
    /// No items. They take no memory.
    pub fn new(alloc: Global) -> Cut<T> {
        Cut::whole(Vec::new(alloc))
    }

    /// A list of these items.
    pub fn whole(items: Vec<T>) -> Cut<T> {
        Cut { items, left_out: 0 }
    }

    /// A list of `count` items, more than are told of a whole one, that begins and ends with these.
    pub fn between(first: Vec<T>, last: &[T], count: usize) -> Result<Cut<T>, AllocError> {
        let mut items = first;
        items.extend_from_slice(last)?;
        let left_out = count.saturating_sub(items.len());
        Ok(Cut { items, left_out })
    }

    /// The items, without those that are left out.
    pub fn items(&self) -> &[T] {
        &self.items
    }

    /// The first items, or all of a list that is whole.
    pub fn beginning(&self) -> &[T] {
        if self.left_out == 0 {
            &self.items
        } else {
            self.items.get(..END).unwrap_or(&[])
        }
    }

    /// The last items, or all of a list that is whole.
    pub fn ending(&self) -> &[T] {
        if self.left_out == 0 {
            &self.items
        } else {
            self.items.get(END..).unwrap_or(&[])
        }
    }

    /// How many items the list has.
    pub fn len(&self) -> usize {
        self.items.len().saturating_add(self.left_out)
    }

    /// Whether the list has no items.
    pub fn is_empty(&self) -> bool {
        self.items.is_empty()
    }
}
