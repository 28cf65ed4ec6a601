//! What a node handed out, by its names in a story.
use std::alloc::{AllocError, Global};

/// Values with names, the oldest first.
#[derive(Drop)]
pub(crate) struct Table<T> {
    entries: Vec<(u64, T)>,
}

impl<T: Copy> Table<T> {
    pub(crate) fn new(alloc: Global) -> Table<T> {
        Table {
            entries: Vec::new(alloc),
        }
    }

    /// Nothing is kept any more.
    pub(crate) fn clear(&mut self) {
        self.entries.clear();
    }

    /// The value has this name.
    pub(crate) fn put(&mut self, name: u64, value: T) -> Result<(), AllocError> {
        self.entries.push((name, value))?;
        Ok(())
    }

    /// The last value of this name.
    pub(crate) fn last(&self, name: u64) -> Option<T> {
        let mut found = None;
        for (other, value) in &self.entries {
            if *other == name {
                found = Some(*value);
            }
        }
        found
    }
}
