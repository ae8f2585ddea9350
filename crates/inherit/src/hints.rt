//! Where what belongs to a key mostly stands.

use std::alloc::Global;

/// Numbers by numbers, none of which anything rests on: a wrong one costs a look-up.
#[derive(Drop)]
pub(crate) struct Hints {
    hints: Vec<usize>,
}

/// Where there is no hint. Nothing stands there.
const NOWHERE: usize = usize::MAX;

impl Hints {
    /// No hints. It takes no memory yet.
    pub(crate) fn new(alloc: Global) -> Self {
        Hints {
            hints: Vec::new(alloc),
        }
    }

    /// The hint at this number, if there is one.
    #[inline(always)]
    pub(crate) fn at(&self, number: usize) -> Option<usize> {
        match self.hints.get(number) {
            Some(hint) if *hint != NOWHERE => Some(*hint),
            _ => None,
        }
    }

    /// Keeps a hint at this number, if there is memory for it.
    #[inline(always)]
    pub(crate) fn put(&mut self, number: usize, hint: usize) {
        if number < self.hints.len() {
            self.hints[number] = hint;
        } else {
            self.grow(number, hint);
        }
    }

    // The same at a number behind all that have a hint.
    #[inline(never)]
    fn grow(&mut self, number: usize, hint: usize) {
        for _ in self.hints.len()..number {
            if self.hints.push(NOWHERE).is_err() {
                return;
            }
        }
        let _ = self.hints.push(hint);
    }
}
