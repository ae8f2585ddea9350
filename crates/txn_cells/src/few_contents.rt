//! A few contents in the value itself.
ghost use Rattle.std.specs.Prelude.{◌≡◌, ◌≤◌, ◌<◌, ◌∷◌, [], length, slice_get, slice_set, take, None, Some};
ghost use Rattle.std.specs.List.{insert, remove};
ghost use Rattle.txn_cells.specs.Kept.{in_value};

use std::marker::Model;

/// So many contents lie in the value itself.
pub(crate) const IN_VALUE: usize = 4;

/// Contents in their order, at most `IN_VALUE`. Each lies in a field of its own, since an array of
/// a type parameter would have a size without bound. What lies in the fields past the count is none
/// of them.
#[derive(Drop)]
pub(crate) struct FewContents<V: Copy> {
    count: usize,
    first: Option<V>,
    second: Option<V>,
    third: Option<V>,
    fourth: Option<V>,
}

impl<V: Copy> Model for FewContents<V> {
    ghost use Rattle.std.specs.Prelude.{◌≤◌, ◌∷◌, [], List, Option, take};
    ghost use Rattle.txn_cells.specs.Kept.{in_value};

    ghost Value = { List (Option V) };

    ghost view = { λ c. take c.count (c.first ∷ c.second ∷ c.third ∷ c.fourth ∷ []) };

    ghost invariant = { λ c. c.count ≤ in_value };
}

impl<V: Copy> FewContents<V> {
    /// No contents.
    pub(crate) fn new() -> Self
        ensures { result ≡ [] }
    {
        FewContents {
            count: 0,
            first: None,
            second: None,
            third: None,
            fourth: None,
        }
    }

    /// How many there are.
    pub(crate) fn len(&self) -> usize
        ensures is { result ≡ length self.now }
        ensures fits { result ≤ in_value }
    {
        self.count
    }

    /// The content at this place.
    #[inline(always)]
    pub(crate) fn at(&self, place: usize) -> Option<V>
        requires { place < length self.now }
        ensures { slice_get self.now place ≡ Some result }
    {
        match place {
            0 => self.first,
            1 => self.second,
            2 => self.third,
            _ => self.fourth,
        }
    }

    /// Sets the content at this place.
    #[inline(always)]
    pub(crate) fn put(&mut self, place: usize, content: Option<V>)
        requires { place < length self.old }
        ensures { self.new ≡ slice_set self.old place content }
    {
        match place {
            0 => self.first = content,
            1 => self.second = content,
            2 => self.third = content,
            _ => self.fourth = content,
        }
    }

    /// Puts an empty content in at this place. There is room for it.
    #[inline(always)]
    pub(crate) fn insert(&mut self, place: usize)
        requires within { place ≤ length self.old }
        requires room { length self.old < in_value }
        ensures { self.new ≡ insert self.old place None }
    {
        match place {
            0 => {
                self.fourth = self.third;
                self.third = self.second;
                self.second = self.first;
                self.first = None;
            }
            1 => {
                self.fourth = self.third;
                self.third = self.second;
                self.second = None;
            }
            2 => {
                self.fourth = self.third;
                self.third = None;
            }
            _ => self.fourth = None,
        }
        self.count += 1;
    }

    /// Takes out the content at this place, and gives it.
    #[inline(always)]
    pub(crate) fn remove(&mut self, place: usize) -> Option<V>
        requires { place < length self.old }
        ensures had { slice_get self.old place ≡ Some result }
        ensures left { self.new ≡ remove self.old place }
    {
        let had = self.at(place);
        match place {
            0 => {
                self.first = self.second;
                self.second = self.third;
                self.third = self.fourth;
            }
            1 => {
                self.second = self.third;
                self.third = self.fourth;
            }
            2 => self.third = self.fourth,
            _ => {}
        }
        self.count -= 1;
        had
    }
}
