//! What values are compared and found by.
use std::hash::{DefaultHasher, Hash, Hasher};

/// The hash of a value by itself.
pub fn hash_of<T: Hash>(value: &T) -> u64 {
    let mut state = DefaultHasher::new();
    value.hash(&mut state);
    state.finish()
}

/// The greater of two.
pub fn greater<T: Ord + Copy>(a: T, b: T) -> T {
    if a < b { b } else { a }
}
