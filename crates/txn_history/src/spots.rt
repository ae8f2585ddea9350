//! Where known keys are likely to stand.

use serial_spec::NoMemory;
use std::alloc::Global;

/// So many spots are told apart.
const SPOTS: usize = 4096;

/// For each spot, a number that whoever adds entries tells beside a key, the place of the key that was
/// told with it last among the known keys. It tells where to look first, so that any numbers would do.
#[derive(Drop)]
pub(crate) struct Spots {
    places: Vec<u16>,
}

impl Spots {
    /// Nothing is known. The only error is that memory runs out.
    pub(crate) fn new(alloc: Global) -> Result<Spots, NoMemory> {
        let mut places = Vec::new(alloc);
        places.resize(SPOTS, 0)?;
        Ok(Spots { places })
    }

    /// The place that was kept for the spot, or any.
    #[inline(always)]
    pub(crate) fn place(&self, spot: usize) -> usize {
        match self.places.get(spot % SPOTS) {
            Some(place) => *place as usize,
            None => 0,
        }
    }

    /// Keeps the place of a key for the spot.
    #[inline(always)]
    pub(crate) fn keep(&mut self, spot: usize, place: usize) {
        if let Ok(place) = u16::try_from(place) {
            if let Some(there) = self.places.get_mut(spot % SPOTS) {
                *there = place;
            }
        }
    }
}
