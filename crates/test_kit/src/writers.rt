//! A writer that takes no more behind some byte, or passes nothing more on.
use std::io::{self, ErrorKind, Write};

/// Takes up to `step` bytes at each call, `left` bytes in all, and passes them on `flushes` times.
/// Where no byte is left it takes none, or answers an error if it `fails`.
#[derive(Drop)]
pub struct Narrow {
    pub taken: Vec<u8>,
    pub step: usize,
    pub left: usize,
    pub flushes: usize,
    pub fails: bool,
}

impl Narrow {
    /// A writer that takes so many bytes, as many of them at a call as there are, and then none. It
    /// passes them on so many times. What it takes is put behind these bytes.
    pub fn new(taken: Vec<u8>, left: usize, flushes: usize) -> Narrow {
        Narrow {
            taken,
            step: usize::MAX,
            left,
            flushes,
            fails: false,
        }
    }
}

impl Write for Narrow {
    fn write(&mut self, bytes: &[u8]) -> io::Result<usize> {
        if self.left == 0 {
            return if self.fails {
                Err(io::Error::from(ErrorKind::Other))
            } else {
                Ok(0)
            };
        }
        let count = bytes.len().min(self.step).min(self.left);
        self.taken.extend_from_slice(&bytes[..count])?;
        self.left -= count;
        Ok(count)
    }

    fn flush(&mut self) -> io::Result<()> {
        if self.flushes == 0 {
            return Err(io::Error::from(ErrorKind::Other));
        }
        self.flushes -= 1;
        Ok(())
    }
}
