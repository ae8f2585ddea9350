//! What no clause says: that each call can succeed, and where a fault of the writer stops a write.
use std::alloc::Global;
use std::hash::{DefaultHasher, Hash, Hasher};
use std::io;
use std::io::{ErrorKind, Write};
use txn_bytes::{Held, WriteFault, are_same, put};

/// Takes up to `step` bytes at each of `calls` calls, and then answers an error, or that it took
/// nothing.
#[derive(Drop)]
struct Halting {
    taken: Vec<u8>,
    step: usize,
    calls: usize,
    fails: bool,
}

impl Write for Halting {
    fn write(&mut self, bytes: &[u8]) -> io::Result<usize> {
        if self.calls == 0 {
            return if self.fails {
                Err(io::Error::from(ErrorKind::Other))
            } else {
                Ok(0)
            };
        }
        self.calls -= 1;
        let count = bytes.len().min(self.step);
        self.taken.extend_from_slice(&bytes[..count])?;
        Ok(count)
    }

    fn flush(&mut self) -> io::Result<()> {
        Ok(())
    }
}

fn hash_of<T: Hash>(value: &T) -> u64 {
    let mut state = DefaultHasher::new();
    value.hash(&mut state);
    state.finish()
}

fn greater<T: Ord + Copy>(a: T, b: T) -> T {
    if a < b { b } else { a }
}

#[test]
fn holds_bytes(rt: HostRuntime) {
    let (short, long) = (Held::<4>::of(b"b"), Held::<4>::of(b"ab"));
    assert!(rt; Held::<4>::new().as_bytes().is_empty() && long.as_bytes() == b"ab".as_slice());
    assert!(rt; greater(short, long) == short && long != short);
    assert!(rt;
        hash_of(&long) == hash_of(&Held::<4>::of(b"ab")) && hash_of(&long) != hash_of(&short)
    );
}

// Bytes of each length up to 33 are the same as themselves, and not as the same with another byte at
// any place, or with one more.
#[test]
fn bytes_are_the_same(rt: HostRuntime) {
    let ours = [b'a'; 34];
    for len in 0..34 {
        let whole = &ours[..len];
        assert!(rt; are_same(whole, &[b'a'; 34][..len]), "{len}");
        assert!(rt; !are_same(whole, &ours[..len + 1]), "{len} and one more");
        for place in 0..len {
            let mut theirs = ours;
            theirs[place] = b'b';
            assert!(rt; !are_same(whole, &theirs[..len]), "{len}, at {place}");
        }
    }
}

// Whether seven bytes, three of them at each of so many calls, are answered as they have to be, and
// the writer has taken these then.
fn is_put(alloc: Global, calls: usize, fails: bool, want: &[u8]) -> bool {
    let mut out = Halting {
        taken: Vec::new(alloc),
        step: 3,
        calls,
        fails,
    };
    let wanted = if calls == 3 { Ok(()) } else { Err(WriteFault) };
    put(&mut &mut out, b"abcdefg") == wanted && out.taken.as_slice() == want
}

#[test]
fn writes_all_or_a_beginning(rt: HostRuntime) {
    for (calls, want) in [
        (0, "".as_bytes()),
        (1, b"abc"),
        (2, b"abcdef"),
        (3, b"abcdefg"),
    ] {
        for fails in [false, true] {
            assert!(rt;
                is_put(rt.alloc(), calls, fails, want),
                "after {calls} calls"
            );
        }
    }
}

#[test]
fn writes_to_memory(rt: HostRuntime) {
    let mut all = Vec::new(rt.alloc());
    assert!(rt; put(&mut all, b"abcdefg").is_ok() && all.as_slice() == b"abcdefg".as_slice());
}
