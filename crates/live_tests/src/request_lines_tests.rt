//! Lines off readers that give a few bytes at a time, are interrupted, or fail.
use request_lines::{MOST_BYTES, RequestLines, Taken};
use std::io::{self, ErrorKind, Read};
use txn_bytes::ReadFault;

// Bytes that are given at most so many at a time. The call with this number, from 0, answers this
// error.
#[derive(Drop)]
struct Piecemeal<'a> {
    rest: &'a [u8],
    piece: usize,
    calls: usize,
    fails_at: usize,
    fault: ErrorKind,
}

impl Read for Piecemeal<'_> {
    fn read(&mut self, buf: &mut [u8]) -> io::Result<usize> {
        let call = self.calls;
        self.calls = call.wrapping_add(1);
        if call == self.fails_at {
            return Err(self.fault.into());
        }
        let len = self.rest.len().min(self.piece).min(buf.len());
        let (given, rest) = self.rest.split_at(len);
        buf[..len].copy_from_slice(given);
        self.rest = rest;
        Ok(len)
    }
}

fn reader(text: &[u8], piece: usize, fails_at: usize, fault: ErrorKind) -> Piecemeal<'_> {
    Piecemeal {
        rest: text,
        piece,
        calls: 0,
        fails_at,
        fault,
    }
}

// Whether the lines that are taken are these, each with what is kept of it.
fn are_taken(
    input: &mut Piecemeal<'_>,
    lines: &mut RequestLines,
    wanted: &[(Result<Taken, ReadFault>, &[u8])],
) -> bool {
    for (taken, kept) in wanted {
        if lines.take_line(input) != *taken || lines.line() != *kept {
            return false;
        }
    }
    true
}

fn is_read(
    text: &[u8],
    piece: usize,
    fails_at: usize,
    fault: ErrorKind,
    wanted: &[(Result<Taken, ReadFault>, &[u8])],
) -> bool {
    let mut lines = RequestLines::new();
    are_taken(
        &mut reader(text, piece, fails_at, fault),
        &mut lines,
        wanted,
    )
}

#[test]
fn lines_in_pieces(rt: HostRuntime) {
    for piece in [1, 2, 5, 11, 5000] {
        assert!(rt;
            is_read(
                b"s begin a\n\nt get a x\nrest",
                piece,
                usize::MAX,
                ErrorKind::Other,
                &[
                    (Ok(Taken::Whole), b"s begin a"),
                    (Ok(Taken::Whole), b""),
                    (Ok(Taken::Whole), b"t get a x"),
                    (Ok(Taken::Cut), b"rest"),
                    (Ok(Taken::End), b""),
                    (Ok(Taken::End), b""),
                ]
            )
        );
    }
}

#[test]
fn a_read_that_is_interrupted(rt: HostRuntime) {
    for call in 0..4 {
        assert!(rt;
            is_read(
                b"a\nb",
                2,
                call,
                ErrorKind::Interrupted,
                &[
                    (Ok(Taken::Whole), b"a"),
                    (Ok(Taken::Cut), b"b"),
                    (Ok(Taken::End), b""),
                ]
            )
        );
    }
}

#[test]
fn a_read_that_fails(rt: HostRuntime) {
    // Both lines were given by the first call: nothing is asked before they are taken.
    assert!(rt;
        is_read(
            b"a\nb\nc",
            5,
            1,
            ErrorKind::Other,
            &[
                (Ok(Taken::Whole), b"a"),
                (Ok(Taken::Whole), b"b"),
                (Err(ReadFault), b"c"),
                (Ok(Taken::End), b""),
            ]
        )
    );
}

#[test]
fn long_lines(rt: HostRuntime) {
    let mut text = [b'x'; 2 * MOST_BYTES + 4];
    text[MOST_BYTES] = b'\n';
    text[2 * MOST_BYTES + 2] = b'\n';
    for piece in [1, 100, 5000] {
        assert!(rt;
            is_read(
                &text,
                piece,
                usize::MAX,
                ErrorKind::Other,
                &[
                    (Ok(Taken::Whole), &[b'x'; MOST_BYTES]),
                    (Ok(Taken::Long), &[b'x'; MOST_BYTES]),
                    (Ok(Taken::Cut), b"x"),
                    (Ok(Taken::End), b""),
                ]
            )
        );
    }
}
