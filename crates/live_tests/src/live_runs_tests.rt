//! Requests that come in pieces, and the report that grows with them.
use durable_top::MemStore;
use live_runs::live_over;
use std::alloc::{AllocError, Global};
use std::io::{self, ErrorKind, Read, Write};
use std::process::Abort;

/// Two sessions of one job, lines that are not taken, and bytes that were cut off.
const REQUESTS: &[u8] =
    b"a begin job\nb begin job/part\n\nb set job/part x 5\na get job x\na commit job\nc after job done\nb commit job/part\na commit job\nb get job";

const REPORT: &[u8] =
    b"open\na 1 begin job -> ok\nb 1 begin job/part -> ok\nb 2 set job/part x 5 -> ok\na 2 get job x -> waits\nb 3 commit job/part -> ok\na 2 get job x -> value 5\na 3 commit job -> ok\ntable\nx=5\nend\n";

/// The same where the store finds no memory for the commit, and refuses it.
const REFUSED: &[u8] =
    b"open\na 1 begin job -> ok\nb 1 begin job/part -> ok\nb 2 set job/part x 5 -> ok\na 2 get job x -> waits\nb 3 commit job/part -> ok\na 2 get job x -> value 5\na 3 commit job -> refused store\n* close job\ntable\nend\n";

const TOLD: &[u8] = b"tx: line 3: empty\ntx: line 6: turn\ntx: line 7: word\ntx: line 10: end\n";

// Bytes that are given at most so many at a time. The call with this number, from 0, fails.
#[derive(Drop)]
struct Requests<'a> {
    rest: &'a [u8],
    piece: usize,
    calls: usize,
    fails_at: usize,
}

impl Read for Requests<'_> {
    fn read(&mut self, buf: &mut [u8]) -> io::Result<usize> {
        let call = self.calls;
        self.calls = call.wrapping_add(1);
        if call == self.fails_at {
            return Err(io::Error::from(ErrorKind::Other));
        }
        let len = self.rest.len().min(self.piece).min(buf.len());
        let (given, rest) = self.rest.split_at(len);
        buf[..len].copy_from_slice(given);
        self.rest = rest;
        Ok(len)
    }
}

fn reader(text: &[u8], piece: usize, fails_at: usize) -> Requests<'_> {
    Requests {
        rest: text,
        piece,
        calls: 0,
        fails_at,
    }
}

// Takes so many bytes, and then no more. It passes on what it took so many times, and then fails
// to.
#[derive(Drop)]
struct Narrow {
    taken: Vec<u8>,
    left: usize,
    flushes: usize,
}

impl Write for Narrow {
    fn write(&mut self, buf: &[u8]) -> io::Result<usize> {
        let len = buf.len().min(self.left);
        self.taken.extend_from_slice(&buf[..len])?;
        self.left -= len;
        Ok(len)
    }

    fn flush(&mut self) -> io::Result<()> {
        if self.flushes == 0 {
            return Err(io::Error::from(ErrorKind::Other));
        }
        self.flushes -= 1;
        Ok(())
    }
}

// It has room for the whole report.
fn writer(alloc: Global, left: usize, flushes: usize) -> Result<Narrow, AllocError> {
    Ok(Narrow {
        taken: Vec::with_capacity(alloc, REPORT.len())?,
        left,
        flushes,
    })
}

/// The exit status of a run, and what its two writers got.
#[derive(Drop)]
struct Told {
    status: u8,
    out: Vec<u8>,
    err: Vec<u8>,
}

impl Told {
    fn is(&self, status: u8, out: &[u8], err: &[u8]) -> bool {
        self.status == status && self.out.as_slice() == out && self.err.as_slice() == err
    }

    // Whether the run, or its store, found no memory. What was written is a beginning of a report
    // even so.
    fn wanted_memory(&self) -> bool {
        let out = self.out.as_slice();
        if REPORT.starts_with(out) {
            self.status == 1 && self.err.ends_with(b"tx: no memory\n")
        } else {
            REFUSED.starts_with(out)
        }
    }
}

fn lived_once(
    alloc: Global,
    input: &mut Requests<'_>,
    left: usize,
    flushes: usize,
) -> Result<Told, AllocError> {
    let store = MemStore::new(alloc, &[])?;
    let mut out = writer(alloc, left, flushes)?;
    let mut err = Vec::with_capacity(alloc, 200)?;
    let ended = live_over(alloc, input, store, &mut &mut out, &mut err);
    Ok(Told {
        status: ended.status,
        out: out.taken,
        err,
    })
}

// A run that finds no memory is made again, from the first request on.
fn lived(
    rt: &impl Abort,
    alloc: Global,
    text: &[u8],
    piece: usize,
    fails_at: usize,
    left: usize,
    flushes: usize,
) -> Told {
    if let Ok(told) = lived_once(alloc, &mut reader(text, piece, fails_at), left, flushes) {
        if !told.wanted_memory() {
            return told;
        }
    }
    lived_once(alloc, &mut reader(text, piece, fails_at), left, flushes).expect(rt, "memory")
}

#[test]
fn requests_in_pieces(rt: HostRuntime) {
    for piece in [1, 7, 4096] {
        let told = lived(
            &rt,
            rt.alloc(),
            REQUESTS,
            piece,
            usize::MAX,
            usize::MAX,
            usize::MAX,
        );
        assert!(rt; told.is(0, REPORT, TOLD), "in pieces of {piece}");
    }
}

#[test]
fn a_reader_that_fails(rt: HostRuntime) {
    // The first line is given, and then the reader fails.
    let told = lived(
        &rt,
        rt.alloc(),
        b"a begin job\na set job\nb",
        12,
        1,
        usize::MAX,
        usize::MAX,
    );
    assert!(rt; told.is(1, b"open\na 1 begin job -> ok\n", b"tx: cannot read -\n"));
}

#[test]
fn a_reader_that_fails_anywhere(rt: HostRuntime) {
    for call in 0..REQUESTS.len() {
        let told = lived(&rt, rt.alloc(), REQUESTS, 1, call, usize::MAX, usize::MAX);
        assert!(rt;
            told.status == 1 && REPORT.starts_with(told.out.as_slice()),
            "at {call}"
        );
        assert!(rt; told.err.ends_with(b"tx: cannot read -\n"), "at {call}");
    }
}

#[test]
fn a_writer_that_takes_no_more(rt: HostRuntime) {
    for left in 0..REPORT.len() {
        let told = lived(
            &rt,
            rt.alloc(),
            REQUESTS,
            4096,
            usize::MAX,
            left,
            usize::MAX,
        );
        assert!(rt;
            told.status == 1 && told.out.as_slice() == &REPORT[..left],
            "after {left} bytes"
        );
        assert!(rt;
            told.err.ends_with(b"tx: cannot write\n"),
            "after {left} bytes"
        );
    }
}

#[test]
fn a_writer_that_passes_nothing_on(rt: HostRuntime) {
    // The opening, six requests that bring something about, and the end.
    for flushes in 0..8 {
        let told = lived(
            &rt,
            rt.alloc(),
            REQUESTS,
            4096,
            usize::MAX,
            usize::MAX,
            flushes,
        );
        assert!(rt;
            told.status == 1 && REPORT.starts_with(told.out.as_slice()),
            "after {flushes}"
        );
        assert!(rt;
            told.err.ends_with(b"tx: cannot write\n"),
            "after {flushes}"
        );
    }
}
