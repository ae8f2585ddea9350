//! The program by its words, over files and databases.
use std::fs;
use std::process::Abort;
use std::rt::HostRuntime;
use std::sync::Wait;
use std::thread::Threads;
use std::time::Clock;
use test_kit::Told;
use test_kit::texts::{DONE, DONE_REPORT, EMPTY_REPORT, FIRST, FIRST_REPORT};
use tx_machine::Machine;
use tx_program::tx_main;

/// What the program has to tell.
#[derive(Clone, Copy)]
enum Due<'a> {
    /// This report or these rows, and nothing else.
    Whole(&'a [u8]),
    /// This fault alone.
    Fault(&'a str),
    /// This exit status and this output alone.
    Verdict(u8, &'a str),
    /// The whole report, and these lines beside it.
    Beside(&'a [u8], &'a str),
    /// That the words are no command line.
    Misuse,
}

/// A call: the words, the words of a path behind them, and the bytes on the standard input.
pub(crate) type Call<'a> = (&'a str, &'a str, &'a [u8]);

fn is_due(told: &Told, due: Due<'_>) -> bool {
    match due {
        Due::Whole(report) => told.is_report(report),
        Due::Fault(line) => told.is_fault(line),
        Due::Verdict(status, line) => told.is(status, line.as_bytes(), b""),
        Due::Beside(report, lines) => told.is(0, report, lines.as_bytes()),
        Due::Misuse => told.is_misuse(),
    }
}

/// What the program does with these words.
pub(crate) fn run_with<R: Abort + Threads + Wait + Clock + Sync>(
    rt: &R,
    host: &HostRuntime,
    (words, path, requests): Call<'_>,
) -> Told {
    let mut input = requests;
    let mut all = Vec::new(host.alloc());
    for word in words.split_whitespace().chain(path.split_whitespace()) {
        let word = String::from_str(host.alloc(), word).expect(rt, "memory");
        all.push(word).expect(rt, "memory");
    }
    let mut out = Vec::new(host.alloc());
    let mut err = Vec::new(host.alloc());
    let mut machine = Machine::new(host);
    let status = tx_main(
        &mut machine,
        rt,
        host.alloc(),
        all.as_slice(),
        &mut input,
        &mut out,
        &mut err,
    );
    Told { status, out, err }
}

// Makes these calls, one after another, of which each has to tell what is due.
fn calls<R: Abort + Threads + Wait + Clock + Sync>(
    rt: &R,
    host: &HostRuntime,
    calls: &[(Call<'_>, Due<'_>)],
) {
    for (call, due) in calls {
        let told = run_with(rt, host, *call);
        assert!(rt; is_due(&told, *due), "{} {}", call.0, call.1);
    }
}

// The same in a folder that is new, with these files in it, and removed behind them.
fn calls_in<R: Abort + Threads + Wait + Clock + Sync>(
    rt: &R,
    host: &HostRuntime,
    folder: &str,
    files: &[(&str, &[u8])],
    given: &[(Call<'_>, Due<'_>)],
) {
    let _ = fs::remove_dir_all(host, folder);
    fs::create_dir_all(host, folder).expect(rt, folder);
    for (file, bytes) in files {
        fs::write(host, *file, *bytes).expect(rt, *file);
    }
    calls(rt, host, given);
    fs::remove_dir_all(host, folder).expect(rt, folder);
}

const NO_DATABASE: &[u8] = b"no database, but some text";

#[test]
fn program_on_files(rt: HostRuntime) {
    let files: [(&str, &[u8]); 3] = [
        ("file_test/first.tx", FIRST),
        ("file_test/empty.tx", b""),
        ("file_test/fault.tx", b"session s\nbegin a"),
    ];
    let given: [(Call<'_>, Due<'_>); 4] = [
        (
            ("replay file_test/first.tx", "", b""),
            Due::Whole(FIRST_REPORT),
        ),
        (
            ("replay file_test/empty.tx", "", b""),
            Due::Whole(EMPTY_REPORT),
        ),
        (
            ("replay file_test/fault.tx", "", b""),
            Due::Fault("tx: line 2: end\n"),
        ),
        (
            ("replay nosuch.tx", "", b""),
            Due::Fault("tx: cannot read nosuch.tx\n"),
        ),
    ];
    calls_in(&rt, &rt, "file_test", &files, &given);
}

/// The first text's lines as requests, and one that is not taken.
const REQUESTS: &[u8] = b"s begin a\ns set a x 5\nt after a done\ns get a x\ns commit a\n";

const NOT_TAKEN: &str = "tx: line 3: word\n";

/// A run of no session over the row that the first text leaves.
const LATER_REPORT: &[u8] = b"open\nx=5\ntable\nx=5\nend\n";

// What a live run leaves in a database is there for the next.
#[test]
fn program_on_requests(rt: HostRuntime) {
    let files: [(&str, &[u8]); 1] = [("live_test/no.db", NO_DATABASE)];
    let given: [(Call<'_>, Due<'_>); 4] = [
        (("live", "", REQUESTS), Due::Beside(FIRST_REPORT, NOT_TAKEN)),
        (
            ("live --db", "live_test/a.db", REQUESTS),
            Due::Beside(FIRST_REPORT, NOT_TAKEN),
        ),
        (
            ("live --db", "live_test/a.db", b""),
            Due::Whole(LATER_REPORT),
        ),
        (
            ("live --db", "live_test/no.db", REQUESTS),
            Due::Fault("tx: cannot open database\n"),
        ),
    ];
    calls_in(&rt, &rt, "live_test", &files, &given);
}

// What one run leaves in a database is there for the next. The file is read first, then the database
// is opened, then come the text and the schedule. What was not run stored nothing.
#[test]
fn program_on_a_database(rt: HostRuntime) {
    let files: [(&str, &[u8]); 4] = [
        ("db_test/first.tx", FIRST),
        ("db_test/empty.tx", b""),
        ("db_test/bad.tx", b"session s\nbegin"),
        ("db_test/no.db", NO_DATABASE),
    ];
    let (first, later) = (
        "replay db_test/first.tx --db",
        "replay db_test/empty.tx --db",
    );
    let given: [(Call<'_>, Due<'_>); 8] = [
        ((first, "db_test/a.db", b""), Due::Whole(FIRST_REPORT)),
        ((later, "db_test/a.db", b""), Due::Whole(LATER_REPORT)),
        (
            (first, "db_test/no.db", b""),
            Due::Fault("tx: cannot open database\n"),
        ),
        (
            ("replay no.tx --db", "db_test/no.db", b""),
            Due::Fault("tx: cannot read no.tx\n"),
        ),
        (
            ("replay db_test/bad.tx --db", "db_test/no.db", b""),
            Due::Fault("tx: cannot open database\n"),
        ),
        (
            (
                "replay db_test/bad.tx --schedule 7 --db",
                "db_test/b.db",
                b"",
            ),
            Due::Fault("tx: line 2: end\n"),
        ),
        (
            (
                "replay db_test/first.tx --schedule 0,1 --db",
                "db_test/b.db",
                b"",
            ),
            Due::Fault("tx: schedule: item 2\n"),
        ),
        ((later, "db_test/b.db", b""), Due::Whole(EMPTY_REPORT)),
    ];
    calls_in(&rt, &rt, "db_test", &files, &given);
}

/// Words that are no command line.
const MISUSES: [&str; 38] = [
    "",
    "--help",
    "start first.tx",
    "run",
    "run a b",
    "run a --workers",
    "run a --workers 0",
    "run a --workers 17",
    "run a --workers 04",
    "run a --workers -1",
    "run a --workers two",
    "run a --schedule 0",
    "live a",
    "live --db",
    "live --workers 2",
    "live --help",
    "replay",
    "replay a b",
    "replay a --workers 2",
    "replay a --db",
    "replay a --schedule",
    "check",
    "check a b",
    "check a --db b",
    "check --help",
    "show",
    "show a b",
    "show a --jobs b",
    "show a --db b",
    "show --help",
    "draw",
    "draw a b",
    "draw a --jobs",
    "draw --help",
    "rows",
    "rows a b",
    "rows a --db b",
    "rows --help",
];

#[test]
fn words_that_are_no_command_line(rt: HostRuntime) {
    for words in MISUSES {
        calls(&rt, &rt, &[((words, "", b""), Due::Misuse)]);
    }
}

// A text of one session and a list that names a second one, by the program.
#[test]
fn program_by_a_schedule(rt: HostRuntime) {
    let files: [(&str, &[u8]); 1] = [("list_test/one.tx", b"session s\nbegin a\ncommit a\n")];
    let given: [(Call<'_>, Due<'_>); 3] = [
        (
            ("replay list_test/one.tx --schedule 0,0,0", "", b""),
            Due::Whole(b"open\ns 1 begin a -> ok\ns 2 commit a -> ok\ntable\nend\n"),
        ),
        (
            ("replay list_test/one.tx --schedule 0,1", "", b""),
            Due::Fault("tx: schedule: item 2\n"),
        ),
        (
            ("replay --schedule 1 list_test/one.tx", "", b""),
            Due::Fault("tx: schedule: item 1\n"),
        ),
    ];
    calls_in(&rt, &rt, "list_test", &files, &given);
}

// One session has one order, whoever takes its lines.
#[test]
fn program_by_workers(rt: HostRuntime) {
    let files: [(&str, &[u8]); 3] = [
        ("run_test/first.tx", FIRST),
        ("run_test/done.tx", DONE),
        ("run_test/fault.tx", b"session s\nbegin a"),
    ];
    let given: [(Call<'_>, Due<'_>); 5] = [
        (("run run_test/first.tx", "", b""), Due::Whole(FIRST_REPORT)),
        (
            ("run run_test/done.tx --workers 16", "", b""),
            Due::Whole(DONE_REPORT),
        ),
        (
            ("run run_test/fault.tx", "", b""),
            Due::Fault("tx: line 2: end\n"),
        ),
        (
            ("run nosuch.tx --workers 1", "", b""),
            Due::Fault("tx: cannot read nosuch.tx\n"),
        ),
        (
            (
                "run run_test/first.tx --workers 2 --db",
                "run_test/a.db",
                b"",
            ),
            Due::Whole(FIRST_REPORT),
        ),
    ];
    calls_in(&rt, &rt, "run_test", &files, &given);
}

/// Two sessions that write one key.
const TWO: &[u8] =
    b"session l\nbegin a\nset a x 1\ncommit a\nsession r\nbegin b\nset b x 2\ncommit b\n";

/// Its report where the second session goes first.
const SECOND_FIRST: &[u8] = b"open\nr 1 begin b -> ok\nr 2 set b x 2 -> ok\nr 3 commit b -> ok
l 1 begin a -> ok\nl 2 set a x 1 -> ok\nl 3 commit a -> ok\ntable\nx=1\nend\n";

/// Its report by rounds alone.
const BY_ROUNDS: &[u8] = b"open\nl 1 begin a -> ok\nr 1 begin b -> ok\nl 2 set a x 1 -> ok
r 2 set b x 2 -> waits\nl 3 commit a -> ok\nr 2 set b x 2 -> ok\nr 3 commit b -> ok\ntable\nx=2\nend\n";

// A list chooses which session goes first, in memory and over a database.
#[test]
fn program_of_two_sessions(rt: HostRuntime) {
    let files: [(&str, &[u8]); 1] = [("two_test/two.tx", TWO)];
    let given: [(Call<'_>, Due<'_>); 3] = [
        (
            ("replay two_test/two.tx --schedule 1,1,1", "", b""),
            Due::Whole(SECOND_FIRST),
        ),
        (("replay two_test/two.tx", "", b""), Due::Whole(BY_ROUNDS)),
        (
            (
                "replay two_test/two.tx --schedule 1,1,1 --db",
                "two_test/a.db",
                b"",
            ),
            Due::Whole(SECOND_FIRST),
        ),
    ];
    calls_in(&rt, &rt, "two_test", &files, &given);
}

#[test]
fn program_that_judges(rt: HostRuntime) {
    let files: [(&str, &[u8]); 3] = [
        ("check_test/yes", BY_ROUNDS),
        (
            "check_test/row",
            b"open\ns 1 begin a -> ok\ns 2 commit a -> ok\ntable\nx=5\nend\n",
        ),
        ("check_test/empty", b""),
    ];
    let given: [(Call<'_>, Due<'_>); 4] = [
        (("check check_test/yes", "", b""), Due::Verdict(0, "yes\n")),
        (("check check_test/row", "", b""), Due::Verdict(1, "no 5\n")),
        (
            ("check check_test/empty", "", b""),
            Due::Verdict(1, "no 1\n"),
        ),
        (
            ("check nosuch", "", b""),
            Due::Fault("tx: cannot read nosuch\n"),
        ),
    ];
    calls_in(&rt, &rt, "check_test", &files, &given);
}

/// Texts that are run over one database, one after another, and what its rows are then.
const NUMBERED: [(&[u8], &[u8]); 5] = [
    (b"", b""),
    (
        b"session s\nbegin a\nset a y 1\ncommit a\nbegin b\nset b x 2\ncommit b\n",
        b"x=2 2\ny=1 1\n",
    ),
    (
        b"session s\nbegin c\ndel c x\nset c z 5\ncommit c\n",
        b"y=1 1\nz=5 3\n",
    ),
    (b"session s\nbegin d\ndel d z\ncommit d\n", b"y=1 1\n"),
    (b"session s\nbegin e\nset e y 7\ncommit e\n", b"y=7 2\n"),
];

// Runs the text over the database, which then has these rows.
fn runs_to<R: Abort + Threads + Wait + Clock + Sync>(
    rt: &R,
    host: &HostRuntime,
    text: &[u8],
    rows: &[u8],
) {
    fs::write(host, "rows_test/a.tx", text).expect(rt, "file");
    let told = run_with(
        rt,
        host,
        ("replay rows_test/a.tx --db rows_test/a.db", "", b""),
    );
    assert!(rt; told.status == 0);
    calls(
        rt,
        host,
        &[(("rows rows_test/a.db", "", b""), Due::Whole(rows))],
    );
}

// A commit has the number behind the greatest that is left.
#[test]
fn program_that_lists(rt: HostRuntime) {
    let _ = fs::remove_dir_all(&rt, "rows_test");
    fs::create_dir_all(&rt, "rows_test").expect(&rt, "folder");
    for (text, rows) in NUMBERED {
        runs_to(&rt, &rt, text, rows);
    }
    let given: [(Call<'_>, Due<'_>); 2] = [
        (("rows rows_test/new.db", "", b""), Due::Whole(b"")),
        (
            ("rows rows_test", "", b""),
            Due::Fault("tx: cannot open database\n"),
        ),
    ];
    calls(&rt, &rt, &given);
    fs::remove_dir_all(&rt, "rows_test").expect(&rt, "folder");
}
