//! What stands around the bars: the head, the times, the legend and the summary.
ghost use Rattle.std.specs.Prelude.{◌≡◌, ◌++◌, OnOk};
ghost use Rattle.line_language.specs.Words.{cut_at};
ghost use Rattle.tree_pictures.specs.Frame.{head, head_text, legend, notes, step_of, time_at, time_if, times, times_to, note_line, opening};

use crate::elements::{put_text_at, put_upright};
use crate::scale::{Scale, TOP, WIDTH, plus};
use crate::text::{put_tenths, put_text};
use line_language::cut_line;
use serial_spec::NoMemory;
use tree_lines::{put_bytes, put_counted, put_number};

/// Colours and patterns: what became of a transaction is told apart without colour too. What
/// committed has a solid edge, and what was undone a dashed one.
const STYLE: &[u8] = b"<style>svg{width:100%;min-width:900px;height:auto}\
text{font:11px system-ui,sans-serif;fill:#222}.head{font-size:14px;font-weight:600}\
.time{fill:#777;text-anchor:middle}.grid{stroke:#ddd}\
.committed{fill:#dff1e8;stroke:#2f7d5b}.request{fill:#fbefd5;stroke:#9a6a00;stroke-dasharray:3 2}\
.victim{fill:#fbdcd9;stroke:#b3261e;stroke-width:2;stroke-dasharray:4 2}\
.parent{fill:#eee;stroke:#777;stroke-dasharray:1 2}\
.close{fill:#e6e6f3;stroke:#5b5b8a;stroke-dasharray:6 2}\
.later{fill:#f3e6f0;stroke:#7d2f68;stroke-dasharray:6 2 1 2}\
.live{fill:none;stroke:#444}.together{fill:#ccc;stroke:#555}.mixed{fill:#e3cfcd;stroke:#b3261e;stroke-dasharray:3 2}\
.wait{fill:url(#hatch);stroke:none}.tick{fill:none;stroke:#222;pointer-events:none}\
.arrow{stroke:#b3261e;marker-end:url(#tip);pointer-events:none}.cross{stroke:#b3261e;stroke-width:2}\
rect:hover,.cross:hover{stroke-width:3}\
@media(prefers-color-scheme:dark){svg{background:#1b1b1b}text{fill:#eee}.time{fill:#aaa}\
.grid{stroke:#444}.committed{fill:#1f4a38}.request{fill:#4d3a10}.victim{fill:#5a1e1a}\
.parent{fill:#333}.close{fill:#2e2e4a}.later{fill:#46233c}.live{stroke:#bbb}.together{fill:#555}.mixed{fill:#6b4a48}\
.tick{stroke:#eee}.arrow,.cross{stroke:#ff8a80}}\
</style>\n";

/// What hatches waits, and the tip of an arrow.
const PATTERNS: &[u8] = b"<defs><pattern id=\"hatch\" width=\"6\" height=\"6\" \
patternUnits=\"userSpaceOnUse\" patternTransform=\"rotate(45)\">\
<rect width=\"3\" height=\"6\" fill=\"#b3261e\" opacity=\".55\"/></pattern>\
<marker id=\"tip\" viewBox=\"0 0 6 6\" refX=\"6\" refY=\"3\" markerWidth=\"6\" markerHeight=\"6\" \
orient=\"auto\"><path d=\"M0 0L6 3L0 6Z\" fill=\"#b3261e\"/></marker></defs>\n";

/// What the bars and marks say.
const LEGEND: &[u8] = b"\
<rect class=\"committed\" x=\"10\" y=\"0\" width=\"16\" height=\"11\"/>\
<text x=\"32\" y=\"10\">committed</text>\n\
<rect class=\"request\" x=\"210\" y=\"0\" width=\"16\" height=\"11\"/>\
<text x=\"232\" y=\"10\">undone on request</text>\n\
<rect class=\"victim\" x=\"410\" y=\"0\" width=\"16\" height=\"11\"/>\
<text x=\"432\" y=\"10\">undone as a victim, with a cross at its end</text>\n\
<rect class=\"parent\" x=\"710\" y=\"0\" width=\"16\" height=\"11\"/>\
<text x=\"732\" y=\"10\">undone with its parent</text>\n\
<rect class=\"later\" x=\"10\" y=\"20\" width=\"16\" height=\"11\"/>\
<text x=\"32\" y=\"30\">undone after its commit</text>\n\
<rect class=\"close\" x=\"210\" y=\"20\" width=\"16\" height=\"11\"/>\
<text x=\"232\" y=\"30\">undone at the close</text>\n\
<rect class=\"wait\" x=\"410\" y=\"20\" width=\"16\" height=\"11\"/>\
<text x=\"432\" y=\"30\">waits, with an arrow to the last that ended before</text>\n\
<path class=\"tick\" d=\"M718 24v4\"/><text x=\"732\" y=\"30\">an access</text>\n\
<rect class=\"together\" x=\"860\" y=\"20\" width=\"16\" height=\"11\"/>\
<text x=\"882\" y=\"30\">several, dashed where some are undone</text>\n";

/// How high the legend and the summary are.
const FOOT: u64 = 1_900;

// Adds the beginning of the picture, up to its styles.
fn put_opening(out: &mut Vec<u8>, scale: &Scale) -> Result<(), NoMemory>
    ensures { OnOk result (out.new.items ≡ out.old.items ++ opening scale.now) }
{
    put_bytes(
        out,
        b"<svg xmlns=\"http://www.w3.org/2000/svg\" viewBox=\"0 0 ",
    )?;
    put_tenths(out, WIDTH)?;
    put_bytes(out, b" ")?;
    put_tenths(out, plus(scale.bottom(), FOOT))?;
    put_bytes(out, b"\">\n")
}

// Adds the counts of entries and transactions.
fn put_head_text(out: &mut Vec<u8>, entries: usize, transactions: usize) -> Result<(), NoMemory>
    ensures { OnOk result (out.new.items ≡ out.old.items ++ head_text entries transactions) }
{
    put_text_at(out, b"head", 100, 200)?;
    put_number(out, entries as u64)?;
    put_counted(out, b" entries, ", transactions as u64)?;
    put_bytes(out, b" transactions</text>\n")
}

/// Adds the head of the picture. The only error is that memory runs out.
pub(crate) fn put_head(
    out: &mut Vec<u8>,
    scale: &Scale,
    transactions: usize,
) -> Result<(), NoMemory>
    ensures { OnOk result (out.new.items ≡ out.old.items ++ head scale.now transactions) }
{
    put_opening(out, scale)?;
    put_bytes(out, STYLE)?;
    put_bytes(out, PATTERNS)?;
    put_head_text(out, scale.entries, transactions)
}

// Adds a time: the line of the report that has the entry, over a line through the rows.
fn put_time(out: &mut Vec<u8>, scale: &Scale, entry: usize) -> Result<(), NoMemory>
    ensures { OnOk result (out.new.items ≡ out.old.items ++ time_at scale.now entry) }
{
    let x = scale.x(entry);
    put_upright(out, b"grid", x, TOP - 60, scale.bottom())?;
    put_text_at(out, b"time", x, TOP - 100)?;
    put_number(out, scale.line(entry))?;
    put_bytes(out, b"</text>\n")
}

fn put_time_if(out: &mut Vec<u8>, scale: &Scale, entry: usize) -> Result<(), NoMemory>
    ensures { OnOk result (out.new.items ≡ out.old.items ++ time_if scale.now entry) }
{
    if entry <= scale.entries {
        put_time(out, scale, entry)
    } else {
        Ok(())
    }
}

// How many entries stand between two times.
fn step_of(scale: &Scale) -> usize
    ensures { result ≡ step_of scale.now }
{
    (scale.entries / 10).max(1)
}

// Adds so many times.
fn put_times_to(out: &mut Vec<u8>, scale: &Scale, count: usize) -> Result<(), NoMemory>
    ensures { OnOk result (out.new.items ≡ out.old.items ++ times_to scale.now count) }
{
    let step = step_of(scale);
    for tick in 0..count {
        put_time_if(out, scale, step.saturating_mul(tick))?;
    }
    Ok(())
}

/// Adds the times. The only error is that memory runs out.
pub(crate) fn put_times(out: &mut Vec<u8>, scale: &Scale) -> Result<(), NoMemory>
    ensures { OnOk result (out.new.items ≡ out.old.items ++ times scale.now) }
{
    put_text_at(out, b"axis", 100, TOP - 100)?;
    put_bytes(out, b"line</text>\n")?;
    put_times_to(out, scale, 11)
}

/// Adds what the bars say. The only error is that memory runs out.
pub(crate) fn put_legend(out: &mut Vec<u8>, scale: &Scale) -> Result<(), NoMemory>
    ensures { OnOk result (out.new.items ≡ out.old.items ++ legend scale.now) }
{
    put_bytes(out, b"<g transform=\"translate(0 ")?;
    put_tenths(out, plus(scale.bottom(), 150))?;
    put_bytes(out, b")\">\n")?;
    put_bytes(out, LEGEND)?;
    put_bytes(out, b"</g>\n")
}

// Adds a line of text at this height.
fn put_note(out: &mut Vec<u8>, y: u64, line: &[u8]) -> Result<(), NoMemory>
    ensures { OnOk result (out.new.items ≡ out.old.items ++ note_line y line.now) }
{
    put_text_at(out, b"note", 100, y)?;
    put_text(out, line)?;
    put_bytes(out, b"</text>\n")
}

/// Adds the lines of a text, each of which ends with a line feed, from this height on. The only
/// error is that memory runs out.
pub(crate) fn put_notes(out: &mut Vec<u8>, y: u64, text: &[u8]) -> Result<(), NoMemory>
    ensures { OnOk result (out.new.items ≡ out.old.items ++ notes y (cut_at 10 text.now)) }
{
    let mut at = y;
    let mut rest = text;
    'notes: loop {
        let (line, behind) = cut_line(rest);
        match behind {
            Some(next) => {
                put_note(out, at, line)?;
                at = plus(at, 170);
                rest = next;
            }
            None => return Ok(()),
        }
    }
}
