//! Requests: lines that a sender adds to a session while it runs.
ghost use Rattle.std.specs.Prelude.{◌≡◌, IfOk};
ghost use Rattle.txn_names.specs.Text.{IsLabel};
ghost use Rattle.line_language.specs.Events.{IsEvent};
ghost use Rattle.session_text.specs.Requests.{request_of};

use line_language::{Line, LineKind, cut, parse_line};
use serial_spec::Event;
use txn_names::Label;

/// Reads a request, `LABEL LINE` without its line feed: the label of a session, a space, and a
/// command line. No request is an `after` line, since a sender that sees replies needs no
/// conditions. Of several faults the first of these is answered: `Empty`, `Label` for the first
/// word, `Shape` where no space is, those that `parse_line` answers for the rest, and `Word` for
/// `after`.
pub fn parse_request(bytes: &[u8]) -> Result<(Label, Line), LineKind>
    ensures read { result ≡ request_of bytes.now }
    ensures valid { IfOk result (λ r. IsLabel r.0 × IsEvent r.1) }
{
    if bytes.is_empty() {
        return Err(LineKind::Empty);
    }
    let (word, text) = cut(bytes, b' ');
    let Ok(label) = Label::parse(word) else {
        return Err(LineKind::Label);
    };
    let Some(text) = text else {
        return Err(LineKind::Shape);
    };
    let line = parse_line(text)?;
    match line.event() {
        Event::After(_, _) => Err(LineKind::Word),
        _ => Ok((label, line)),
    }
}
