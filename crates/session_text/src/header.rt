//! Headers: what stands behind their first word.
ghost use Rattle.std.specs.Prelude.{◌≡◌, IfOk, MatchOption};
ghost use Rattle.std.specs.Option.{option_copied};
ghost use Rattle.txn_names.specs.Text.{IsLabel};
ghost use Rattle.session_text.specs.Texts.{command_of, header_of, labelled, line_of};
ghost use Rattle.line_language.specs.Commands.{label_in};
ghost use Rattle.line_language.specs.Words.{parts_left};

use line_language::{LineKind, cut, one};
use txn_names::Label;

fn label_in(word: &[u8]) -> Result<Label, LineKind>
    ensures { result ≡ label_in word.now }
{
    Label::parse(word).map_err(|_| LineKind::Label)
}

/// The words behind the first, where a line is a header. A line whose third byte is not that of a
/// header is not cut.
pub(crate) fn words_of_header(bytes: &[u8]) -> Option<Option<&[u8]>>
    // Wide: two cases of equal weight.
    ensures { MatchOption result (line_of bytes.now ≡ command_of bytes.now)
        (λ words. line_of bytes.now ≡ header_of (parts_left 32 (option_copied words))) }
{
    if bytes.len() < 3 || bytes[2] != b's' {
        return None;
    }
    let (word, words) = cut(bytes, b' ');
    if word == b"session".as_slice() {
        Some(words)
    } else {
        None
    }
}

/// The label of a header, by the words behind its first.
pub(crate) fn labelled(words: Option<&[u8]>) -> Result<Label, LineKind>
    ensures read { result ≡ labelled (parts_left 32 (option_copied words.entry)) }
    ensures valid { IfOk result IsLabel }
{
    let word = one(words)?;
    label_in(word)
}
