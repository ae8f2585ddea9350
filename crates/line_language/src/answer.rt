//! Answers, read, and which of them an event may have.
ghost use Rattle.std.specs.Prelude.{◌≡◌, codes};
ghost use Rattle.std.specs.Str.{bytes_eq};
ghost use Rattle.line_language.specs.Answers.{may_answer, may_begin, may_commit, may_access, may_abort, may_after, may_sum};
ghost use Rattle.line_language.specs.Reading.{answer_of, one_word, orphan_of, two_words};

use crate::number::parse_number;
use crate::parting::cut;
use crate::refusals::{
    may_refuse_access, may_refuse_begin, may_refuse_commit, may_refuse_end, may_refuse_sum,
    refusal_of,
};
use crate::verbs::may_reply;
use serial_spec::{Answer, Event, Op, Refusal, Reply};
use txn_names::Name;

// The words of most answers, which are told without a call.
fn is_ok(word: &[u8]) -> bool
    ensures { result ≡ bytes_eq word.now (codes "ok") }
{
    matches!(word, b"ok")
}

fn is_value(word: &[u8]) -> bool
    ensures { result ≡ bytes_eq word.now (codes "value") }
{
    matches!(word, b"value")
}

fn is_new(word: &[u8]) -> bool
    ensures { result ≡ bytes_eq word.now (codes "new") }
{
    matches!(word, b"new")
}

// An answer of one word.
fn one_word(word: &[u8]) -> Option<Answer>
    ensures { result ≡ one_word word.now }
{
    if is_ok(word) {
        return Some(Answer::Done(Reply::Ok));
    }
    if word == b"none".as_slice() {
        return Some(Answer::Done(Reply::Absent));
    }
    if word == b"overflow".as_slice() {
        return Some(Answer::Done(Reply::Overflow));
    }
    if word == b"waits".as_slice() {
        return Some(Answer::Waits);
    }
    if word == b"stuck".as_slice() {
        return Some(Answer::Stuck);
    }
    None
}

// Why an orphan was refused. It is rare, and read apart: a call makes room for all that is read in
// it.
#[inline(never)]
fn orphan_of(word: &[u8]) -> Option<Answer>
    ensures { result ≡ orphan_of word.now }
{
    Some(Answer::Refused(Refusal::Orphan(Name::parse(word).ok()?)))
}

// An answer of two words: the first one, and what stands behind it.
fn two_words(word: &[u8], rest: &[u8]) -> Option<Answer>
    ensures { result ≡ two_words word.now rest.now }
{
    if is_value(word) {
        return Some(Answer::Done(Reply::Value(parse_number(rest)?)));
    }
    if is_new(word) {
        return Some(Answer::Done(Reply::New(parse_number(rest)?)));
    }
    if word == b"refused".as_slice() {
        return Some(Answer::Refused(refusal_of(rest)?));
    }
    if word == b"orphan".as_slice() {
        return orphan_of(rest);
    }
    None
}

/// The answer that the bytes spell.
pub(crate) fn answer_of(bytes: &[u8]) -> Option<Answer>
    ensures { result ≡ answer_of bytes.now }
{
    match cut(bytes, b' ') {
        (word, None) => one_word(word),
        (word, Some(rest)) => two_words(word, rest),
    }
}

fn may_begin(answer: &Answer) -> bool
    ensures { result ≡ may_begin answer.now }
{
    match answer {
        Answer::Done(Reply::Ok) => true,
        Answer::Refused(refusal) => may_refuse_begin(refusal),
        _ => false,
    }
}

fn may_access(op: Op, answer: &Answer) -> bool
    ensures { result ≡ may_access op answer.now }
{
    match answer {
        Answer::Waits | Answer::Stuck => true,
        Answer::Refused(refusal) => may_refuse_access(refusal),
        Answer::Done(reply) => may_reply(op, *reply),
    }
}

fn may_sum(answer: &Answer) -> bool
    ensures { result ≡ may_sum answer.now }
{
    match answer {
        Answer::Waits | Answer::Stuck => true,
        Answer::Refused(refusal) => may_refuse_sum(refusal),
        Answer::Done(reply) => matches!(reply, Reply::Value(_) | Reply::Overflow),
    }
}

fn may_commit(answer: &Answer) -> bool
    ensures { result ≡ may_commit answer.now }
{
    match answer {
        Answer::Done(Reply::Ok) => true,
        Answer::Refused(refusal) => may_refuse_commit(refusal),
        _ => false,
    }
}

fn may_abort(answer: &Answer) -> bool
    ensures { result ≡ may_abort answer.now }
{
    match answer {
        Answer::Done(Reply::Ok) => true,
        Answer::Refused(refusal) => may_refuse_end(refusal),
        _ => false,
    }
}

fn may_after(answer: &Answer) -> bool
    ensures { result ≡ may_after answer.now }
{
    matches!(answer, Answer::Done(Reply::Ok) | Answer::Stuck)
}

/// Whether a line that asks this may have the answer.
pub(crate) fn may_answer(event: &Event, answer: &Answer) -> bool
    ensures { result ≡ may_answer event.now answer.now }
{
    match event {
        Event::Begin(_) => may_begin(answer),
        Event::Access(_, _, op) => may_access(*op, answer),
        Event::Sum(_, _) => may_sum(answer),
        Event::Commit(_) => may_commit(answer),
        Event::Abort(_) => may_abort(answer),
        Event::After(_, _) => may_after(answer),
    }
}
