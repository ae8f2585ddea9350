//! Command lines: the words behind the first, read as the first asks.
ghost use Rattle.std.specs.Prelude.{◌≡◌, ◌∷◌, IfOk, IfSome, MatchResult, Ok};
ghost use Rattle.std.specs.Option.{option_copied};
ghost use Rattle.event_lists.specs.Views.{act_of, name_of};
ghost use Rattle.event_lists.specs.Words.{IsRead, named};
ghost use Rattle.line_language.specs.Steps.{Gives};
ghost use Rattle.line_language.specs.Accesses.{AreRead, asked_in};
ghost use Rattle.line_language.specs.Words.{cut_at, parts_left};
ghost use Rattle.line_language.specs.Commands.{abort_of, access_of, after_of, begin_of, commit_of, event_of, keyed_access, one, sum_of, two, valued_access, when_in};

use crate::fault::LineKind;
use crate::number::parse_number;
use crate::parting::cut;
use crate::verbs::{is_abort, is_after, is_begin, is_sum, operand, operation_of, with_operand};
use event_lists::{Act, Events, NameWord};
use serial_spec::{Event, Op, When};
use txn_names::{Group, Key, Name};

/// The one word that is left, of the words behind those that were read: `Shape` where none or more
/// are left.
pub fn one(words: Option<&[u8]>) -> Result<&[u8], LineKind>
    ensures { Gives (λ w. w.now) result (one (parts_left 32 (option_copied words.entry))) }
{
    let Some(bytes) = words else {
        return Err(LineKind::Shape);
    };
    match cut(bytes, b' ') {
        (word, None) => Ok(word),
        (_, Some(_)) => Err(LineKind::Shape),
    }
}

fn two(words: Option<&[u8]>) -> Result<(&[u8], &[u8]), LineKind>
    ensures { Gives (λ w. (w.0.now, w.1.now)) result
        (two (parts_left 32 (option_copied words.entry))) }
{
    let Some(bytes) = words else {
        return Err(LineKind::Shape);
    };
    let (first, rest) = cut(bytes, b' ');
    let second = one(rest)?;
    Ok((first, second))
}

fn when_in(word: &[u8]) -> Result<When, LineKind>
    ensures { result ≡ when_in word.now }
{
    match word {
        b"begun" => Ok(When::Begun),
        b"done" => Ok(When::Done),
        _ => Err(LineKind::Word),
    }
}

/// The words of a line that asks for an access of a key, which have no fault: what is large is made
/// of them where it is to stand.
#[derive(Clone, Copy)]
pub struct AccessWords<'a> {
    name: NameWord<'a>,
    key: &'a [u8],
    op: Op,
}

impl<'a> AccessWords<'a> {
    /// What the line asks.
    fn event(&self) -> Event
        requires { AreRead self.now }
        ensures { result ≡ asked_in self.now }
    {
        Event::Access(self.name.name(), Key::of(self.key), self.op)
    }

    /// The word of the transaction that the line names.
    #[inline(always)]
    pub fn name(&self) -> &NameWord<'a>
        requires { AreRead self.now }
        ensures value { named result.now ≡ name_of (asked_in self.now) }
        ensures word { IsRead result.now }
    {
        &self.name
    }

    /// What the line asks of it.
    #[inline(always)]
    pub fn act(&self) -> Act
        requires { AreRead self.now }
        ensures { result ≡ act_of (asked_in self.now) }
    {
        Act::Access(Key::of(self.key), self.op)
    }
}

// The fault of a line where an operand has this one, and one word is to stand at its end: words too
// many are told first.
#[inline(never)]
fn fault_before(last: Option<&[u8]>, kind: LineKind) -> LineKind
    ensures { MatchResult (one (parts_left 32 (option_copied last.entry)))
        (λ _. result ≡ kind) (λ shape. result ≡ shape) }
{
    match one(last) {
        Ok(_) => kind,
        Err(shape) => shape,
    }
}

/// The words of a line that asks this operation, which has no number, behind the word of it. Names
/// are looked for in these events first. No key has a space, so the last word is not searched for
/// one.
#[tactic(auto, using(crate::proofs::Accesses::key_alone))]
pub(crate) fn keyed_words<'a>(
    words: &'a [u8],
    op: Op,
    before: Option<&Events>,
) -> Result<AccessWords<'a>, LineKind>
    ensures read { Gives asked_in result (keyed_access op (cut_at 32 words.now)) }
    ensures words { IfOk result AreRead }
{
    let (word, last) = cut(words, b' ');
    let Some(key) = last else {
        return Err(LineKind::Shape);
    };
    let Ok(name) = NameWord::parse(word, before) else {
        return Err(fault_before(last, LineKind::Name));
    };
    let Ok(()) = Key::check(key) else {
        return Err(fault_before(last, LineKind::Key));
    };
    Ok(AccessWords { name, key, op })
}

/// The words of a line that asks this operation with a number behind the key, in the place of its
/// own. Names are looked for in these events first. No number has a space.
pub(crate) fn valued_words<'a>(
    words: &'a [u8],
    op: Op,
    before: Option<&Events>,
) -> Result<AccessWords<'a>, LineKind>
    ensures read { Gives asked_in result (valued_access op (cut_at 32 words.now)) }
    ensures words { IfOk result AreRead }
{
    let (word, rest) = cut(words, b' ');
    let Some(operands) = rest else {
        return Err(LineKind::Shape);
    };
    let (key, last) = cut(operands, b' ');
    let Some(number) = last else {
        return Err(LineKind::Shape);
    };
    let Ok(name) = NameWord::parse(word, before) else {
        return Err(fault_before(last, LineKind::Name));
    };
    let Ok(()) = Key::check(key) else {
        return Err(fault_before(last, LineKind::Key));
    };
    let Some(value) = parse_number(number) else {
        return Err(fault_before(last, LineKind::Number));
    };
    Ok(AccessWords {
        name,
        key,
        op: with_operand(op, value),
    })
}

// The operation that a line asks of a key, with the number 0 where it has one, and the words behind the
// word of it. Of other lines nothing is told.
#[inline(always)]
fn operation_front(bytes: &[u8]) -> Option<(Op, &[u8])>
    ensures { IfSome result (λ r. event_of bytes.now ≡ access_of r.0 (cut_at 32 r.1.now)) }
{
    match bytes {
        [b'g', b'e', b't', b' ', words @ ..] => Some((Op::Get, words)),
        [b's', b'e', b't', b' ', words @ ..] => Some((Op::Set(0), words)),
        [b'a', b'd', b'd', b' ', words @ ..] => Some((Op::Add(0), words)),
        [b'd', b'e', b'l', b' ', words @ ..] => Some((Op::Del, words)),
        _ => None,
    }
}

// The words of a line whose last word is this key.
#[inline(always)]
fn keyed_likely<'a>(name: &NameWord<'a>, key: &'a [u8], op: Op) -> Option<AccessWords<'a>>
    requires { IsRead name.now }
    ensures read { IfSome result (λ access.
        keyed_access op (name.now.bytes.now ∷ cut_at 32 key.now) ≡ Ok (asked_in access)) }
    ensures words { IfSome result AreRead }
{
    match Key::check(key) {
        Ok(()) => Some(AccessWords {
            name: *name,
            key,
            op,
        }),
        Err(_) => None,
    }
}

// The words of a line that has a key and a number behind the name.
#[inline(always)]
fn valued_likely<'a>(name: &NameWord<'a>, words: &'a [u8], op: Op) -> Option<AccessWords<'a>>
    requires { IsRead name.now }
    ensures read { IfSome result (λ access.
        valued_access op (name.now.bytes.now ∷ cut_at 32 words.now) ≡ Ok (asked_in access)) }
    ensures words { IfSome result AreRead }
{
    let (key, last) = cut(words, b' ');
    let value = parse_number(last?)?;
    match Key::check(key) {
        Ok(()) => Some(AccessWords {
            name: *name,
            key,
            op: with_operand(op, value),
        }),
        Err(_) => None,
    }
}

/// The words of a line that asks for an access of a key, where it names the transaction that is likely
/// next behind these events, and has no fault. Of other lines nothing is told. It is part of its caller.
#[inline(always)]
pub fn likely_access<'a>(bytes: &'a [u8], before: &Events) -> Option<AccessWords<'a>>
    ensures read { IfSome result (λ access. event_of bytes.now ≡ Ok (asked_in access)) }
    ensures words { IfSome result AreRead }
{
    let (op, words) = operation_front(bytes)?;
    let (name, operands) = before.known_front(words)?;
    match operand(op) {
        None => keyed_likely(&name, operands, op),
        Some(_) => valued_likely(&name, operands, op),
    }
}

// The words of a line that asks this operation, behind the word of it.
fn words_of(words: &[u8], op: Op) -> Result<AccessWords<'_>, LineKind>
    ensures read { Gives asked_in result (access_of op (cut_at 32 words.now)) }
    ensures words { IfOk result AreRead }
{
    match operand(op) {
        Some(_) => valued_words(words, op, None),
        None => keyed_words(words, op, None),
    }
}

// A line that asks this operation, by what stands behind its word.
fn access_of(words: Option<&[u8]>, op: Op) -> Result<Event, LineKind>
    ensures { result ≡ access_of op (parts_left 32 (option_copied words.entry)) }
{
    let Some(words) = words else {
        return Err(LineKind::Shape);
    };
    match words_of(words, op) {
        Ok(access) => Ok(access.event()),
        Err(kind) => Err(kind),
    }
}

// Most lines ask for an access of a key. The others are read apart, since a call makes room for all
// that is read in it.
#[inline(never)]
fn begin_of(words: Option<&[u8]>) -> Result<Event, LineKind>
    ensures { result ≡ begin_of (parts_left 32 (option_copied words.entry)) }
{
    let name = one(words)?;
    let Ok(depth) = Name::depth_of(name) else {
        return Err(LineKind::Name);
    };
    Ok(Event::Begin(Name::of_spelled(name, depth)))
}

// It is far less common than an access of a key.
#[inline(never)]
fn sum_of(words: Option<&[u8]>) -> Result<Event, LineKind>
    ensures { result ≡ sum_of (parts_left 32 (option_copied words.entry)) }
{
    let (first, second) = two(words)?;
    let Ok(name) = &Name::parse(first) else {
        return Err(LineKind::Name);
    };
    let Ok(group) = &Group::parse(second) else {
        return Err(LineKind::Key);
    };
    Ok(Event::Sum(*name, *group))
}

#[inline(never)]
fn commit_of(words: Option<&[u8]>) -> Result<Event, LineKind>
    ensures { result ≡ commit_of (parts_left 32 (option_copied words.entry)) }
{
    let name = one(words)?;
    let Ok(depth) = Name::depth_of(name) else {
        return Err(LineKind::Name);
    };
    Ok(Event::Commit(Name::of_spelled(name, depth)))
}

#[inline(never)]
fn abort_of(words: Option<&[u8]>) -> Result<Event, LineKind>
    ensures { result ≡ abort_of (parts_left 32 (option_copied words.entry)) }
{
    let name = one(words)?;
    let Ok(depth) = Name::depth_of(name) else {
        return Err(LineKind::Name);
    };
    Ok(Event::Abort(Name::of_spelled(name, depth)))
}

#[inline(never)]
fn after_of(words: Option<&[u8]>) -> Result<Event, LineKind>
    ensures { result ≡ after_of (parts_left 32 (option_copied words.entry)) }
{
    let (first, second) = two(words)?;
    let Ok(name) = &Name::parse(first) else {
        return Err(LineKind::Name);
    };
    let when = when_in(second)?;
    Ok(Event::After(*name, when))
}

/// What a command line asks, or the kind of its first fault. Each event is given where it is made:
/// as the value of an `if` it would be moved once for each `else` around it.
pub(crate) fn event_of(bytes: &[u8]) -> Result<Event, LineKind>
    ensures { result ≡ event_of bytes.now }
{
    if bytes.is_empty() {
        return Err(LineKind::Empty);
    }
    let (word, words) = cut(bytes, b' ');
    if let Some(op) = operation_of(word) {
        return access_of(words, op);
    }
    if is_begin(word) {
        return begin_of(words);
    }
    if is_sum(word) {
        return sum_of(words);
    }
    if word == b"commit".as_slice() {
        return commit_of(words);
    }
    if is_abort(word) {
        return abort_of(words);
    }
    if is_after(word) {
        return after_of(words);
    }
    Err(LineKind::Word)
}
