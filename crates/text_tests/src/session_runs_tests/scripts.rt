//! Texts that are written by templates.
use itoa::Buffer;
use std::alloc::Global;
use std::process::Abort;

/// A text, and what the signs of a template stand for. `#` is the session's number, `@` that of its
/// owner, and `~` the repetition, counted to three. `?` is the word of an access that is drawn, `^`
/// the number of a shared key of that access, `%` of one of the session's own, and `=` its value,
/// where it has one. `$` is the drawn number of another key, and `!` the last word of a
/// transaction, every fourth of which is aborted. All other signs stand for themselves.
#[derive(Drop)]
pub struct Script {
    pub text: Vec<u8>,
    pub session: u32,
    pub owner: u32,
    repetition: u32,
    state: u64,
    // The numbers of an access: of its shared key, its own key, its operation and its value.
    access: [u64; 4],
}

/// Puts bytes behind the text.
pub fn put(rt: &impl Abort, text: &mut Vec<u8>, bytes: &[u8]) {
    text.extend_from_slice(bytes).expect(rt, "memory");
}

impl Script {
    pub fn new(alloc: Global) -> Script {
        Script {
            text: Vec::new(alloc),
            session: 0,
            owner: 0,
            repetition: 0,
            state: 7,
            access: [0, 0, 0, 0],
        }
    }

    // A number below the given one, by a linear congruence.
    fn below(&mut self, bound: u64) -> u64 {
        self.state = self.state.wrapping_mul(1_103_515_245).wrapping_add(12_345) % 2_147_483_648;
        (self.state / 65_536).checked_rem(bound).unwrap_or(0)
    }

    // The word of the access that is drawn.
    fn draw(&mut self) -> &'static str {
        self.access = [
            self.below(8),
            self.below(32),
            self.below(4),
            self.below(1000),
        ];
        match self.access[2] {
            0 => "get",
            1 => "set",
            _ => "add",
        }
    }

    // The number that a sign stands for.
    fn number_of(&mut self, sign: u8) -> Option<u64> {
        match sign {
            b'#' => Some(u64::from(self.session)),
            b'@' => Some(u64::from(self.owner)),
            b'~' => Some(u64::from(self.repetition % 3)),
            b'^' => Some(self.access[0]),
            b'%' => Some(self.access[1]),
            b'=' if self.access[2] != 0 => Some(self.access[3]),
            b'$' => Some(self.below(16)),
            _ => None,
        }
    }

    fn put_sign(&mut self, rt: &impl Abort, sign: u8) {
        if sign == b'?' {
            let word = self.draw();
            put(rt, &mut self.text, word.as_bytes());
        } else if sign == b'!' {
            let is_aborted = self.below(4) == 0;
            let word = if is_aborted { "abort" } else { "commit" };
            put(rt, &mut self.text, word.as_bytes());
        } else if let Some(number) = self.number_of(sign) {
            if sign == b'=' {
                put(rt, &mut self.text, b" ");
            }
            let mut buffer = Buffer::new();
            put(rt, &mut self.text, buffer.format(number).as_bytes());
        } else if sign != b'=' {
            put(rt, &mut self.text, &[sign]);
        }
    }

    /// Puts a line of this template behind the text.
    pub fn line(&mut self, rt: &impl Abort, template: &str) {
        for sign in template.as_bytes() {
            self.put_sign(rt, *sign);
        }
        put(rt, &mut self.text, b"\n");
    }

    /// Puts the lines of a row of a script behind the text. The row says for which sessions it is,
    /// as `all`, `first` for owners or `rest` for the others, how many lines there are, and their
    /// template.
    pub fn row(&mut self, rt: &impl Abort, row: &str) {
        let (whose, counted) = row.split_once(' ').expect(rt, "a row");
        let (count, template) = counted.split_once(' ').expect(rt, "a row");
        let count: u32 = count.parse().expect(rt, "a number of lines");
        if whose == "all" || (whose == "first") == (self.session == self.owner) {
            for repetition in 0..count {
                self.repetition = repetition;
                self.line(rt, template);
            }
        }
    }
}
