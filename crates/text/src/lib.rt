// Lines of text, written into a lent buffer one after the other.
#![tactic(auto)]

ghost use Rattle.std.specs.Prelude.{◌≡◌, [], ◌∷◌, ◌+◌, ◌*◌, ◌<◌, ◌≤◌, length};
ghost use Rattle.rules.specs.Patch.{digits, spaced, line};
ghost use Rattle.text.specs.Lines.{Writes};

use itoa::Buffer;

// A lent buffer, and how many bytes at its front are written: the next one goes behind them.
#[derive(Drop)]
pub struct Lines<'a> {
    pub out: &'a mut [u8],
    pub len: usize,
}

impl<'a> Lines<'a> {
    // Nothing is written yet.
    pub fn new(out: &'a mut [u8]) -> Lines<'a>
        ensures same { result.out.ghost_name ≡ out.entry.ghost_name }
        ensures out { result.out.now ≡ out.old }
        ensures none { result.len ≡ 0 }
    {
        Lines { out, len: 0 }
    }

    // One byte.
    pub fn put(&mut self, byte: u8)
        requires { self.old.len < length self.old.out.now }
        ensures { Writes (byte ∷ []) self.old self.new }
    {
        self.out[self.len] = byte;
        self.len += 1;
    }

    // A number in decimal, with no zero in front.
    pub fn number(&mut self, n: u64)
        requires { self.old.len + length (digits n) ≤ length self.old.out.now }
        ensures { Writes (digits n) self.old self.new }
    {
        let mut buffer = Buffer::new();
        let text = buffer.format(n).as_bytes();
        let end = self.len + text.len();
        self.out[self.len..end].copy_from_slice(text);
        self.len = end;
    }

    // The fields of a line, each with a space before it.
    pub fn numbers(&mut self, fields: &[u16])
        requires { self.old.len + length fields.now * 6 ≤ length self.old.out.now }
        ensures { (self.new.len ≤ self.old.len + length fields.now * 6)
            × Writes (spaced fields.now) self.old self.new }
    {
        for &x in fields {
            self.put(b' ');
            self.number(u64::from(x));
        }
    }

    // A line whose first field is a number.
    pub fn numbered_line(&mut self, first: u64, fields: &[u16])
        requires { self.old.len + 21 + length fields.now * 6 ≤ length self.old.out.now }
        ensures { (self.new.len ≤ self.old.len + 21 + length fields.now * 6)
            × Writes (line (digits first) fields.now) self.old self.new }
    {
        self.number(first);
        self.numbers(fields);
        self.put(b'\n');
    }

    // A line that begins with "+".
    pub fn plus_line(&mut self, fields: &[u16])
        requires { self.old.len + 2 + length fields.now * 6 ≤ length self.old.out.now }
        ensures { (self.new.len ≤ self.old.len + 2 + length fields.now * 6)
            × Writes (line (43 ∷ []) fields.now) self.old self.new }
    {
        self.put(b'+');
        self.numbers(fields);
        self.put(b'\n');
    }
}
