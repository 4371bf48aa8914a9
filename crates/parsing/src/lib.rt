// A record of a patch file, as the bytes of it that the input has: its length, its kind and its body.
#![tactic(auto)]

ghost use Rattle.std.specs.Prelude.{◌≡◌, true, false, MatchOption, ◌+◌, ◌*◌, ◌<◌, ◌≤◌, length, get_or};
ghost use Rattle.rules.specs.Patch.{pairs, length_fits, length_of, size, kind, body, broken};
ghost use Rattle.parsing.specs.Body.{Bodied};

// The kind of a record with a setting.
pub const SETTING: u16 = 1;

// The kind of a record with points.
pub const POINTS: u16 = 2;

// The kind of a record with a word.
pub const WORD: u16 = 3;

// Number j of the record, low byte first.
pub fn pair(bytes: &[u8], j: usize) -> u16
    requires { 2 * j + 1 < length bytes.now }
    ensures { result ≡ get_or (pairs bytes.now) j 0 }
{
    let a = 2 * j;
    u16::from_le_bytes([bytes[a], bytes[a + 1]])
}

// Not "below 2, above 130 or odd".
fn fits(n: u16) -> bool
    ensures { result ≡ length_fits n }
{
    (2..=130).contains(&n) && n % 2 == 0
}

// The length that the record states, if the input has its two bytes and it fits.
fn fitting_length(bytes: &[u8]) -> Option<u16>
    ensures { MatchOption result (length_fits (length_of bytes.now) ≡ false)
        (λ n. (n ≡ length_of bytes.now) × (length_fits n ≡ true)) }
{
    if bytes.len() < 2 {
        return None;
    }
    let n = pair(bytes, 0);
    fits(n).then_some(n)
}

// How many bytes of a record follow its first two, which these are.
pub fn want(bytes: &[u8]) -> usize
    ensures { (2 + result ≡ size bytes.now) × (result ≤ 130) }
{
    match fitting_length(bytes) {
        Some(n) => usize::from(n),
        None => 0,
    }
}

// Whether the record is refused with 10.
pub fn is_broken(bytes: &[u8]) -> bool
    ensures { result ≡ broken bytes.now }
{
    let Some(n) = fitting_length(bytes) else {
        return true;
    };
    bytes.len() < 2 + usize::from(n) || (pair(bytes, 1) == SETTING && n != 12)
}

// The bytes of a record, 4 to 132: its length and its kind are there, and a body of at most 64 numbers.
// Whether it is broken the type does not say.
#[derive(Clone, Copy)]
pub struct Record<'a> {
    pub bytes: &'a [u8],
    ghost whole: { 4 ≤ length bytes.now },
    ghost short: { length bytes.now ≤ 132 },
}

impl Record<'_> {
    // Its kind.
    pub fn kind(self) -> u16
        ensures { result ≡ kind self.entry.bytes.now }
    {
        pair(self.bytes, 1)
    }

    // The numbers of the body, at the front of out, and how many there are.
    pub fn read_body(self, out: &mut [u16; 64]) -> usize
        ensures { Bodied (body self.entry.bytes.now) out.old out.new result }
    {
        let m = self.bytes.len() / 2 - 2;
        for i in 0..m {
            out[i] = pair(self.bytes, i + 2);
        }
        m
    }
}
