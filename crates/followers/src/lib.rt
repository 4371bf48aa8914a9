// The symbols that may follow a beginning. They are looked for in blocks: Horner's rule over the rows of the curve, with a block of symbols in the inner loop.
#![tactic(auto)]

ghost use Rattle.std.specs.Prelude.{◌≡◌, ◌+◌, ◌*◌, ◌^◌, ◌<◌, ◌≤◌, length};
ghost use Rattle.buffers.specs.Change.{Changed};
ghost use Rattle.followers.specs.Followers.{horner_at, BlockValues, zeros_from, followers_at, Appended};

use symbols::Field;

// So many symbols are asked at once.
const BLOCK: usize = 32;

// The rows of a slot, which holds the curve of a beginning: l + 1 rows of w numbers.
#[derive(Clone, Copy)]
pub struct Rows {
    pub field: Field,
    pub w: usize,
    pub l: usize,
    ghost wide: { 0 < w },
    ghost tall: { l ≤ 24 },
}

impl Rows {
    // The numbers of a slot.
    pub fn size(self) -> usize
        requires { (self.l + 1) * self.w < 2 ^ 64 }
        ensures { result ≡ (self.l + 1) * self.w }
    {
        (self.l + 1) * self.w
    }
}

// Horner's rule takes in the coefficient c, at each symbol of the block from first on: the loop has no exit and no test but those of mul_add, so that it can be done for many symbols at once.
fn horner_block(field: Field, first: u16, c: u16, acc: &mut [u16; BLOCK])
    requires { first + 32 ≤ 65535 }
    ensures { Changed (horner_at field.q first c acc.old) 0 32 acc.old acc.new }
{
    for i in 0..BLOCK {
        let g = first + i as u16;
        acc[i] = field.mul_add(c, g, acc[i]);
    }
}

// Q(0, g) for the curve Q in the slot from b on, at the symbols g of the block from first on.
fn block_values(rows: Rows, first: u16, b: usize, work: &[u16]) -> [u16; BLOCK]
    requires { (first + 32 ≤ 65535) × (b + (rows.l + 1) * rows.w ≤ length work.now) }
    ensures { BlockValues rows.field.q first rows.w rows.l b work.now result }
{
    let mut acc = [0; BLOCK];
    for t in (0..rows.l + 1).rev() {
        horner_block(rows.field, first, work[b + t * rows.w], &mut acc);
    }
    acc
}

// The symbols from first on at which the value is zero, into out from place a on; the result is the place behind them.
fn collect_zeros(first: u16, values: &[u16], a: usize, out: &mut [u16]) -> usize
    requires { (first + length values.now ≤ 65535) × (a + length (zeros_from first (length values.now) values.now) ≤ length out.old) }
    ensures { Appended (zeros_from first (length values.now) values.now) a out.old out.new result }
{
    let mut r = a;
    for (i, &value) in values.iter().enumerate() {
        if value == 0 {
            out[r] = first + i as u16;
            r += 1;
        }
    }
    r
}

// The symbols that may follow the beginning whose curve Q stands in the slot from b on, in order: those g with Q(0, g) = 0. They are counted.
pub fn followers(rows: Rows, b: usize, work: &[u16], out: &mut [u16]) -> usize
    requires { (b + (rows.l + 1) * rows.w ≤ length work.now) × (length (followers_at rows.field.q rows.w rows.l b work.now) ≤ length out.old) }
    ensures { Appended (followers_at rows.field.q rows.w rows.l b work.now) 0 out.old out.new result }
{
    let mut count = 0;
    for first in (0..rows.field.q).step_by(BLOCK) {
        let values = block_values(rows, first, b, work);
        let n = usize::from(rows.field.q - first).min(BLOCK);
        count = collect_zeros(first, &values[..n], count, out);
    }
    count
}
