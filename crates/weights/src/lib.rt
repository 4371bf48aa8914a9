// The weights of Hasse derivatives, and what weights for x and for y make of a curve. The check and the finder stand on both.
#![tactic(auto)]

ghost use Rattle.std.specs.Prelude.{◌≡◌, ℕ, ◌+◌, ◌-◌, ◌*◌, ◌<◌, ◌≤◌, T, length, get_or, take, drop};
ghost use Rattle.rules.specs.Field.{ops, modulus};
ghost use Rattle.algebra.specs.Conditions.{weight};
ghost use Rattle.buffers.specs.Change.{Changed};
ghost use Rattle.weights.specs.Shape.{Shaped};
ghost use Rattle.weights.specs.Weights.{Weights};
ghost use Rattle.weights.specs.Value.{pairing};

use runs::dot;
use symbols::Field;

// Each row of weights has this many places: no curve is wider.
const WIDE: usize = 256;

// The places of a table of weights: a row for each order below 4.
pub const TABLE: usize = 4 * WIDE;

// No curve has more rows.
pub const ROWS: usize = 25;

// The shape of a curve in an accepted setting: over which field, with so many symbols to a message, w numbers to a row, and rows for the powers of y up to l.
#[derive(Clone, Copy)]
pub struct Shape {
    pub field: Field,
    pub k: usize,
    pub w: usize,
    pub l: usize,
    ghost shaped: { Shaped field.q k w l },
}

impl Shape {
    // How many numbers of row t can be nonzero.
    pub fn row(self, t: usize) -> usize
        requires { t ≤ self.l }
        ensures { result ≡ self.w - t * (self.k - 1) }
    {
        self.w - t * (self.k - 1)
    }

    // The numbers of a curve.
    pub fn size(self) -> usize
        ensures { result ≡ (self.l + 1) * self.w }
    {
        (self.l + 1) * self.w
    }
}

// A curve of a shape: its rows one after the other.
#[derive(Clone, Copy)]
pub struct Curve<'a> {
    pub shape: Shape,
    pub numbers: &'a [u16],
    ghost whole: { length numbers.now ≡ (shape.l + 1) * shape.w },
}

// Points, symbols and multiplicities, as many of each, and no multiplicity above 4: place after place a triple.
#[derive(Clone, Copy)]
pub struct Triples<'a> {
    pub points: &'a [u16],
    pub word: &'a [u16],
    pub times: &'a [u16],
    ghost symbols: { length word.now ≡ length points.now },
    ghost multiplicities: { length times.now ≡ length points.now },
    ghost few: { (j : ℕ) → j < length times.now → get_or times.now j 0 ≤ 4 },
}

// The first n weights of order a.
pub fn row(a: usize, n: usize, weights: &[u16; TABLE]) -> &[u16]
    requires { (a < 4) × (n ≤ 256) }
    ensures { (result.now ≡ take n (drop (a * 256) weights.now)) × (length result.now ≡ n) }
{
    &weights[a * WIDE..][..n]
}

// The first n weights of order 0 at α, into the first row: the powers of α.
fn powers(field: Field, alpha: u16, n: usize, weights: &mut [u16; TABLE])
    requires { n ≤ 256 }
    ensures { Weights field.q alpha 1 n weights.new }
{
    let mut last: u16 = 1;
    for weight in &mut weights[..n] {
        *weight = last;
        last = field.mul(alpha, last);
    }
}

// The first n weights of order a at α, into row a: each is α times the one before it, plus the one beside that in the row before.
fn weigh(field: Field, alpha: u16, a: usize, n: usize, weights: &mut [u16; TABLE])
    requires { (0 < a) × (a < 4) × (n ≤ 256) × Weights field.q alpha a n weights.old }
    ensures { Changed (weight (ops field.q) alpha a) (a * 256) n weights.old weights.new }
{
    let row = a * WIDE;
    let before = (a - 1) * WIDE;
    let mut last: u16 = 0;
    for i in 0..n {
        weights[row + i] = last;
        last = field.mul_add(weights[before + i], alpha, last);
    }
}

// The first n weights of the orders below m at α.
pub fn weigh_all(field: Field, alpha: u16, m: usize, n: usize, weights: &mut [u16; TABLE])
    requires { (m ≤ 4) × (n ≤ 256) }
    ensures { Weights field.q alpha m n weights.new }
{
    powers(field, alpha, n, weights);
    for a in 1..m {
        weigh(field, alpha, a, n, weights);
    }
}

// What weights for x and for y make of a curve, by one dot product for each row.
pub fn value(curve: Curve<'_>, x: &[u16], y: &[u16]) -> u16
    requires { (length x.now ≡ curve.shape.w) × (length y.now ≡ curve.shape.l + 1) }
    ensures { result ≡ pairing curve.entry.shape.field.q curve.entry.shape.k curve.entry.shape.w curve.entry.shape.l x.now y.now curve.entry.numbers.now }
{
    let shape = curve.shape;
    let mut sum: u16 = 0;
    for (t, &scale) in y.iter().enumerate() {
        let n = shape.row(t);
        let at = t * shape.w;
        let part = dot(shape.field, &x[..n], &curve.numbers[at..at + n]);
        sum = shape.field.mul_add(sum, scale, part);
    }
    sum
}
