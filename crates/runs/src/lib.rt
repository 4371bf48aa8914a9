// Runs of symbols in slices: sums and values modulo q, which names a field, and what is asked of a run.
#![tactic(auto)]

ghost use Rattle.std.specs.Prelude.{◌≡◌, ◌≤◌, eqb, length};
ghost use Rattle.rules.specs.Lists.{distinct};
ghost use Rattle.rules.specs.Field.{ops};
ghost use Rattle.rules.specs.Code.{eval as value_at};
ghost use Rattle.rules.specs.Curve.{total};
ghost use Rattle.rules.specs.Refusal.{under};
ghost use Rattle.runs.specs.Runs.{products, blank};

use symbols::{Field, wide};

// The sum of the products of two equally long runs: one wide sum, and one division at its end.
pub fn dot(field: Field, a: &[u16], b: &[u16]) -> u16
    requires { (length a.now ≤ 65536) × (length a.now ≡ length b.now) }
    ensures { result ≡ total (ops field.q) (length a.now) (products field.q a.now b.now) }
{
    let mut sum = 0;
    for (&x, &y) in a.iter().zip(b) {
        sum += u64::from(wide(x, y));
    }
    (sum % u64::from(field.q)) as u16
}

// The value at x of the polynomial f.
pub fn eval(field: Field, f: &[u16], x: u16) -> u16
    ensures { result ≡ value_at (ops field.q) f.now x }
{
    f.iter().rfold(0, |sum, &c| field.mul_add(c, x, sum))
}

// dst holds what src holds. The library's copy_from_slice calls memmove where the compiler does not see that the two lie apart, and the archive for C would then need it.
pub fn copy(src: &[u16], dst: &mut [u16])
    requires { length src.now ≡ length dst.old }
    ensures { dst.new ≡ src.now }
{
    for i in 0..dst.len() {
        dst[i] = src[i];
    }
}

// Whether every number is 0.
pub fn all_zero(run: &[u16]) -> bool
    ensures { result ≡ blank run.now }
{
    run.iter().all(|&x| x == 0)
}

// Whether each is below p.
pub fn all_below(p: usize, symbols: &[u16]) -> bool
    ensures { result ≡ under p symbols.now }
{
    symbols.iter().all(|&x| usize::from(x) < p)
}

// Whether no two are equal.
pub fn all_distinct(points: &[u16]) -> bool
    ensures { result ≡ distinct eqb points.now }
{
    points
        .iter()
        .enumerate()
        .all(|(i, x)| !points[i + 1..].contains(x))
}
