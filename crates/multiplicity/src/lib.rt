// Whether a curve has a multiplicity at a point and a symbol: whether it meets the conditions of one triple.
#![tactic(auto)]

ghost use Rattle.std.specs.Prelude.{◌≡◌, ◌+◌, ◌≤◌, length};
ghost use Rattle.multiplicity.specs.Met.{zero_with, zero_below, met};

use weights::{Curve, TABLE, row, value, weigh_all};

// Whether the conditions hold that have the weights x and one of the first n rows of ys.
fn holds_with(curve: Curve<'_>, n: usize, x: &[u16], ys: &[u16; TABLE]) -> bool
    requires { (n ≤ 4) × (length x.now ≡ curve.shape.w) }
    ensures { result ≡ zero_with curve.entry.shape.field.q curve.entry.shape.k curve.entry.shape.w curve.entry.shape.l n x.now ys.now curve.entry.numbers.now }
{
    (0..n).all(|b| value(curve, x, row(b, curve.shape.l + 1, ys)) == 0)
}

// Whether the conditions of multiplicity m hold, with the rows of weights at a point and at a symbol.
fn holds(curve: Curve<'_>, m: usize, xs: &[u16; TABLE], ys: &[u16; TABLE]) -> bool
    requires { m ≤ 4 }
    ensures { result ≡ zero_below curve.entry.shape.field.q curve.entry.shape.k curve.entry.shape.w curve.entry.shape.l m xs.now ys.now curve.entry.numbers.now }
{
    (0..m).all(|a| holds_with(curve, m - a, row(a, curve.shape.w, xs), ys))
}

// Whether the curve meets the conditions of a triple. Its weights are made once.
pub fn through(curve: Curve<'_>, alpha: u16, symbol: u16, m: usize) -> bool
    requires { m ≤ 4 }
    ensures { result ≡ met curve.entry.shape.field.q curve.entry.shape.k curve.entry.shape.w curve.entry.shape.l curve.entry.numbers.now (record { point = alpha; symbol = symbol; times = m }) }
{
    let shape = curve.shape;
    let mut xs = [0u16; TABLE];
    let mut ys = [0u16; TABLE];
    weigh_all(shape.field, alpha, m, shape.w, &mut xs);
    weigh_all(shape.field, symbol, m, shape.l + 1, &mut ys);
    holds(curve, m, &xs, &ys)
}
