// The check of a curve: whether it passes for the triples.
#![tactic(auto)]

ghost use Rattle.std.specs.Prelude.{◌≡◌, ◌≤◌, T};
ghost use Rattle.rules.specs.Field.{ops};
ghost use Rattle.rules.specs.Lists.{all};
ghost use Rattle.rules.specs.Curve.{weighted, passes};
ghost use Rattle.rules.specs.Refusal.{under};
ghost use Rattle.weights.specs.Triples.{tripled};
ghost use Rattle.multiplicity.specs.Met.{met};
ghost use Rattle.curve.specs.Behind.{behind};

use multiplicity::through;
use runs::all_zero;
use weights::{Curve, Triples};

// What row t holds behind the part that can be nonzero.
fn behind<'a>(curve: Curve<'a>, t: usize) -> &'a [u16]
    requires { t ≤ curve.shape.l }
    ensures { result.now ≡ behind curve.entry.shape.k curve.entry.shape.w t curve.entry.numbers.now }
{
    let shape = curve.shape;
    let row = &curve.numbers[t * shape.w..][..shape.w];
    &row[shape.row(t)..]
}

// Whether each coefficient with i + t·(k−1) ≥ w is zero: of each row what lies behind the part that can be nonzero.
fn weighted(curve: Curve<'_>) -> bool
    requires { T (under curve.shape.field.q curve.numbers.now) }
    ensures { result ≡ weighted (ops curve.entry.shape.field.q) curve.entry.shape.k curve.entry.shape.w curve.entry.shape.l curve.entry.numbers.now }
{
    (0..curve.shape.l + 1).all(|t| all_zero(behind(curve, t)))
}

// Whether the curve meets the conditions of every triple.
fn through_all(curve: Curve<'_>, triples: Triples<'_>) -> bool
    ensures { result ≡ all (met curve.entry.shape.field.q curve.entry.shape.k curve.entry.shape.w curve.entry.shape.l curve.entry.numbers.now) (tripled triples.entry.points.now triples.entry.word.now triples.entry.times.now) }
{
    triples
        .points
        .iter()
        .zip(triples.word)
        .zip(triples.times)
        .all(|((&alpha, &symbol), &times)| through(curve, alpha, symbol, usize::from(times)))
}

// Whether the curve passes for the triples.
#[tactic(auto, using(crate::proofs::Check::passes_tests))]
pub fn passes(curve: Curve<'_>, triples: Triples<'_>) -> bool
    requires { T (under curve.shape.field.q curve.numbers.now) }
    ensures { result ≡ passes (ops curve.entry.shape.field.q) curve.entry.shape.k curve.entry.shape.w curve.entry.shape.l (tripled triples.entry.points.now triples.entry.word.now triples.entry.times.now) curve.entry.numbers.now }
{
    !all_zero(curve.numbers) && weighted(curve) && through_all(curve, triples)
}
