// Kötter's algorithm: of the curves through every triple the least.
#![tactic(auto)]

ghost use Rattle.std.specs.Prelude.{◌≡◌, map, ◌+◌, ◌-◌, ◌*◌, ◌<◌, ◌≤◌, length};
ghost use Rattle.rules.specs.Lists.{below, sum};
ghost use Rattle.algebra.specs.Hom.{move};
ghost use Rattle.algebra.specs.Conditions.{conditions};
ghost use Rattle.prime.specs.Field.{elt};
ghost use Rattle.weights.specs.Triples.{tripled};
ghost use Rattle.slots.specs.Slot.{slot};
ghost use Rattle.triple.specs.Grown.{Grown};
ghost use Rattle.finder.specs.Found.{Found};

use condition::Basis;
use runs::copy;
use triple::meet;
use weights::{ROWS, Shape, Triples};

// The conditions of every triple.
fn meet_all(basis: &mut Basis<'_>, triples: Triples<'_>)
    ensures same { basis.new.shape ≡ basis.old.shape }
    ensures lent { basis.new.work.ghost_name ≡ basis.old.work.ghost_name }
    ensures long { length basis.new.work.now ≡ length basis.old.work.now }
    ensures grown { Grown basis.old.shape.field.q basis.old.shape.k basis.old.shape.w basis.old.shape.l
        (λ g. conditions (map (move (elt basis.old.shape.field.q g)) (tripled triples.entry.points.now triples.entry.word.now triples.entry.times.now)))
        basis.old.leads basis.new.leads basis.old.work.now basis.new.work.now }
{
    for ((&point, &symbol), &m) in triples.points.iter().zip(triples.word).zip(triples.times) {
        meet(basis, point, symbol, usize::from(m));
    }
}

// Writes the least curve that passes for the triples. What work then holds is not said.
pub fn find(shape: Shape, triples: Triples<'_>, curve: &mut [u16], work: &mut [u16])
    requires { (length curve.old ≡ (shape.l + 1) * shape.w) × ((shape.l + 1) * slot shape.w shape.l ≤ length work.old)
        × (length (conditions (tripled triples.points.now triples.word.now triples.times.now)) < sum (λ t. shape.w - t * (shape.k - 1)) (below (shape.l + 1))) }
    ensures { Found shape.field.q shape.k shape.w shape.l (tripled triples.entry.points.now triples.entry.word.now triples.entry.times.now) curve.new }
{
    let mut basis = Basis::new(shape, work);
    meet_all(&mut basis, triples);
    let j = basis.pivot(&[1; ROWS]).unwrap();
    copy(basis.curve(j).numbers, curve);
}
