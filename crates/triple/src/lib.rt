// The conditions of one triple in their order, by rising b and for each b by rising a.
#![tactic(auto)]

ghost use Rattle.std.specs.Prelude.{map, ◌≡◌, ℕ, ◌+◌, ◌*◌, ◌<◌, ◌≤◌, length};
ghost use Rattle.rules.specs.Lists.{below};
ghost use Rattle.algebra.specs.Conditions.{condition, conditions_at};
ghost use Rattle.weights.specs.Weights.{Weights};
ghost use Rattle.condition.specs.Kept.{Row};
ghost use Rattle.triple.specs.Grown.{triple, Grown};

use condition::Basis;
use weights::{TABLE, row, weigh_all};

// The conditions of the orders below n in x: xs has the weights for x of each order, y those for y of one.
fn along(basis: &mut Basis<'_>, alpha: u16, n: usize, xs: &[u16; TABLE], y: &[u16])
    requires { (n ≤ 4) × (length y.now ≡ basis.old.shape.l + 1) }
    ensures same { basis.new.shape ≡ basis.old.shape }
    ensures lent { basis.new.work.ghost_name ≡ basis.old.work.ghost_name }
    ensures long { length basis.new.work.now ≡ length basis.old.work.now }
    ensures grown { (r b m : ℕ) → Weights basis.old.shape.field.q alpha n basis.old.shape.w xs.now
        → Row basis.old.shape.field.q r b (basis.old.shape.l + 1) y.now
        → Grown basis.old.shape.field.q basis.old.shape.k basis.old.shape.w basis.old.shape.l
        (λ g. map (condition (triple basis.old.shape.field.q g alpha r m) b) (below n)) basis.old.leads basis.new.leads basis.old.work.now basis.new.work.now }
{
    let shape = basis.shape;
    for a in 0..n {
        basis.condition(alpha, row(a, shape.w, xs), y);
    }
}

// The conditions of a triple, of which xs and ys have the weights.
fn by_weights(basis: &mut Basis<'_>, alpha: u16, m: usize, xs: &[u16; TABLE], ys: &[u16; TABLE])
    requires { m ≤ 4 }
    ensures same { basis.new.shape ≡ basis.old.shape }
    ensures lent { basis.new.work.ghost_name ≡ basis.old.work.ghost_name }
    ensures long { length basis.new.work.now ≡ length basis.old.work.now }
    ensures grown { (r : ℕ) → Weights basis.old.shape.field.q alpha m basis.old.shape.w xs.now
        → Weights basis.old.shape.field.q r m (basis.old.shape.l + 1) ys.now
        → Grown basis.old.shape.field.q basis.old.shape.k basis.old.shape.w basis.old.shape.l
        (λ g. conditions_at (triple basis.old.shape.field.q g alpha r m)) basis.old.leads basis.new.leads basis.old.work.now basis.new.work.now }
{
    let shape = basis.shape;
    for b in 0..m {
        along(basis, alpha, m - b, xs, row(b, shape.l + 1, ys));
    }
}

// The conditions of a triple. Its weights are made once.
pub fn meet(basis: &mut Basis<'_>, alpha: u16, symbol: u16, m: usize)
    requires { m ≤ 4 }
    ensures same { basis.new.shape ≡ basis.old.shape }
    ensures lent { basis.new.work.ghost_name ≡ basis.old.work.ghost_name }
    ensures long { length basis.new.work.now ≡ length basis.old.work.now }
    ensures grown { Grown basis.old.shape.field.q basis.old.shape.k basis.old.shape.w basis.old.shape.l
        (λ g. conditions_at (triple basis.old.shape.field.q g alpha symbol m)) basis.old.leads basis.new.leads basis.old.work.now basis.new.work.now }
{
    let shape = basis.shape;
    let mut xs = [0; TABLE];
    let mut ys = [0; TABLE];
    weigh_all(shape.field, alpha, m, shape.w, &mut xs);
    weigh_all(shape.field, symbol, m, shape.l + 1, &mut ys);
    by_weights(basis, alpha, m, &xs, &ys);
}
