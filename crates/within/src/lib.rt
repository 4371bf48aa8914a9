// Runs of symbols inside one lent buffer, modulo q, which names a field.
#![tactic(auto)]

ghost use Rattle.std.specs.Prelude.{◌⊎◌, ◌≡◌, ◌+◌, ◌≤◌, length, get_or};
ghost use Rattle.buffers.specs.Change.{Changed};
ghost use Rattle.within.specs.Runs.{RunsApart, added, shifted, moved, cut};

use symbols::Field;

// The run of n from b on becomes itself plus c times the run from a on.
pub fn add_within(field: Field, c: u16, work: &mut [u16], a: usize, b: usize, n: usize)
    requires { RunsApart a b n × (a + n ≤ length work.old) × (b + n ≤ length work.old) }
    ensures { Changed (added field.q c work.old a b) b n work.old work.new }
{
    for i in 0..n {
        let x = work[a + i];
        let y = work[b + i];
        work[b + i] = field.mul_add(y, c, x);
    }
}

// The run of n from b on becomes x times itself plus c times the run from a on, cut to n places. With a = b it is multiplied by x + c.
pub fn shift_add(field: Field, c: u16, work: &mut [u16], a: usize, b: usize, n: usize)
    requires { ((a ≡ b) ⊎ RunsApart a b n) × (a + n ≤ length work.old) × (b + n ≤ length work.old) }
    ensures { Changed (shifted field.q c work.old a b) b n work.old work.new }
{
    let mut last = 0;
    for i in 0..n {
        let x = work[a + i];
        let y = work[b + i];
        work[b + i] = field.mul_add(last, c, x);
        last = y;
    }
}

// The run of n from b on becomes x times itself, cut to n places.
pub fn shift(work: &mut [u16], b: usize, n: usize)
    requires { b + n ≤ length work.old }
    ensures { Changed (moved work.old b) b n work.old work.new }
{
    if n > 0 {
        work.copy_within(b..b + n - 1, b + 1);
        work[b] = 0;
    }
}

// The run of n from b on becomes the run from a on, from its place v on, with zeros behind.
pub fn strip_run(work: &mut [u16], a: usize, b: usize, v: usize, n: usize)
    requires { RunsApart a b n × (v ≤ n) × (a + n ≤ length work.old) × (b + n ≤ length work.old) }
    ensures { Changed (cut work.old a v n) b n work.old work.new }
{
    let kept = n - v;
    work.copy_within(a + v..a + n, b);
    work[b + kept..b + n].fill(0);
}
