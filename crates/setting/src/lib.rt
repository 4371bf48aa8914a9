// The setting: its ranges and its derived numbers.
#![tactic(auto)]

ghost use Rattle.std.specs.Prelude.{◌≡◌, ℕ, ◌+◌, ◌-◌, ◌*◌, ◌/◌, ◌≤◌, ◌<◌};
ghost use Rattle.rules.specs.Lists.{below, sum};
ghost use Rattle.rules.specs.Setting.{code_ranges, ranges};
ghost use Rattle.rules.specs.Outcome.{setting_call};
ghost use Rattle.setting.specs.Call.{asked, outcome};
ghost use Rattle.setting.specs.Sized.{Bound, Power};
ghost use Rattle.setting.specs.Accepted.{Ranged};

use causes::Refusal;
use field::is_modulus;

// The modulus, the patch's places, the message's symbols, the multiplicity and the number of damaged places allowed, as they are asked for.
#[derive(Clone, Copy, Debug, PartialEq, Eq)]
pub struct Setting {
    pub p: usize,
    pub n: usize,
    pub k: usize,
    pub s: usize,
    pub tau: usize,
}

// What is derived of an accepted setting: W, ℓ, C, U and R.
#[derive(Clone, Copy, Debug, PartialEq, Eq, Default)]
pub struct Derived {
    pub w: usize,
    pub l: usize,
    pub c: usize,
    pub u: usize,
    pub r: usize,
}

// "n is 2 to 64, k is 2 to n"
pub fn code_in_ranges(n: usize, k: usize) -> bool
    ensures { result ≡ code_ranges n k }
{
    (2..=64).contains(&n) && (2..=n).contains(&k)
}

impl Setting {
    // The same, and "s (multiplicity) is 1 to 4, τ is 0 to n−1". The modulus has no part in it.
    fn in_ranges(self) -> bool
        ensures { result ≡ ranges (asked self) }
    {
        code_in_ranges(self.n, self.k) && (1..=4).contains(&self.s) && self.tau < self.n
    }

    // "W = s·(n−τ)"
    fn degree_bound(self) -> usize
        requires { Ranged self.n self.k self.s self.tau }
        ensures { Bound self.n self.s self.tau result }
    {
        self.s * (self.n - self.tau)
    }

    // "ℓ = (W−1) divided by (k−1), rounded down"
    fn last_power(self, w: usize) -> usize
        requires { (1 ≤ w) × (2 ≤ self.k) }
        ensures { Power w self.k result }
    {
        (w - 1) / (self.k - 1)
    }

    // "C = n·s·(s+1)/2, the number of conditions"
    fn conditions(self) -> usize
        requires { (self.n ≤ 64) × (self.s ≤ 4) }
        ensures { result ≡ self.n * self.s * (self.s + 1) / 2 }
    {
        self.n * self.s * (self.s + 1) / 2
    }

    // "U = the sum of W − t·(k−1) for t from 0 to ℓ". off is t·(k−1): a product for each row would take twice as long.
    fn coefficients(self, w: usize, l: usize) -> usize
        requires { (w ≤ 256) × (2 ≤ self.k) × (self.k ≤ 64) × (l < w) × (l * (self.k - 1) < w) }
        ensures { result ≡ sum (λ t. w - t * (self.k - 1)) (below (l + 1)) }
    {
        let mut u = 0;
        let mut off = 0;
        for _ in 0..l + 1 {
            u += w - off;
            off += self.k - 1;
        }
        u
    }

    // "Work room R = (ℓ+k+4)·(ℓ+1)·W numbers"
    fn work_room(self, w: usize, l: usize) -> usize
        requires { (w ≤ 256) × (self.k ≤ 64) × (l ≤ 24) }
        ensures { result ≡ (l + self.k + 4) * (l + 1) * w }
    {
        (l + self.k + 4) * (l + 1) * w
    }
}

// The setting call.
pub fn derive(setting: Setting) -> Result<Derived, Refusal>
    ensures { outcome result ≡ setting_call (asked setting) }
{
    if !is_modulus(setting.p) {
        return Err(Refusal::NoModulus);
    }
    if !setting.in_ranges() {
        return Err(Refusal::OutOfRange);
    }
    let w = setting.degree_bound();
    let l = setting.last_power(w);
    let c = setting.conditions();
    let u = setting.coefficients(w, l);
    if u <= c {
        return Err(Refusal::TooFewTerms);
    }
    if 24 < l {
        return Err(Refusal::ListTooLong);
    }
    Ok(Derived {
        w,
        l,
        c,
        u,
        r: setting.work_room(w, l),
    })
}
