// Single symbols modulo q, which names a field. Any two numbers of 16 bits have a sum, a difference and a product.
#![tactic(auto)]

ghost use Rattle.std.specs.Prelude.{◌≡◌, ◌+◌, ◌*◌, ◌%◌, ◌<◌, ◌≤◌, T};
ghost use Rattle.rules.specs.Field.{ops, plus, minus, times, modulus, inverse};
ghost use Rattle.symbols.specs.Euclid.{Chain, Factor};
ghost use Rattle.symbols.specs.Reciprocal.{Reciprocal};

// The product of two numbers of 16 bits leaves room for one more in 32 bits.
pub fn wide(x: u16, y: u16) -> u32
    ensures { (result ≡ x * y) × (result ≤ 65535 * 65535) }
{
    u32::from(x) * u32::from(y)
}

// The greatest number that times q stays below 2^32.
pub fn reciprocal(q: u16) -> u32
    requires { 0 < q }
    ensures { Reciprocal q result }
{
    u32::MAX / u32::from(q)
}

// A modulus that names a field, and the multiplier that divides by it: made once, before the loops.
#[derive(Clone, Copy)]
pub struct Field {
    pub q: u16,
    reciprocal: u32,
    ghost is_modulus: { T (modulus q) },
    ghost is_reciprocal: { Reciprocal q reciprocal },
}

impl Field {
    // The field of the numbers below q. Making the multiplier takes one division.
    pub fn new(q: u16) -> Self
        requires { T (modulus q) }
        ensures { result.q ≡ q }
    {
        Field {
            q,
            reciprocal: reciprocal(q),
        }
    }

    // x modulo q with no division: the quotient by the reciprocal is at most one too low.
    fn reduce(self, x: u32) -> u16
        ensures { result ≡ x % self.q }
    {
        let q = u32::from(self.q);
        let quotient = (u64::from(x) * u64::from(self.reciprocal)) >> 32;
        let rest = x - quotient as u32 * q;
        if rest >= q {
            (rest - q) as u16
        } else {
            rest as u16
        }
    }

    // a + b.
    pub fn add(self, a: u16, b: u16) -> u16
        ensures { result ≡ plus self.q a b }
    {
        self.reduce(u32::from(a) + u32::from(b))
    }

    // a − b.
    pub fn sub(self, a: u16, b: u16) -> u16
        ensures { result ≡ minus self.q a b }
    {
        let less = self.q - self.reduce(u32::from(b));
        self.reduce(u32::from(a) + u32::from(less))
    }

    // a·b.
    pub fn mul(self, a: u16, b: u16) -> u16
        ensures { result ≡ times self.q a b }
    {
        self.reduce(wide(a, b))
    }

    // d + c·s, reduced once.
    pub fn mul_add(self, d: u16, c: u16, s: u16) -> u16
        ensures { result ≡ plus self.q d (times self.q c s) }
    {
        self.reduce(u32::from(d) + wide(c, s))
    }

    // Some number times s0 is r0 and times s1 is r1, modulo q. Times s0 − (r0 / r1)·s1 it is the remainder of r0 by r1.
    // The last remainder is 1, and its factor is the answer.
    fn euclid(self, r0: u16, r1: u16, s0: u16, s1: u16) -> u16
        requires { Chain self.q r0 r1 s0 s1 }
        ensures { Factor self.q r0 r1 s0 s1 result }
    {
        if r1 == 1 {
            return s1;
        }
        let less = self.q - r0 / r1;
        self.euclid(r1, r0 % r1, s1, self.mul_add(s0, less, s1))
    }

    // The symbol that times a is 1, and 0 for 0.
    pub fn inverse(self, a: u16) -> u16
        requires { a < self.q }
        ensures { result ≡ inverse (ops self.q) a }
    {
        if a == 0 {
            return 0;
        }
        self.euclid(self.q, a, 0, 1)
    }
}
