// The field calls of document 01. Each tests what it takes, and then asks crate symbols.
#![tactic(auto)]

ghost use Rattle.std.specs.Prelude.{◌≡◌, [], ◌∷◌, IfOk};
ghost use Rattle.rules.specs.Field.{modulus};
ghost use Rattle.rules.specs.Refusal.{field_refusal};
ghost use Rattle.rules.specs.Outcome.{sum_call, difference_call, product_call, inverse_call};
ghost use Rattle.causes.specs.Number.{refused};
ghost use Rattle.field.specs.Answer.{answered};

use causes::Refusal;
use symbols::Field;

// Whether p names a field: a prime from 2 to 929. A number that is not prime has a divisor whose square is not above it.
pub fn is_modulus(p: usize) -> bool
    ensures { result ≡ modulus p }
{
    (2..=929).contains(&p) && (2..31).take_while(|d| d * d <= p).all(|d| p % d != 0)
}

// The field of a call that takes these two symbols, or what it is refused for.
fn field_of(p: usize, a: u16, b: u16) -> Result<Field, Refusal>
    ensures number { refused result ≡ field_refusal p (a ∷ b ∷ []) }
    ensures named { IfOk result (λ field. field.q ≡ p) }
{
    if !is_modulus(p) {
        return Err(Refusal::NoModulus);
    }
    if usize::from(a) >= p || usize::from(b) >= p {
        return Err(Refusal::NoSymbol);
    }
    Ok(Field::new(p as u16))
}

// a + b.
pub fn sum(p: usize, a: u16, b: u16) -> Result<u16, Refusal>
    ensures { answered result ≡ sum_call p a b }
{
    Ok(field_of(p, a, b)?.add(a, b))
}

// a − b.
pub fn difference(p: usize, a: u16, b: u16) -> Result<u16, Refusal>
    ensures { answered result ≡ difference_call p a b }
{
    Ok(field_of(p, a, b)?.sub(a, b))
}

// a·b.
pub fn product(p: usize, a: u16, b: u16) -> Result<u16, Refusal>
    ensures { answered result ≡ product_call p a b }
{
    Ok(field_of(p, a, b)?.mul(a, b))
}

// The symbol that times a is 1, and 0 for 0. The call takes one symbol, which stands for both in the test.
pub fn inverse(p: usize, a: u16) -> Result<u16, Refusal>
    ensures { answered result ≡ inverse_call p a }
{
    Ok(field_of(p, a, a)?.inverse(a))
}
