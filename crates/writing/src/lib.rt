// A message's patch.
#![tactic(auto)]

ghost use Rattle.std.specs.Prelude.{◌≡◌, length};
ghost use Rattle.rules.specs.Field.{ops};
ghost use Rattle.rules.specs.Code.{encode};

use runs::eval;
use symbols::Field;

// The values of the message's polynomial at the points.
pub fn write_patch(field: Field, points: &[u16], message: &[u16], patch: &mut [u16])
    requires { length points.now ≡ length patch.old }
    ensures { patch.new ≡ encode (ops field.q) points.now message.now }
{
    for (j, &x) in points.iter().enumerate() {
        patch[j] = eval(field, message, x);
    }
}
