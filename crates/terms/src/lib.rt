// The numbers of a setting as the engine takes them.
#![tactic(auto)]

ghost use Rattle.setting.specs.Call.{asked};
ghost use Rattle.terms.specs.Terms.{Posed};

use causes::Refusal;
use setting::Setting;
use symbols::Field;
use weights::Shape;

// An accepted setting: the shape of its curves, s as wide as symbols, and three rooms:
// `size` of a curve, (ℓ+1)·W; `list` of the longest list, ℓ·k; and `room` of work, R.
#[derive(Clone, Copy)]
pub struct Terms {
    pub shape: Shape,
    pub s: u16,
    pub size: usize,
    pub list: usize,
    pub room: usize,
}

// What the setting call says, turned into terms.
pub fn of_setting(setting: Setting) -> Result<Terms, Refusal>
    ensures { Posed (asked setting) result }
{
    let derived = setting::derive(setting)?;
    Ok(Terms {
        shape: Shape {
            field: Field::new(setting.p as u16),
            k: setting.k,
            w: derived.w,
            l: derived.l,
        },
        s: setting.s as u16,
        size: (derived.l + 1) * derived.w,
        list: derived.l * setting.k,
        room: derived.r,
    })
}
