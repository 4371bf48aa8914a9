// A record of kind 1: it "first drops the held setting and points".
ghost use Rattle.std.specs.Prelude.{◌≤◌, length};
ghost use Rattle.rules.specs.Patch.{body, setting_turn};
ghost use Rattle.kinds.specs.Did.{Did};

use crate::{Stock, Turned, told};
use parsing::{Record, SETTING};

// A setting that is accepted is held, and any other leaves nothing held.
pub fn take_setting(number: u64, given: Record<'_>, out: &mut [u8]) -> Turned
    requires { (14 ≤ length given.bytes.now) × (16384 ≤ length out.old) }
    ensures { Did (setting_turn number (body given.entry.bytes.now)) out.old out.new result }
{
    let setting = bodies::read_setting(given);
    let refusal = bodies::setting_refusal(setting);
    let stock = match refusal {
        Ok(()) => Stock::Set(setting),
        Err(_) => Stock::Nothing,
    };
    told(stock, number, SETTING, refusal, true, out)
}
