// A record of kind 2: it drops the held points, and brings others where there is a setting.
ghost use Rattle.std.specs.Prelude.{◌≤◌, length};
ghost use Rattle.rules.specs.Patch.{body, points_turn, points_come};
ghost use Rattle.bodies.specs.Setting.{setting_of};
ghost use Rattle.kinds.specs.Holding.{held_of, Clean};
ghost use Rattle.kinds.specs.Did.{Did};

use crate::{Stock, Turned, told};
use causes::Refusal;
use parsing::{POINTS, Record};
use setting::Setting;

// Points for this setting.
fn fit_points(setting: Setting, number: u64, given: Record<'_>, out: &mut [u8]) -> Turned
    requires { 16384 ≤ length out.old }
    ensures { Did (points_turn number (setting_of setting) (body given.entry.bytes.now)) out.old out.new result }
{
    let mut points = [0; 64];
    let m = given.read_body(&mut points);
    let refusal = bodies::points_refusal(setting, &points[..m]);
    let stock = match refusal {
        Ok(()) => Stock::Ready(setting, points),
        Err(_) => Stock::Set(setting),
    };
    told(stock, number, POINTS, refusal, true, out)
}

// 12 where no setting is held, before the body is read.
pub fn take_points(stock: Stock, number: u64, given: Record<'_>, out: &mut [u8]) -> Turned
    requires { Clean stock × (16384 ≤ length out.old) }
    ensures { Did (points_come number (held_of stock) (body given.entry.bytes.now)) out.old out.new result }
{
    match stock {
        Stock::Nothing => told(stock, number, POINTS, Err(Refusal::NothingHeld), true, out),
        Stock::Set(setting) | Stock::Ready(setting, _) => fit_points(setting, number, given, out),
    }
}
