// The left-to-right check: 01, "each word checked as it is read, so the first fault decides; then 15; then 16". It writes nothing.
// Which count was wrong, and of which rule: 02, request 1. The words and the place travel as two arguments: the place is what is returned,
// and what a refusal tells.
ghost use Rattle.std.specs.Prelude.{◌≡◌, ◌+◌, ◌≤◌, length};
ghost use Rattle.hall.specs.Reading.{times, cost, rule, all_rules, decode};
ghost use Rattle.sheet.specs.Check.{step_of, sheet_of};

use crate::Size;
use crate::word::{entry_at, number_at};
use refusals::{Refusal, Refused};

// The costs of all devices, up to the place behind them.
#[tactic(auto, using(crate::proofs::Runs::costs_laws))]
fn check_costs(words: &[i32], at: usize, n: usize) -> Result<usize, Refused<Refusal>>
    requires { at + n ≤ 16384 }
    ensures { result ≡ step_of (times n (λ left. cost) words.now at) }
{
    let end = at + n;
    for place in at..end {
        number_at(words, place, 1000000000, Refusal::BadCost)?;
    }
    Ok(end)
}

// The rule of this number: its width, then its entries, up to the place behind them.
#[tactic(auto, using(crate::proofs::Runs::rule_laws))]
fn check_rule(words: &[i32], at: usize, number: usize, n: u8) -> Result<usize, Refused<Refusal>>
    requires { length words.now ≤ 16384 }
    ensures { result ≡ step_of (rule n number words.now at) }
{
    let width = number_at(words, at, 32, Refusal::BadWidth(number))?;
    let end = at + 1 + width as usize;
    for place in at + 1..end {
        entry_at(words, place, n)?;
    }
    Ok(end)
}

// All rules, one after the other, numbered from 1, up to the place behind them.
#[tactic(auto, using(crate::proofs::Runs::rules_laws))]
fn check_rules(words: &[i32], at: usize, m: usize, n: u8) -> Result<usize, Refused<Refusal>>
    requires { length words.now ≤ 16384 }
    ensures { result ≡ step_of (all_rules n m words.now at) }
{
    let mut place = at;
    for r in 0..m {
        place = check_rule(words, place, r + 1, n)?;
    }
    Ok(place)
}

// The whole sheet, for a plan room of so many bytes.
#[tactic(auto, using(crate::proofs::Whole::sheet_laws))]
pub(crate) fn check(words: &[i32], room: usize) -> Result<Size, Refused<Refusal>>
    ensures { result ≡ sheet_of (decode room words.now) }
{
    if 16384 < words.len() {
        return Err(Refused {
            kind: Refusal::TooLong,
            place: 16384,
        });
    }
    let n = number_at(words, 0, 200, Refusal::BadDeviceCount)? as u8;
    let devices = n as usize;
    let behind = check_costs(words, 1, devices)?;
    let m = number_at(words, behind, 2000, Refusal::BadRuleCount)?;
    let rules = m as usize;
    let end = check_rules(words, behind + 1, rules, n)?;
    if end < words.len() {
        return Err(Refused {
            kind: Refusal::ExtraWords,
            place: end,
        });
    }
    if room < devices {
        return Err(Refused {
            kind: Refusal::SmallRoom,
            place: devices,
        });
    }
    Ok(Size { devices, rules })
}
