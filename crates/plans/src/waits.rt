//! For how many quanta a program waits under a plan, as lines.
ghost use Rattle.std.specs.Prelude.{◌≡◌, ◌≤◌, IfOk, IfSome, string_bytes};
ghost use Rattle.plans.specs.Utilisation.{share_with};
ghost use Rattle.plans.specs.Waits.{room_of, permille_of, waits_line, waits_lines};

use command_line::Asked;
use paced::{Plan, cycle_quanta};
use size_classes::Config;
use std::alloc::{AllocError, Global};

/// Returns the words of the largest object for which a plan has room: those of a cycle that the quanta of one don't need.
fn room(config: &Config, live_words: u64, plan: &Plan) -> u128
    ensures { result ≡ room_of config.now live_words plan.now }
{
    let quanta = u128::from(cycle_quanta(config, live_words, plan));
    let traced = u128::from(plan.quantum_words) * quanta;
    u128::from(plan.cycle_words).saturating_sub(traced)
}

/// Returns the share of a program that runs for `own` ticks, and waits for this many quanta of `each` ticks, in
/// thousandths, rounded down.
fn permille(own: u64, quanta: u64, each: u32) -> u128
    ensures { result ≡ permille_of (share_with own quanta each) }
{
    let own = u128::from(own);
    let all = own + u128::from(quanta) * u128::from(each);
    1000 * own / all.max(1)
}

/// Returns the line for a program that asks for some words while it runs for some ticks.
fn waits_line(
    alloc: Global,
    config: &Config,
    live_words: u64,
    plan: &Plan,
    asked: &Asked,
) -> Result<String, AllocError>
    requires { 1 ≤ plan.now.quantum_words }
    ensures { IfOk result (λ line. string_bytes line ≡ waits_line config.now live_words plan.now asked.now) }
{
    let (words, ticks) = (asked.words, asked.ticks);
    let quanta = words.div_ceil(plan.quantum_words);
    let permille = permille(ticks, quanta, config.collector_ticks);
    let room = room(config, live_words, plan);
    format!(in alloc; "asks {words} in {ticks} waits {quanta} permille {permille} largest {room}\n")
}

/// Returns a line for each number of words, with the most quanta for which a program waits that asks for them; no line
/// if there is no plan.
pub(crate) fn waits_lines(
    alloc: Global,
    config: &Config,
    live_words: u64,
    asks: &[Asked],
    plan: Option<Plan>,
) -> Result<String, AllocError>
    requires { IfSome plan (λ plan. 1 ≤ plan.quantum_words) }
    ensures { IfOk result (λ text. string_bytes text ≡ waits_lines config.now live_words asks.now plan) }
{
    let mut text = String::new(alloc);
    let Some(plan) = plan else {
        return Ok(text);
    };
    for asked in asks {
        let line = waits_line(alloc, config, live_words, &plan, asked)?;
        text.push_str(line.as_str())?;
    }
    Ok(text)
}
