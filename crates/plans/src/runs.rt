//! The plans for the live and the made words of a run.
ghost use Rattle.std.specs.Prelude.{IfOk, string_bytes};
ghost use Rattle.plans.specs.Live.{AreClasses, IsRunPlans};

use crate::live::MostLive;
use crate::needs::Needs;
use crate::report::{classes_line, plans_report};
use size_classes::{CLASSES, Class, Config};
use sizing::blocks::Blocks;
use std::alloc::{AllocError, Global};

/// Returns the size classes of which there are blocks.
fn classes_of(alloc: Global, blocks: &Blocks) -> Result<Vec<Class>, AllocError>
    ensures { IfOk result (λ used. AreClasses blocks.now used.items) }
{
    let mut used = Vec::new(alloc);
    for number in 0..CLASSES {
        if blocks[number] > 0 {
            used.push(Class::new(number as u8))?;
        }
    }
    Ok(used)
}

/// Returns the report of plans (`plans_report`) for the most live words of a run; and the fewest pages with a plan if
/// blocks are made only of the size classes that the run used.
pub fn run_plans(alloc: Global, config: &Config, live: &MostLive) -> Result<String, AllocError>
    ensures { IfOk result (λ text. IsRunPlans config.now live.now (string_bytes text)) }
{
    let used = classes_of(alloc, &live.blocks)?;
    let needs = Needs {
        live: live.words,
        largest: 0,
    };
    [
        plans_report(alloc, config, needs, None, &[])?,
        classes_line(alloc, config, live.words, used.as_slice())?,
    ]
    .concat(alloc)
}
