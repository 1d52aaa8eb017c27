//! The graph heap behind a player.
ghost use Rattle.std.specs.Prelude.{◌≡◌, IfOk};
ghost use Rattle.heap_model.specs.Event.{present_of};
ghost use Rattle.heap_model.specs.Settings.{settings_of, settings_by};

use graph_heap::{NoMemory, Reference, present};
use size_classes::Config;
use std::alloc::Global;
use trace::Player;

/// Returns the graph heap to which the history of a player leads.
pub fn graph_after(alloc: Global, config: &Config, player: &Player) -> Result<Reference, NoMemory>
    requires { settings_of player.now.course.heap ≡ settings_by config.now }
    ensures { IfOk result (λ graph. graph ≡ present_of player.now.course) }
{
    present(alloc, &config.limits(), player.recorded().history())
}
