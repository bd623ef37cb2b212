//! What holds of all worlds and of what their sites print, over the definitions alone.

ghost use Rattle.std.specs.Prelude.{◌≡◌, ℕ, List, Some, IfSome};
ghost use Rattle.replica_core.specs.Sets.{IsSameSet};
ghost use Rattle.report_text.specs.Agreement.{PrintTheSame};
ghost use Rattle.state_core.specs.State.{state_of};
ghost use Rattle.world_core.specs.declared.event.Event.{Event};
ghost use Rattle.world_core.specs.Convergence.{IsWhatCame, came_to};
ghost use Rattle.world_core.specs.Numbered.{numbered};
ghost use Rattle.world_core.specs.Step.{Answer, Run};
ghost use Rattle.world_core.specs.World.{SiteState, WorldState, new_world};

use report_text::equal_states_print_the_same;
use std::alloc::Allocator;
use world_core::worlds_converge;

/// A law, which is the project's promise in one sentence: for every list of intakes, sends, deliveries that lose,
/// repeat or reorder, saves and restarts, each site's journal is exactly the set of operations that came to it, its
/// state is the state of that set, and two sites to which the same operations came hold equal states, print equal state
/// texts, and equal reports under one gate file.
pub fn the_same_operations_print_the_same<A: Allocator + Copy>()
    ensures own { (sites : ℕ) (events : List (Event A)) (answers : List Answer) (world : WorldState)
        → Run (new_world sites) events answers world
        → (site : ℕ) → IfSome (numbered world.sites site) (IsWhatCame (came_to world.packets site events answers)) }
    ensures same { (sites : ℕ) (events : List (Event A)) (answers : List Answer) (world : WorldState)
        → Run (new_world sites) events answers world
        → (site another : ℕ) (one other : SiteState)
        → numbered world.sites site ≡ Some one → numbered world.sites another ≡ Some other
        → IsSameSet (came_to world.packets site events answers) (came_to world.packets another events answers)
        → PrintTheSame (state_of one.journal) (state_of other.journal) }
{
    worlds_converge::<A>();
    equal_states_print_the_same();
}
