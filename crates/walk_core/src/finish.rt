//! The order in which a search in depth finishes the nodes of a graph.

ghost use Rattle.std.specs.Prelude.{◌≡◌, ◌↔◌, ◌<◌, ◌++◌, ℕ, Contains, IfOk, OnOk, length, map};
ghost use Rattle.std.specs.List.{range_with_len};
ghost use Rattle.walk_core.specs.declared.finish.Task.TheVariants.{Enter};

use super::edges::Edges;
use lattice_core::NoMemory;
use std::alloc::Allocator;

/// What a search in depth has still to do.
#[derive(Clone, Copy)]
enum Task {
    Enter(usize),
    Leave(usize),
}

/// All nodes, and after them all nodes again in the order in which a search in depth along the edges leaves them. Where
/// nodes are taken from the end, a search back from each finds no more than its component. All nodes are in front, so
/// that it needs no proof that the search leaves each.
pub fn finishing_order<A: Allocator + Copy>(
    alloc: A,
    graph: &Edges<A>,
) -> Result<Vec<usize, A>, NoMemory>
    ensures { IfOk result (λ order. (x : ℕ) → Contains order.items x ↔ x < length graph.now) }
{
    let mut order = all_nodes(alloc, graph.len())?;
    let mut entered = vec![in alloc; false; graph.len()]?;
    let mut tasks = Vec::new(alloc);
    enter_all(&mut tasks, order.as_slice())?;
    while let Some(task) = tasks.pop() {
        match task {
            Task::Leave(node) => order.push(node)?,
            Task::Enter(node) => {
                if !entered[node] {
                    entered[node] = true;
                    tasks.push(Task::Leave(node))?;
                    enter_all(&mut tasks, graph.ends(node))?;
                }
            }
        }
    }
    Ok(order)
}

/// The numbers of so many nodes.
pub fn all_nodes<A: Allocator + Copy>(alloc: A, count: usize) -> Result<Vec<usize, A>, NoMemory>
    ensures { IfOk result (λ nodes. nodes.items ≡ range_with_len 0 count) }
{
    let nodes = (0..count).collect(alloc)?;
    Ok(nodes)
}

/// Each of the nodes is still to be entered.
fn enter_all<A: Allocator + Copy>(tasks: &mut Vec<Task, A>, nodes: &[usize]) -> Result<(), NoMemory>
    ensures { OnOk result (tasks.new.items ≡ tasks.old.items ++ map Enter nodes.now) }
{
    for node in nodes {
        tasks.push(Task::Enter(*node))?;
    }
    Ok(())
}
