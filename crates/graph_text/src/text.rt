//! The lines of a picture.

ghost use Rattle.std.specs.Prelude.{◌≡◌, ◌++◌, IfOk, OnOk, flat_map, string_bytes};
ghost use Rattle.graph_text.specs.Lines.{color_name, edge_line, edge_lines, graph_lines, label_text, node_line};
ghost use Rattle.graph_text.specs.Lines.{node_statement, unknown_line, wait_line};
ghost use Rattle.graph_text.specs.Drawing.{AreAllUnknown};

use super::node::Node;
use lattice_core::NoMemory;
use ready_core::Refusal;
use state_core::Item;
use std::alloc::Global;
use why_text::{add_item, add_refusal};

/// The changes of which no patch set is known and that some nodes wait for, in order, each once.
pub fn unknown_of(alloc: Global, nodes: &[Node]) -> Result<Vec<u32>, NoMemory>
    ensures { IfOk result (λ unknown. AreAllUnknown nodes.now unknown.items) }
{
    let mut unknown = Vec::new(alloc);
    for node in nodes {
        unknown.extend_from_slice(node.unknown.as_slice())?;
    }
    unknown.sort_unstable();
    unknown.dedup();
    Ok(unknown)
}

/// The text of a picture of these nodes and of these unknown changes.
pub fn text_of(alloc: Global, nodes: &[Node], unknown: &[u32]) -> Result<String, NoMemory>
    ensures { IfOk result (λ text. string_bytes text ≡ graph_lines nodes.now unknown.now) }
{
    let mut text = String::from_str(alloc, "digraph reviewgate {\n  node [shape=box];\n")?;
    add_nodes(&mut text, nodes)?;
    add_unknown(&mut text, unknown)?;
    add_edges(&mut text, nodes)?;
    text.push_str("}\n")?;
    Ok(text)
}

/// Adds a line for each node.
fn add_nodes(text: &mut String, nodes: &[Node]) -> Result<(), NoMemory>
    ensures { OnOk result (string_bytes text.new ≡ string_bytes text.old ++ flat_map node_line nodes.now) }
{
    for node in nodes {
        add_node(text, node)?;
    }
    Ok(())
}

/// Adds the line of a node, in its cycle's cluster.
fn add_node(text: &mut String, node: &Node) -> Result<(), NoMemory>
    ensures { OnOk result (string_bytes text.new ≡ string_bytes text.old ++ node_line node.now) }
{
    let Some(first) = node.cycle else {
        text.push_str("  ")?;
        add_statement(text, node)?;
        text.push_str("\n")?;
        return Ok(());
    };
    text.push_str("  subgraph \"cluster_")?;
    add_item(text, first)?;
    text.push_str("\" { ")?;
    add_statement(text, node)?;
    text.push_str(" }\n")?;
    Ok(())
}

/// Adds the statement of a node: its name, its color and its label.
fn add_statement(text: &mut String, node: &Node) -> Result<(), NoMemory>
    ensures { OnOk result (string_bytes text.new ≡ string_bytes text.old ++ node_statement node.now) }
{
    text.push_str("\"")?;
    add_item(text, node.item)?;
    text.push_str("\" [color=")?;
    text.push_str(color_of(node))?;
    text.push_str(" label=\"")?;
    add_label(text, node.item, node.refusal)?;
    text.push_str("\"];")?;
    Ok(())
}

/// Adds the label of a node: the item, and on a line of its own why it is left out, if it is.
fn add_label(text: &mut String, item: Item, refusal: Option<Refusal>) -> Result<(), NoMemory>
    ensures { OnOk result (string_bytes text.new ≡ string_bytes text.old ++ label_text item refusal) }
{
    add_item(text, item)?;
    let Some(refusal) = refusal else {
        return Ok(());
    };
    text.push_str("\\n")?;
    add_refusal(text, refusal)
}

/// The color of a node: green where its item is ready.
fn color_of(node: &Node) -> &'static str
    ensures { result.now ≡ color_name node.now.refusal }
{
    match node.refusal {
        None => "green",
        Some(_) => "red",
    }
}

/// Adds a line for each unknown change.
fn add_unknown(text: &mut String, unknown: &[u32]) -> Result<(), NoMemory>
    ensures { OnOk result (string_bytes text.new ≡ string_bytes text.old ++ flat_map unknown_line unknown.now) }
{
    for change in unknown {
        add_unknown_change(text, *change)?;
    }
    Ok(())
}

/// Adds the line of an unknown change.
fn add_unknown_change(text: &mut String, change: u32) -> Result<(), NoMemory>
    ensures { OnOk result (string_bytes text.new ≡ string_bytes text.old ++ unknown_line change) }
{
    write!(text, "  \"{change}\" [style=dashed];\n")?;
    Ok(())
}

/// Adds the lines of the edges of all nodes.
fn add_edges(text: &mut String, nodes: &[Node]) -> Result<(), NoMemory>
    ensures { OnOk result (string_bytes text.new ≡ string_bytes text.old ++ flat_map edge_lines nodes.now) }
{
    for node in nodes {
        add_needs(text, node.item, node.needs.as_slice())?;
        add_waits(text, node.item, node.unknown.as_slice())?;
    }
    Ok(())
}

/// Adds a line for each edge from an item to one that it waits for.
fn add_needs(text: &mut String, item: Item, needs: &[Item]) -> Result<(), NoMemory>
    ensures { OnOk result (string_bytes text.new ≡ string_bytes text.old ++ flat_map (edge_line item) needs.now) }
{
    for need in needs {
        add_edge(text, item, *need)?;
    }
    Ok(())
}

/// Adds the line of an edge between items.
fn add_edge(text: &mut String, item: Item, need: Item) -> Result<(), NoMemory>
    ensures { OnOk result (string_bytes text.new ≡ string_bytes text.old ++ edge_line item need) }
{
    text.push_str("  \"")?;
    add_item(text, item)?;
    text.push_str("\" -> \"")?;
    add_item(text, need)?;
    text.push_str("\";\n")?;
    Ok(())
}

/// Adds a line for each edge from an item to an unknown change.
fn add_waits(text: &mut String, item: Item, unknown: &[u32]) -> Result<(), NoMemory>
    ensures { OnOk result (string_bytes text.new ≡ string_bytes text.old ++ flat_map (wait_line item) unknown.now) }
{
    for change in unknown {
        add_wait(text, item, *change)?;
    }
    Ok(())
}

/// Adds the line of an edge from an item to an unknown change.
fn add_wait(text: &mut String, item: Item, change: u32) -> Result<(), NoMemory>
    ensures { OnOk result (string_bytes text.new ≡ string_bytes text.old ++ wait_line item change) }
{
    text.push_str("  \"")?;
    add_item(text, item)?;
    text.push_str("\" -> \"")?;
    write!(text, "{change}")?;
    text.push_str("\";\n")?;
    Ok(())
}
