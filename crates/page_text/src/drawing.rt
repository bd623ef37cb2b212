//! A drawing of what an item waits for, and of what waits for it.

ghost use Rattle.std.specs.List.Sorted.{IsStrictlySortedBy};
ghost use Rattle.state_core.specs.Items.{item_cmp};
ghost use Rattle.ready_core.specs.Verdicts.{items_out};

use super::chain::left_at;
use super::needs::needs_of;
use super::reached::{MOST, item_seen, reached_from};
use super::template::fill;
use change_core::Status;
use gate_rules::Gate;
use lattice_core::NoMemory;
use markup_text::{Markup, Piece};
use ready_core::Verdicts;
use state_core::{Item, State};
use std::alloc::Global;

/// How far the nodes of two columns, and of two rows, are from each other, in units of the drawing.
const COLUMN: u64 = 190;

const ROW: u64 = 40;

/// How wide and how high a node is.
const WIDTH: u64 = 150;

const HEIGHT: u64 = 28;

/// What is shown in place of a drawing with too many nodes.
const TOO_MANY: &str = "<p>More than 60 changes would be drawn: the lists have them.</p>\n";

/// How a picture begins.
const PICTURE: &str = r#"<div class="drawing" role="region" aria-labelledby="drawn" tabindex="0">
<svg role="img" aria-labelledby="drawn" width="{}" height="{}" viewBox="0 0 {} {}">
<title id="drawn">What waits for the item, and what it waits for</title>
"#;

/// The box of a node.
const BOX: &str =
    r#""><rect class="{}" x="{}" y="{}" width="150" height="28" rx="4"/><text x="{}" y="{}">"#;

/// A node: the item of a change, or a change of which no patch set is known.
#[derive(Clone, Copy)]
struct Node {
    change: u32,
    item: Option<Item>,
    word: &'static str,
    column: u64,
    row: u64,
}

/// Adds the drawing: in the first column what waits for the item, then the item, then column by column what is named.
/// There is none where nothing waits and nothing is named, and where it would have more than 60 nodes a line says so.
/// It costs O(k) times what an item's names cost, and O(k log n), for k nodes of n items.
pub fn add_drawing(
    alloc: Global,
    page: &mut Markup,
    gate: &Gate,
    state: &State,
    verdicts: &Verdicts,
    item: Item,
    waiting: &[Item],
)
    requires { IsStrictlySortedBy item_cmp (items_out verdicts.now.out) }
{
    match reached_from(alloc, gate, state, item) {
        Ok(changes) => add_drawing_of(
            alloc,
            page,
            gate,
            state,
            verdicts,
            item,
            waiting,
            changes.as_slice(),
        ),
        Err(_) => page.refuse(),
    }
}

/// Adds the drawing of what waits for the item and of these changes, which are reached from it.
fn add_drawing_of(
    alloc: Global,
    page: &mut Markup,
    gate: &Gate,
    state: &State,
    verdicts: &Verdicts,
    item: Item,
    waiting: &[Item],
    changes: &[u32],
)
    requires { IsStrictlySortedBy item_cmp (items_out verdicts.now.out) }
{
    let count = changes.len().saturating_add(waiting.len());
    if count < 2 {
        return;
    }
    page.add(&[Piece::Markup("<h2>Drawing</h2>\n")]);
    if count > MOST {
        page.add(&[Piece::Markup(TOO_MANY)]);
        return;
    }
    match picture_of(alloc, gate, state, verdicts, item, waiting, changes) {
        Ok(picture) => add_picture(page, &picture),
        Err(_) => page.refuse(),
    }
}

/// What is drawn: nodes, of which the last ones are of the changes that are reached and the others wait for the first
/// of these; and what each of those changes names.
#[derive(Drop)]
struct Picture {
    nodes: Vec<Node>,
    needs: Vec<Vec<u32>>,
}

/// The picture of what waits for the item and of these changes, which are reached from it.
fn picture_of(
    alloc: Global,
    gate: &Gate,
    state: &State,
    verdicts: &Verdicts,
    item: Item,
    waiting: &[Item],
    changes: &[u32],
) -> Result<Picture, NoMemory>
    requires { IsStrictlySortedBy item_cmp (items_out verdicts.now.out) }
{
    let needs = needs_of_all(alloc, gate, state, item, changes)?;
    match nodes_of(
        alloc,
        state,
        verdicts,
        item,
        waiting,
        changes,
        needs.as_slice(),
    ) {
        Ok(nodes) => Ok(Picture { nodes, needs }),
        Err(NoMemory) => Err(NoMemory),
    }
}

/// The nodes of what waits for the item, and then those of these changes, which name these.
fn nodes_of(
    alloc: Global,
    state: &State,
    verdicts: &Verdicts,
    item: Item,
    waiting: &[Item],
    changes: &[u32],
    needs: &[Vec<u32>],
) -> Result<Vec<Node>, NoMemory>
    requires { IsStrictlySortedBy item_cmp (items_out verdicts.now.out) }
{
    let mut nodes = nodes_of_waiting(alloc, state, verdicts, waiting, changes)?;
    match add_reached(&mut nodes, state, verdicts, item, changes, needs) {
        Ok(()) => Ok(nodes),
        Err(NoMemory) => Err(NoMemory),
    }
}

/// What the item of each of these changes names.
fn needs_of_all(
    alloc: Global,
    gate: &Gate,
    state: &State,
    item: Item,
    changes: &[u32],
) -> Result<Vec<Vec<u32>>, NoMemory> {
    let mut all = Vec::with_capacity(alloc, changes.len())?;
    for change in changes {
        let needs = needs_of_one(alloc, gate, state, item, *change)?;
        all.push(needs)?;
    }
    Ok(all)
}

/// What the item of a change names.
fn needs_of_one(
    alloc: Global,
    gate: &Gate,
    state: &State,
    item: Item,
    change: u32,
) -> Result<Vec<u32>, NoMemory> {
    match item_seen(state, item, change) {
        Some(from) => needs_of(alloc, gate, state, from),
        None => Ok(Vec::new(alloc)),
    }
}

/// The nodes of those items that wait and whose change isn't reached: they are in the first column.
fn nodes_of_waiting(
    alloc: Global,
    state: &State,
    verdicts: &Verdicts,
    waiting: &[Item],
    changes: &[u32],
) -> Result<Vec<Node>, NoMemory>
    requires { IsStrictlySortedBy item_cmp (items_out verdicts.now.out) }
{
    let mut nodes = Vec::new(alloc);
    for item in waiting {
        if !changes.contains(&item.change) {
            let row = nodes.len() as u64;
            nodes.push(node_at(state, verdicts, item.change, Some(*item), 0, row))?;
        }
    }
    Ok(nodes)
}

/// Adds the nodes of the changes that are reached, each one column after the first one that names it.
fn add_reached(
    nodes: &mut Vec<Node>,
    state: &State,
    verdicts: &Verdicts,
    item: Item,
    changes: &[u32],
    needs: &[Vec<u32>],
) -> Result<(), NoMemory>
    requires { IsStrictlySortedBy item_cmp (items_out verdicts.now.out) }
{
    let waiters = nodes.len();
    for change in changes {
        let (column, row) = place_of(nodes.as_slice(), waiters, needs, *change);
        let seen = item_seen(state, item, *change);
        nodes.push(node_at(state, verdicts, *change, seen, column, row))?;
    }
    Ok(())
}

/// The column and the row of the next change that is reached, behind these nodes, of which so many wait.
fn place_of(nodes: &[Node], waiters: usize, needs: &[Vec<u32>], change: u32) -> (u64, u64) {
    let (waiting, reached) = nodes.split_at(waiters.min(nodes.len()));
    let first = if waiting.is_empty() { 0 } else { 1 };
    let column = column_of(reached, needs, change, first);
    (column, count_in(nodes, column))
}

/// How many of some nodes are in this column.
fn count_in(nodes: &[Node], column: u64) -> u64 {
    let mut count = 0u64;
    for node in nodes {
        if node.column == column {
            count = count.saturating_add(1);
        }
    }
    count
}

/// The column after that of the first node that names this change, or the first one where none does.
fn column_of(nodes: &[Node], needs: &[Vec<u32>], change: u32, first: u64) -> u64 {
    for (node, names) in nodes.iter().zip(needs) {
        if names.contains(&change) {
            return node.column.saturating_add(1);
        }
    }
    first
}

/// The node of a change, at a place.
fn node_at(
    state: &State,
    verdicts: &Verdicts,
    change: u32,
    item: Option<Item>,
    column: u64,
    row: u64,
) -> Node
    requires { IsStrictlySortedBy item_cmp (items_out verdicts.now.out) }
{
    Node {
        change,
        item,
        word: word_of(state, verdicts, change, item),
        column,
        row,
    }
}

/// The status of a change and its item, in a word. A change without a known patch set may be merged.
fn word_of(state: &State, verdicts: &Verdicts, number: u32, item: Option<Item>) -> &'static str
    requires { IsStrictlySortedBy item_cmp (items_out verdicts.now.out) }
{
    if state.is_merged(number) {
        return "merged";
    }
    let Some(item) = item else {
        return "unknown";
    };
    let Some(change) = state.change(item.change) else {
        return "unknown";
    };
    match change.status() {
        Status::Merged => "merged",
        Status::Abandoned => "abandoned",
        Status::New => match left_at(verdicts.out(), item) {
            Some(_) => "waits",
            None => "ready",
        },
    }
}

/// Adds a picture: nodes that wait lead to the first one that is reached, and the others to what they name.
fn add_picture(page: &mut Markup, picture: &Picture) {
    let nodes = picture.nodes.as_slice();
    begin_picture(page, last_place(nodes));
    add_lines(page, nodes, picture.needs.as_slice());
    add_nodes(page, nodes);
    page.add(&[Piece::Markup("</svg>\n</div>\n")]);
}

/// Adds the lines between nodes, of which the last ones name these, and the others lead to the first of them.
fn add_lines(page: &mut Markup, nodes: &[Node], needs: &[Vec<u32>]) {
    let (waiting, reached) = nodes.split_at(nodes.len().saturating_sub(needs.len()));
    if let Some(item) = reached.first() {
        add_edges(page, waiting, *item);
    }
    add_all_named(page, reached, needs);
}

/// Adds the lines from each of some nodes to those of them that it names.
fn add_all_named(page: &mut Markup, nodes: &[Node], needs: &[Vec<u32>]) {
    for (node, names) in nodes.iter().zip(needs) {
        add_named(page, *node, nodes, names.as_slice());
    }
}

/// Adds nodes.
fn add_nodes(page: &mut Markup, nodes: &[Node]) {
    for node in nodes {
        add_node(page, *node);
    }
}

/// The last column and the last row that a node is in.
fn last_place(nodes: &[Node]) -> (u64, u64) {
    let (mut column, mut row) = (0, 0);
    for node in nodes {
        column = node.column.max(column);
        row = node.row.max(row);
    }
    (column, row)
}

/// Begins a picture with this last column and this last row.
fn begin_picture(page: &mut Markup, last: (u64, u64)) {
    let width = Piece::Number(left_of(last.0).saturating_add(WIDTH + 10));
    let height = Piece::Number(top_of(last.1).saturating_add(HEIGHT + 10));
    fill(page, PICTURE, &[width, height, width, height]);
}

/// Where a column begins.
fn left_of(column: u64) -> u64 {
    column.saturating_mul(COLUMN).saturating_add(10)
}

/// Where a row begins.
fn top_of(row: u64) -> u64 {
    row.saturating_mul(ROW).saturating_add(10)
}

/// Where the middle of a row is.
fn middle_of(row: u64) -> u64 {
    top_of(row).saturating_add(HEIGHT / 2)
}

/// Adds a line from each of some nodes to another one.
fn add_edges(page: &mut Markup, from: &[Node], to: Node) {
    for node in from {
        add_edge(page, *node, to);
    }
}

/// Adds a line from a node to each of those that are named.
fn add_named(page: &mut Markup, from: Node, nodes: &[Node], names: &[u32]) {
    for node in nodes {
        if names.contains(&node.change) {
            add_edge(page, from, *node);
        }
    }
}

/// Adds a line from the right side of a node to the left side of another one.
fn add_edge(page: &mut Markup, from: Node, to: Node) {
    fill(
        page,
        "<line x1=\"{}\" y1=\"{}\" x2=\"{}\" y2=\"{}\"/>\n",
        &[
            Piece::Number(left_of(from.column).saturating_add(WIDTH)),
            Piece::Number(middle_of(from.row)),
            Piece::Number(left_of(to.column)),
            Piece::Number(middle_of(to.row)),
        ],
    );
}

/// Adds a node with a link to its page.
fn add_node(page: &mut Markup, node: Node) {
    page.add(&[Piece::Markup("<a href=\"/change/")]);
    add_name(page, node);
    add_box(page, node.word, left_of(node.column), top_of(node.row));
    add_name(page, node);
    fill(page, " {}</text></a>\n", &[Piece::Markup(node.word)]);
}

/// Adds the box of a node of this class, up to the text in it.
fn add_box(page: &mut Markup, class: &'static str, left: u64, top: u64) {
    fill(
        page,
        BOX,
        &[
            Piece::Markup(class),
            Piece::Number(left),
            Piece::Number(top),
            Piece::Number(left.saturating_add(8)),
            Piece::Number(top.saturating_add(19)),
        ],
    );
}

/// Adds what a node is called: its item, or its change where no patch set is known.
fn add_name(page: &mut Markup, node: Node) {
    page.add(&[Piece::Number(u64::from(node.change))]);
    if let Some(item) = node.item {
        fill(page, ",{}", &[Piece::Number(u64::from(item.set))]);
    }
}
