// The nodes of a tree, written.
ghost use Rattle.std.specs.Prelude.{◌≡◌, ◌+◌, ◌<◌, ◌≤◌, ◌++◌, List, length, map, OnOk, IfOk, IsErrOf};
ghost use Rattle.std.specs.List.{flat_map, range_with_len};
ghost use Rattle.fgb_outside.specs.Source.{Rose};
ghost use Rattle.fgb_outside.specs.Sink.{Appends, AppendsPart};
ghost use Rattle.level_bounds.specs.Levels.{width};
ghost use Rattle.level_bounds.specs.Shapes.{shape_of};
ghost use Rattle.node_items.specs.declared.item.NodeItem.{NodeItem};
ghost use Rattle.node_items.specs.Nodes.{bytes_of};
ghost use Rattle.tree_writer.specs.Packed.{joined, packed_bytes};
ghost use Rattle.tree_writer.specs.Pages.{Adds};
ghost use Rattle.tree_writer.specs.Rows.{level_nodes, nodes_to, parent_over};

use fgb_outside::{Sink, SinkError};
use level_bounds::Levels;
use node_items::NodeItem;
use order_keys::Bounds;
use std::alloc::{AllocError, Global};

/// A page is written when it has so many bytes.
const FULL: usize = 65536;

/// Writes the nodes of the packed tree over these leaves, from the root down. After an error a front of them was
/// written.
pub fn write_tree<W: Sink>(
    alloc: Global,
    levels: &Levels,
    leaves: &[NodeItem],
    out: &mut W,
) -> Result<(), SinkError>
    requires { length leaves.now ≡ (shape_of levels.now).leaves }
    ensures whole { OnOk result (Appends (W.shown out.old) (W.shown out.new) (packed_bytes (shape_of levels.now) leaves.now)) }
    ensures part { AppendsPart (W.shown out.old) (W.shown out.new) (packed_bytes (shape_of levels.now) leaves.now) }
    ensures failed { IsErrOf result SinkError.Failed → Rose (W.shown out.old).faults (W.shown out.new).faults }
    ensures later { (W.shown out.old).faults ≤ (W.shown out.new).faults }
{
    let mut page = Vec::new(alloc);
    lay_levels(alloc, levels, 0, leaves, &mut page, out)?;
    out.write(&page)
}

/// Lays the nodes of the levels from the root down to this one, which has these nodes. All nodes are known before the
/// root is laid.
fn lay_levels<W: Sink>(
    alloc: Global,
    levels: &Levels,
    level: usize,
    nodes: &[NodeItem],
    page: &mut Vec<u8>,
    out: &mut W,
) -> Result<(), SinkError>
    requires within { level ≤ (shape_of levels.now).top }
    requires all { length nodes.now ≡ width (shape_of levels.now) level }
    ensures whole { let t = shape_of levels.now in (leaves : List NodeItem) → length leaves ≡ t.leaves → nodes.now ≡ level_nodes t leaves level
        → OnOk result (Adds (W.shown out.old) (W.shown out.new) page.old.items page.new.items (flat_map bytes_of (nodes_to t leaves level))) }
    ensures part { let t = shape_of levels.now in (leaves : List NodeItem) → length leaves ≡ t.leaves → nodes.now ≡ level_nodes t leaves level
        → AppendsPart (W.shown out.old) (W.shown out.new) (page.old.items ++ flat_map bytes_of (nodes_to t leaves level)) }
    ensures failed { IsErrOf result SinkError.Failed → Rose (W.shown out.old).faults (W.shown out.new).faults }
    ensures later { (W.shown out.old).faults ≤ (W.shown out.new).faults }
{
    if level + 1 == levels.count() {
        return lay_nodes(nodes, page, out);
    }
    let parents = parents(alloc, levels, level, nodes)?;
    lay_levels(alloc, levels, level + 1, &parents, page, out)?;
    lay_nodes(nodes, page, out)
}

/// The nodes of the level above this one, which has these nodes.
fn parents(
    alloc: Global,
    levels: &Levels,
    level: usize,
    nodes: &[NodeItem],
) -> Result<Vec<NodeItem>, AllocError>
    requires below { level < (shape_of levels.now).top }
    requires all { length nodes.now ≡ width (shape_of levels.now) level }
    ensures { let t = shape_of levels.now in IfOk result (λ parents. parents.items ≡ map (parent_over t nodes.now level) (range_with_len 0 (width t (level + 1)))) }
{
    let (first, end) = levels.level(level + 1);
    let mut parents = Vec::with_capacity(alloc, (end - first) as usize)?;
    for i in 0..end - first {
        parents.push(parent(levels, level, i, nodes))?;
    }
    Ok(parents)
}

/// Node i of the level above this one, which has these nodes.
fn parent(levels: &Levels, level: usize, i: u64, nodes: &[NodeItem]) -> NodeItem
    requires below { level < (shape_of levels.now).top }
    requires all { length nodes.now ≡ width (shape_of levels.now) level }
    requires there { i < width (shape_of levels.now) (level + 1) }
    ensures { result ≡ parent_over (shape_of levels.now) nodes.now level i }
{
    let base = levels.level(level).0;
    let (from, till) = levels.group(levels.level(level + 1).0 + i);
    let children = &nodes[(from - base) as usize..(till - base) as usize];
    NodeItem {
        bounds: join_all(children),
        offset: from,
    }
}

/// The join of the boxes of some nodes.
fn join_all(nodes: &[NodeItem]) -> Bounds
    ensures { result ≡ joined nodes.now }
{
    let mut bounds = Bounds::empty();
    for node in nodes {
        bounds = bounds.join(node.bounds);
    }
    bounds
}

/// Lays nodes on the page, and writes it whenever it is full.
fn lay_nodes<W: Sink>(nodes: &[NodeItem], page: &mut Vec<u8>, out: &mut W) -> Result<(), SinkError>
    ensures whole { OnOk result (Adds (W.shown out.old) (W.shown out.new) page.old.items page.new.items (flat_map bytes_of nodes.now)) }
    ensures part { AppendsPart (W.shown out.old) (W.shown out.new) (page.old.items ++ flat_map bytes_of nodes.now) }
    ensures failed { IsErrOf result SinkError.Failed → Rose (W.shown out.old).faults (W.shown out.new).faults }
    ensures later { (W.shown out.old).faults ≤ (W.shown out.new).faults }
{
    for node in nodes {
        lay_node(node, page, out)?;
    }
    Ok(())
}

/// Lays a node on the page, and writes it where that made it full.
fn lay_node<W: Sink>(node: &NodeItem, page: &mut Vec<u8>, out: &mut W) -> Result<(), SinkError>
    ensures whole { OnOk result (Adds (W.shown out.old) (W.shown out.new) page.old.items page.new.items (bytes_of node.now)) }
    ensures part { AppendsPart (W.shown out.old) (W.shown out.new) (page.old.items ++ bytes_of node.now) }
    ensures failed { IsErrOf result SinkError.Failed → Rose (W.shown out.old).faults (W.shown out.new).faults }
    ensures later { (W.shown out.old).faults ≤ (W.shown out.new).faults }
{
    page.extend_from_slice(&node.encode())?;
    if page.len() < FULL {
        return Ok(());
    }
    out.write(page)?;
    page.clear();
    Ok(())
}
