// The nodes of a group that are found.
ghost use Rattle.std.specs.Prelude.{◌≡◌, ◌↔◌, ◌+◌, ◌*◌, ◌/◌, ◌<◌, ◌≤◌, ◌^◌, ◌++◌, ℕ, length, Option, IsTrue, OnOk};
ghost use Rattle.node_items.specs.Groups.{bytes_in};
ghost use Rattle.box_list.specs.Lists.{meets_any};
ghost use Rattle.tree_search.specs.Descent.{group_hits};
ghost use Rattle.box_search.specs.Following.{KeepNext};
ghost use Rattle.box_search.specs.Hits.{IsFollowed, behind_in, number_at, peeked, plains, room_for};

use box_list::Boxes;
use gap_window::GapWindow;
use node_items::{Group, NODE, NodeItem};
use std::alloc::AllocError;

/// A node that was found: its place in its level, and the node. A leaf has the number of its feature.
#[derive(Clone, Copy, Debug, PartialEq, Eq)]
pub struct Hit {
    pub number: u64,
    pub item: NodeItem,
    /// The offset of the node behind it in its level, where that is wanted, too.
    pub next: Option<u64>,
}

/// Adds the nodes of a group, the first of which has this place in its level, whose boxes meet one of the boxes.
/// `behind` is the offset of the node behind the group, where that is wanted.
pub(crate) fn add_hits(
    found: &mut Vec<Hit>,
    group: &Group,
    first: u64,
    behind: Option<u64>,
    boxes: &Boxes,
) -> Result<(), AllocError>
    requires { first + length (bytes_in group.now) ≤ 2 ^ 48 }
    ensures found { OnOk result (plains found.new.items ≡ plains found.old.items ++ group_hits group.now first (meets_any boxes.now) (length (bytes_in group.now) / 40)) }
    ensures next { OnOk result ((next : ℕ → Option ℕ) → ((i : ℕ) → 40 * i < length (bytes_in group.now) → next (first + i) ≡ behind_in group.now behind i) → KeepNext next found.old.items found.new.items) }
{
    for i in 0..group.len() {
        let item = group.item(i);
        if boxes.meets(item.bounds) {
            let number = first + i as u64;
            let next = offset_behind(group, i, behind);
            found.push(Hit { number, item, next })?;
        }
    }
    Ok(())
}

/// The offset of the node behind the i-th of a group.
fn offset_behind(group: &Group, i: usize, behind: Option<u64>) -> Option<u64>
    requires { 40 * i < length (bytes_in group.now) }
    ensures { result ≡ behind_in group.now behind i }
{
    if i + 1 < group.len() {
        Some(group.item(i + 1).offset)
    } else {
        behind
    }
}

/// How many bytes hold nodes of so many bytes, and one more node where another group follows.
pub(crate) fn with_next(len: usize, is_followed: bool) -> usize
    requires { len ≤ 2 ^ 48 }
    ensures room { result ≡ len + room_for is_followed }
    ensures more { len ≤ result }
{
    if is_followed { len + NODE } else { len }
}

/// The offset of the node behind the first `len` bytes of a window, where another group follows.
pub(crate) fn peek(window: &GapWindow, len: usize, is_followed: bool) -> Option<u64>
    requires small { len ≤ 2 ^ 48 }
    requires held { len + room_for is_followed ≤ length window.now.held.bytes }
    ensures { result ≡ peeked window.now.held.bytes len is_followed }
{
    if is_followed {
        Some(NodeItem::read(&window.bytes()[len..len + NODE]).offset)
    } else {
        None
    }
}

/// Whether the node behind the i-th of these stands among them.
pub(crate) fn is_followed(run: &[Hit], i: usize) -> bool
    requires some { i < length run.now }
    requires small { number_at run.now i ≤ 2 ^ 48 }
    ensures { IsTrue result ↔ IsFollowed run.now i }
{
    i + 1 < run.len() && run[i + 1].number == run[i].number + 1
}
