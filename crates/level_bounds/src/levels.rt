// The levels of a tree.
ghost use Rattle.std.specs.Prelude.{◌≡◌, ◌+◌, ◌-◌, ◌*◌, ◌/◌, ◌<◌, ◌≤◌, ◌^◌, ◌↔◌, ℕ, IsTrue, MatchOption, slice_index};
ghost use Rattle.level_bounds.specs.Cut.{up_to};
ghost use Rattle.level_bounds.specs.Growing.{IsBelowRoot};
ghost use Rattle.level_bounds.specs.Levels.{HasLevels, IsNode, LacksLevels, children_end, first_child, node_count, place, width};

/// No tree has more levels.
const LEVELS: usize = 49;

/// No tree has more nodes, so that an index has at most 2^48 bytes.
const MOST: u64 = (1 << 48) / 40;

/// The levels of a packed R-tree, from the leaves, level 0, up to the root.
#[derive(Clone, Copy)]
pub struct Levels {
    features: u64,
    node_size: u64,
    count: usize,
    /// How many nodes each level has together with the levels below it.
    through: [u64; LEVELS],
    pub ghost shaped: { HasLevels features node_size (up_to features node_size (count - 1)) },
    pub ghost narrow: { node_size < 2 ^ 16 },
    pub ghost some: { 2 ≤ count },
    pub ghost few: { count ≤ 49 },
    pub ghost sums: { (k : ℕ) → k < count → slice_index through k ≡ node_count (up_to features node_size k) },
}

impl Levels {
    ghost use Rattle.level_bounds.specs.Shapes.{shape_of};

    /// The levels over so many features, with nodes of at most so many children. None exactly where there is no
    /// feature, a node would have fewer than two children, or the nodes take more than 2^48 bytes, 40 each.
    pub fn new(features: u64, node_size: u16) -> Option<Levels>
        ensures { MatchOption result (LacksLevels features node_size) (λ levels. HasLevels features node_size (shape_of levels)) }
    {
        if features == 0 || node_size < 2 || features > MOST {
            return None;
        }
        let size = node_size as u64;
        let mut through = [0; LEVELS];
        through[0] = features;
        let mut width = features;
        let mut count = 1;
        while is_below_root(count, width) {
            width = width.div_ceil(size);
            let nodes = through[count - 1] + width;
            if nodes > MOST {
                return None;
            }
            through[count] = nodes;
            count += 1;
        }
        Some(Levels {
            features,
            node_size: size,
            count,
            through,
        })
    }

    /// The number of all nodes.
    pub fn nodes(&self) -> u64
        ensures nodes { result ≡ node_count (shape_of self.now) }
        ensures few { 40 * result ≤ 2 ^ 48 }
    {
        self.through[self.count - 1]
    }

    /// The number of levels, which is at least two.
    pub fn count(&self) -> usize
        ensures count { result ≡ (shape_of self.now).top + 1 }
        ensures some { 2 ≤ result }
    {
        self.count
    }

    /// The numbers of the first node of level k, and of the first behind it.
    pub fn level(&self, k: usize) -> (u64, u64)
        requires { k < (shape_of self.now).top + 1 }
        ensures first { result.0 ≡ place (shape_of self.now) k 0 }
        ensures end { result.1 ≡ place (shape_of self.now) k (width (shape_of self.now) k) }
        ensures order { result.0 < result.1 }
        ensures within { result.1 ≤ node_count (shape_of self.now) }
    {
        let nodes = self.nodes();
        (nodes - self.through[k], nodes - self.below(k))
    }

    /// How many nodes the levels below level k have.
    fn below(&self, k: usize) -> u64
        requires { k < (shape_of self.now).top + 1 }
        ensures { result + place (shape_of self.now) k (width (shape_of self.now) k) ≡ node_count (shape_of self.now) }
    {
        if k == 0 { 0 } else { self.through[k - 1] }
    }

    /// The level on which a node stands, and its place in that level.
    pub fn position(&self, node: u64) -> (usize, u64)
        requires { node < node_count (shape_of self.now) }
        ensures stands { IsNode (shape_of self.now) result.0 result.1 }
        ensures number { node ≡ place (shape_of self.now) result.0 result.1 }
    {
        let mut k = self.count - 1;
        while node >= self.level(k).1 {
            k -= 1;
        }
        (k, node - self.level(k).0)
    }

    /// The number of a node's parent, None exactly for the root.
    pub fn parent(&self, node: u64) -> Option<u64>
        requires { node < node_count (shape_of self.now) }
        ensures { (k i : ℕ) → IsNode (shape_of self.now) k i → node ≡ place (shape_of self.now) k i
            → MatchOption result (k ≡ (shape_of self.now).top) (λ parent. (k < (shape_of self.now).top) × (parent ≡ place (shape_of self.now) (k + 1) (i / (shape_of self.now).node_size))) }
    {
        let (k, i) = self.position(node);
        if k + 1 == self.count {
            return None;
        }
        Some(self.level(k + 1).0 + i / self.node_size)
    }

    /// The number of a node's first child, None exactly for a leaf.
    pub fn first_child(&self, node: u64) -> Option<u64>
        requires { node < node_count (shape_of self.now) }
        ensures { (k i : ℕ) → IsNode (shape_of self.now) k i → node ≡ place (shape_of self.now) k i
            → MatchOption result (k ≡ 0) (λ child. (0 < k) × (child ≡ place (shape_of self.now) (k - 1) (first_child (shape_of self.now) i))) }
    {
        let (k, i) = self.position(node);
        if k == 0 {
            return None;
        }
        Some(self.level(k - 1).0 + i * self.node_size)
    }

    /// The numbers of the first child of an inner node, and of the first node behind its children.
    pub fn group(&self, node: u64) -> (u64, u64)
        requires { node < place (shape_of self.now) 0 0 }
        ensures children { (k i : ℕ) → IsNode (shape_of self.now) (k + 1) i → node ≡ place (shape_of self.now) (k + 1) i
            → (result.0 ≡ place (shape_of self.now) k (first_child (shape_of self.now) i)) × (result.1 ≡ place (shape_of self.now) k (children_end (shape_of self.now) k i)) }
        ensures order { result.0 < result.1 }
        ensures few { result.1 ≤ result.0 + (shape_of self.now).node_size }
        ensures within { result.1 ≤ node_count (shape_of self.now) }
    {
        let (k, i) = self.position(node);
        let (first, end) = self.level(k - 1);
        let from = first + i * self.node_size;
        (from, end.min(from + self.node_size))
    }
}

/// Whether the last of so many levels, which has so many nodes, is not the root's: one leaf has the root above it.
fn is_below_root(count: usize, width: u64) -> bool
    ensures { IsTrue result ↔ IsBelowRoot count width }
{
    count == 1 || width > 1
}
