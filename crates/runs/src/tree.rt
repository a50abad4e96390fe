// The tree of groups: for each group its parent, and how often the parent's blocks complete a region of it.
ghost use Rattle.std.specs.Prelude.{◌≡◌, ◌^◌, ◌≤◌, length};
ghost use Rattle.runs.specs.Nodes.{Climbs};

use shapes::Radices;

// A group's parent by mask, how many of the parent's blocks complete a region of the group, and how many blocks a region has.
#[derive(Clone, Copy)]
pub struct Node {
    pub up: usize,
    pub period: u64,
    pub share: u64,
}

// The number of dimensions and of chunks, the chunk counts, the order and the parents that the tree is made from, and a node for each mask.
// The nodes name their parents by mask, in a table of fixed size, since nothing here may be on a heap.
// `n` stands beside them for the same reason. `adds` is read by contracts alone: the nodes are made of it.
#[derive(Clone, Copy)]
pub struct Tree {
    pub n: usize,
    pub total: u64,
    pub chunks: Radices,
    pub places: [u32; 6],
    pub adds: [u8; 64],
    pub nodes: [Node; 64],
    ghost few: { (n ≤ 6) × (2 ^ n ≤ 64) },
    ghost few_chunks: { total ≤ 2 ^ 34 },
    ghost all_adds: { length adds ≡ 64 },
    ghost all_nodes: { length nodes ≡ 64 },
    ghost climbs: { Climbs n nodes },
}
