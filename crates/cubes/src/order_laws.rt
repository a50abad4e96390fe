// What is proved of the handing order.
ghost use Rattle.cubes.specs.HandingLaws.{LatticeIsScanned, ScanNumbers, ReleaseIsWhole, Completion, InScanOrder, BlocksOfGroups, EachBlockOnce, NumbersOverKept, HowManyBlocks, ReleasedIsFront, ChunksPassed, RegionCells};

/// All groups, with any choice of parents, are the groups of a scan.
pub fn lattice_is_scanned()
    ensures { LatticeIsScanned }
{}

/// A group's blocks are numbered in scan order, from 0 on.
pub fn scan_numbers_are_exact()
    ensures { ScanNumbers }
{}

/// The definition of a release counts levels: the count cuts nothing off.
pub fn release_is_whole()
    ensures { ReleaseIsWhole }
{}

/// A block completes a region if it is highest up to the place of the dimension that is dropped.
pub fn completion_is_highest()
    ensures { Completion }
{}

/// Each group's blocks are handed out in scan order, and nothing else is.
pub fn groups_go_in_scan_order()
    ensures order { InScanOrder }
    ensures only { BlocksOfGroups }
{}

/// No block is handed out twice, also as named by mask and block number.
pub fn each_block_is_handed_once()
    ensures once { EachBlockOnce }
    ensures number { NumbersOverKept }
{}

/// How many blocks are handed out.
pub fn how_many_blocks()
    ensures { HowManyBlocks }
{}

/// What the first chunks release is a front of the handing order.
pub fn released_is_a_front()
    ensures { ReleasedIsFront }
{}

/// When a block is handed out, all chunks beneath it have been passed.
pub fn chunks_beneath_are_passed()
    ensures { ChunksPassed }
{}

/// A region has the cells that the plan counts for its group.
pub fn region_has_planned_cells()
    ensures { RegionCells }
{}
