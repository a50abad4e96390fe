// The theory of the scan: direct summaries, and the order in which blocks are handed out. Each function's contract is a theorem.
#![tactic(auto)]

mod examples;
mod order_laws;
mod summary_laws;

pub use examples::examples_come_out;
pub use order_laws::{
    chunks_beneath_are_passed, completion_is_highest, each_block_is_handed_once,
    groups_go_in_scan_order, how_many_blocks, lattice_is_scanned, region_has_planned_cells,
    release_is_whole, released_is_a_front, scan_numbers_are_exact,
};
pub use summary_laws::{
    child_joins_parent, complete_when_handed, regions_between_hands, regions_hold, root_is_base,
};
