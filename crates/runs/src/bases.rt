// Where the regions of the groups stand among the planned cells.
ghost use Rattle.std.specs.Prelude.{◌≡◌, length};
ghost use Rattle.std.proofs.Props.{props};
ghost use Rattle.shapes.specs.Arrays.{volume};
ghost use Rattle.shapes.specs.Views.{dims_of};
ghost use Rattle.runs.specs.Grids.{Bases, top};

use crate::layouts::Layout;

// A layout of any order and any choice of parents, and by mask where the region of each group begins.
#[derive(Clone, Copy)]
pub(crate) struct Regions {
    pub(crate) layout: Layout,
    pub(crate) bases: [usize; 64],
    ghost all_bases: { length bases ≡ 64 },
    ghost starts: { Bases layout layout.adds (top layout) (volume (dims_of layout.shape)) bases } by { Prim.hlevel props },
}
