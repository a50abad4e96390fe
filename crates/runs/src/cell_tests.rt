// An array of 4 by 2 in chunks of 2 by 2: a block of the root is joined into the region of the group that keeps dimension 0.
ghost use Rattle.std.specs.Prelude.{◌≡◌, [], ◌∷◌, replicate, IfOk};
ghost use Rattle.shapes.specs.Views.{dims_of};
ghost use Rattle.cubes.specs.Examples.{four_by_two};

use crate::bases::Regions;
use crate::layouts::{Layout, Region};
use measures::Marks;
use plans::Plan;
use shapes::{Dim, Shape, kept_dimensions};
use std::test::Fail;

fn marks(bits: u64) -> Marks {
    Marks { bits }
}

fn small_layout() -> Result<Layout, Fail>
    ensures { IfOk result (λ y. (dims_of y.shape ≡ four_by_two) × (y.places ≡ 1 ∷ 2 ∷ 0 ∷ 0 ∷ 0 ∷ 0 ∷ [])) }
{
    let dims = [Dim { size: 4, edge: 2 }, Dim { size: 2, edge: 2 }];
    Ok(Layout {
        shape: Shape::new(&dims)?,
        places: [1, 2, 0, 0, 0, 0],
        adds: [0; 64],
    })
}

// The regions of that array in the order of the dimensions' numbers, where its plan has dimension 1 first; and each parent adds the earliest in that order.
fn other_regions() -> Result<Regions, Fail>
    ensures { IfOk result (λ s. (dims_of s.layout.shape ≡ four_by_two) × (s.layout.places ≡ 1 ∷ 2 ∷ 0 ∷ 0 ∷ 0 ∷ 0 ∷ []) × (s.layout.adds ≡ 0 ∷ 1 ∷ replicate 62 0)) }
{
    let dims = [Dim { size: 4, edge: 2 }, Dim { size: 2, edge: 2 }];
    let mut adds = [0; 64];
    adds[1] = 1;
    Ok(Regions::of(&Shape::new(&dims)?, [1, 2, 0, 0, 0, 0], adds))
}

#[test]
fn radices_of_a_group(rt: HostRuntime) -> Result<(), Fail> {
    let dims = [
        Dim { size: 2, edge: 2 },
        Dim { size: 3, edge: 3 },
        Dim { size: 4, edge: 4 },
    ];
    let edges = Shape::new(&dims)?
        .edge_radices()
        .kept(kept_dimensions(5))
        .each();
    assert_eq!(rt; edges[0], 2);
    assert_eq!(rt; edges[1], 1);
    assert_eq!(rt; edges[2], 4);
    Ok(())
}

#[test]
fn block_joined(rt: HostRuntime) -> Result<(), Fail> {
    let layout = small_layout()?;
    let root = Region {
        base: 0,
        kept: [true, true, false, false, false, false],
        lacked: 0,
    };
    let child = Region {
        base: 4,
        kept: [true, false, false, false, false, false],
        lacked: 2,
    };
    let mut cells = [marks(1); 8];
    cells[1] = marks(2);
    cells[2] = marks(4);
    cells[7] = marks(16);
    layout.join_block(&mut cells, root, child, [1, 0, 0, 0, 0, 0]);
    assert_eq!(rt; cells[5], marks(1));
    assert_eq!(rt; cells[6], marks(5));
    assert_eq!(rt; cells[7], marks(19));
    Ok(())
}

#[test]
fn block_written(rt: HostRuntime) -> Result<(), Fail> {
    let layout = small_layout()?;
    let region = Region {
        base: 4,
        kept: [true, false, false, false, false, false],
        lacked: 2,
    };
    let mut cells = [marks(1); 8];
    cells[6] = marks(5);
    let mut out = [marks(64); 3];
    assert_eq!(rt;
        layout.write_block(&cells, region, [1, 0, 0, 0, 0, 0], &mut out),
        2
    );
    assert_eq!(rt; out[0], marks(5));
    assert_eq!(rt; out[1], marks(1));
    assert_eq!(rt; out[2], marks(64));
    Ok(())
}

// By hand: the root's region is the cells 0 to 3, that of no dimension is cell 4, that of dimension 0 the cells 5 to 8, since it keeps all of its size there,
// and that of dimension 1 the cells 9 and 10. In the plan's order that of dimension 0 would have 2 cells, and cell 4 would be joined from dimension 1.
#[test]
fn another_order(rt: HostRuntime) -> Result<(), Fail> {
    let regions = other_regions()?;
    let plan = Plan::of(&regions.layout.shape);
    assert_eq!(rt; plan.order(), [2, 1, 0, 0, 0, 0]);
    assert_eq!(rt; plan.added()[0], 1);
    let mut cells = [marks(1); 11];
    cells[0] = marks(2);
    cells[1] = marks(4);
    cells[2] = marks(8);
    cells[3] = marks(16);
    regions.join_children(&mut cells, 3, [1, 0, 0, 0, 0, 0]);
    assert_eq!(rt; cells[6], marks(1));
    assert_eq!(rt; cells[7], marks(11));
    assert_eq!(rt; cells[8], marks(21));
    assert_eq!(rt; cells[9], marks(7));
    assert_eq!(rt; cells[10], marks(25));
    regions.join_children(&mut cells, 1, [1, 0, 0, 0, 0, 0]);
    assert_eq!(rt; cells[4], marks(31));
    regions.empty(&mut cells, 1);
    assert_eq!(rt; cells[4], marks(31));
    assert_eq!(rt; cells[5], marks(0));
    assert_eq!(rt; cells[8], marks(0));
    assert_eq!(rt; cells[9], marks(7));
    Ok(())
}
