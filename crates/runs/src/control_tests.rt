// The handing order of a small array.
ghost use Rattle.std.specs.Prelude.{◌≡◌, IfOk};
ghost use Rattle.shapes.specs.Views.{dims_of};
ghost use Rattle.cubes.specs.Examples.{four_by_two};
ghost use Rattle.runs.specs.Trees.{IsGrown};
ghost use Rattle.runs.specs.Controls.{IsControlled};

use crate::control::Control;
use crate::numbering::block_cells;
use crate::tree::Tree;
use shapes::{Dim, Shape};
use std::test::Fail;

// Sizes 4 and 2, edges 2 and 2: two chunks.
fn small_shape() -> Result<Shape, Fail>
    ensures { IfOk result (λ s. dims_of s ≡ four_by_two) }
{
    let dims = [Dim { size: 4, edge: 2 }, Dim { size: 2, edge: 2 }];
    Ok(Shape::new(&dims)?)
}

// Dimension 1 is placed first, and each parent adds the missing dimension of earliest place.
fn small_tree() -> Result<Tree, Fail>
    ensures { IfOk result (λ t. IsGrown t) }
{
    let shape = small_shape()?;
    let mut adds = [0; 64];
    adds[0] = 1;
    adds[1] = 1;
    Ok(Tree::of(&shape, [2, 1, 0, 0, 0, 0], adds))
}

// The next block, after a chunk was passed where none waits; none at the end.
fn step(control: &mut Control) -> Option<(usize, u64)>
    requires { IsControlled control.old }
    ensures { IsControlled control.new }
{
    if control.is_done() {
        return None;
    }
    if !control.waits() {
        control.pass();
    }
    let next = control.next_block();
    control.advance();
    next
}

#[test]
fn small_order(rt: HostRuntime) -> Result<(), Fail> {
    let mut control = Control::start(small_tree()?);
    assert_eq!(rt; step(&mut control), Some((3, 0)));
    assert_eq!(rt; step(&mut control), Some((1, 0)));
    assert_eq!(rt; control.passed, 1);
    assert_eq!(rt; step(&mut control), Some((3, 1)));
    assert_eq!(rt; step(&mut control), Some((1, 1)));
    assert_eq!(rt; step(&mut control), Some((2, 0)));
    assert_eq!(rt; step(&mut control), Some((0, 0)));
    assert_eq!(rt; control.passed, 2);
    assert_eq!(rt; control.handed, 6);
    assert_eq!(rt; step(&mut control), None);
    Ok(())
}

#[test]
fn small_blocks(rt: HostRuntime) -> Result<(), Fail> {
    let shape = small_shape()?;
    assert_eq!(rt; block_cells(&shape, 3), 4);
    assert_eq!(rt; block_cells(&shape, 1), 2);
    assert_eq!(rt; block_cells(&shape, 0), 1);
    let tree = small_tree()?;
    assert_eq!(rt; tree.block(3, 1).at, [1, 0, 0, 0, 0, 0]);
    assert_eq!(rt; tree.block(2, 0).at, [0, 0, 0, 0, 0, 0]);
    Ok(())
}
