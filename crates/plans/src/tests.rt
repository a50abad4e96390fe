// Plans of a few shapes.
use crate::plan::Plan;
use crate::refusals::TooFewCells;
use shapes::{Dim, Shape};
use std::test::Fail;

fn plan_of(dims: &[Dim]) -> Result<Plan, Fail> {
    let shape = Shape::new(dims)?;
    Ok(Plan::of(&shape))
}

#[test]
fn equal_slack_goes_by_number(rt: HostRuntime) -> Result<(), Fail> {
    let plan = plan_of(&[Dim { size: 16, edge: 4 }; 3])?;
    assert_eq!(rt; plan.need(), 425);
    assert_eq!(rt; plan.order(), [1, 2, 3, 0, 0, 0]);
    let parents = [
        plan.parent(0),
        plan.parent(2),
        plan.parent(5),
        plan.parent(7),
        plan.parent(8),
    ];
    assert_eq!(rt; parents, [Some(1), Some(3), Some(7), None, None]);
    Ok(())
}

#[test]
fn needs(rt: HostRuntime) -> Result<(), Fail> {
    let growing = plan_of(&[
        Dim { size: 10, edge: 10 },
        Dim {
            size: 100,
            edge: 10,
        },
        Dim {
            size: 1000,
            edge: 10,
        },
    ])?;
    assert_eq!(rt; growing.need(), 2231);
    let uneven = plan_of(&[Dim { size: 6, edge: 1 }, Dim { size: 12, edge: 12 }])?;
    assert_eq!(rt; uneven.need(), 26);
    assert_eq!(rt; uneven.order(), [2, 1, 0, 0, 0, 0]);
    let single = plan_of(&[Dim { size: 1, edge: 1 }])?;
    assert_eq!(rt; single.need(), 2);
    Ok(())
}

#[test]
fn enough_cells(rt: HostRuntime) -> Result<(), Fail> {
    let plan = plan_of(&[Dim { size: 4, edge: 2 }, Dim { size: 2, edge: 2 }])?;
    assert_eq!(rt; plan.need(), 9);
    let adds = plan.added();
    assert!(rt; adds[0..5] == [1, 1, 0, 0, 0]);
    assert_eq!(rt; plan.check(8), Err(TooFewCells { need: 9 }));
    assert_eq!(rt; plan.check(9), Ok(()));
    Ok(())
}
