// The small example: sizes 4, 2 with edges 2, 2.
use crate::{SummaryRefusal, direct_summary};
use measures::{Measure, Total};
use shapes::{Dim, Shape};
use sources::{Row, RowTable};
use std::test::Fail;

fn total(count: u64, sum: u64) -> Total {
    Total { count, sum }
}

#[test]
fn cells_are_summed(rt: HostRuntime) -> Result<(), Fail> {
    let shape = Shape::new(&[Dim { size: 4, edge: 2 }, Dim { size: 2, edge: 2 }])?;
    let rows = [
        Row {
            at: [0; 6],
            reading: 5,
        },
        Row {
            at: [3, 0, 0, 0, 0, 0],
            reading: 7,
        },
        Row {
            at: [3, 1, 0, 0, 0, 0],
            reading: 1,
        },
    ];
    let mut source = RowTable::new(shape, &rows);
    let mut cells = [<Total as Measure>::empty(); 5];
    assert_eq!(rt;
        direct_summary(&mut source, 0, [9; 6], &mut cells),
        Ok(total(3, 13))
    );
    assert_eq!(rt;
        direct_summary(&mut source, 1, [3, 9, 0, 0, 0, 0], &mut cells),
        Ok(total(2, 8))
    );
    assert_eq!(rt;
        direct_summary(&mut source, 2, [9, 1, 0, 0, 0, 0], &mut cells),
        Ok(total(1, 1))
    );
    assert_eq!(rt;
        direct_summary(&mut source, 3, [1, 1, 0, 0, 0, 0], &mut cells),
        Ok(total(0, 0))
    );
    assert_eq!(rt;
        direct_summary(&mut source, 4, [0; 6], &mut cells),
        Err(SummaryRefusal::Outside)
    );
    assert_eq!(rt;
        direct_summary(&mut source, 2, [0, 2, 0, 0, 0, 0], &mut cells),
        Err(SummaryRefusal::Outside)
    );
    assert_eq!(rt;
        direct_summary(&mut source, 0, [0; 6], &mut cells[0..3]),
        Err(SummaryRefusal::Short(4))
    );
    Ok(())
}
