// Small values, and where a total stops.
use crate::measure::{Measure, join_all};
use crate::values::{Marks, Range, Total};
use shapes::Reading;
use std::test::Fail;

// A number as a reading, or itself as the fault.
fn reading(n: u32) -> Result<Reading, u32> {
    Reading::new(n).ok_or(n)
}

#[test]
fn constants(rt: HostRuntime) {
    assert_eq!(rt; <Total as Measure>::LETTER, b'T');
    assert_eq!(rt; <Range as Measure>::LETTER, b'R');
    assert_eq!(rt; <Marks as Measure>::LETTER, b'M');
    assert_eq!(rt; <Total as Measure>::COLUMNS, 2);
    assert_eq!(rt; <Range as Measure>::COLUMNS, 2);
    assert_eq!(rt; <Marks as Measure>::COLUMNS, 1);
}

#[test]
fn a_total_counts_and_sums(rt: HostRuntime) -> Result<(), Fail> {
    let five = reading(5)?;
    let seven = reading(7)?;
    let both = join_all(&[
        <Total as Measure>::lift(five),
        <Total as Measure>::lift(seven),
    ]);
    assert_eq!(rt; both, Total { count: 2, sum: 12 });
    assert_eq!(rt; both.column(0), 2);
    assert_eq!(rt; both.column(1), 12);
    assert_eq!(rt; both.column(2), 0);
    Ok(())
}

#[test]
fn a_total_stops_at_the_largest_number(rt: HostRuntime) -> Result<(), Fail> {
    let top = Total {
        count: u64::MAX,
        sum: u64::MAX - 3,
    };
    let seven = reading(7)?;
    let more = top.join(<Total as Measure>::lift(seven));
    assert_eq!(rt; more.count, u64::MAX);
    assert_eq!(rt; more.sum, u64::MAX);
    Ok(())
}

#[test]
fn a_range_spans_its_readings(rt: HostRuntime) -> Result<(), Fail> {
    let five = <Range as Measure>::lift(reading(5)?);
    let seven = <Range as Measure>::lift(reading(7)?);
    assert_eq!(rt;
        seven.join(<Range as Measure>::empty()),
        Range { low: 7, high: 7 }
    );
    assert_eq!(rt; seven.join(five), Range { low: 5, high: 7 });
    assert!(rt; <Range as Measure>::empty().is_empty());
    assert!(rt; !five.is_empty());
    Ok(())
}

#[test]
fn marks_go_by_the_remainder(rt: HostRuntime) -> Result<(), Fail> {
    let three = <Marks as Measure>::lift(reading(3)?);
    let later = <Marks as Measure>::lift(reading(67)?);
    assert_eq!(rt; three.bits, 8);
    assert_eq!(rt; later.bits, 8);
    assert_eq!(rt; three.join(Marks { bits: 1 }).column(0), 9);
    Ok(())
}
