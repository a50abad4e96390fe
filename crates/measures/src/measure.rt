// A measure: an empty value, a value for each reading, and a join of two values.
ghost use Rattle.std.specs.Prelude.{◌≡◌, ℕ, true, List, length, slice_index};
ghost use Rattle.measures.specs.Laws.{Lawful, total};
ghost use Rattle.measures.specs.Totals.{no_total, total_join, total_lift, total_columns, total_wide, total_lawful};
ghost use Rattle.measures.specs.Ranges.{no_range, range_join, range_lift, range_columns, range_wide, range_lawful};
ghost use Rattle.measures.specs.Markings.{no_marks, marks_join, marks_lift, marks_columns, marks_wide, marks_lawful};
ghost use Rattle.shapes.specs.declared.readings.Reading.{Reading};

use crate::values::{Marks, Range, Total};
use shapes::Reading;

/// What a cell of a summary can hold.
/// Each implementation owes the laws; code under the bound uses these members and laws, and nothing else of a measure.
pub trait Measure: Copy {
    /// The letter that names the measure.
    const LETTER: u8;

    /// How many columns a value prints as.
    const COLUMNS: usize;

    // the constants, for contracts: the check holds each to its constant
    ghost LETTER: { ℕ };

    ghost COLUMNS: { ℕ };

    // the value of no reading at all
    ghost empty: { Self };

    // the join of two values
    ghost op: { Self → Self → Self };

    // the value of one reading
    ghost lifted: { Reading → Self };

    // the columns that a value prints as
    ghost columns: { Self → List ℕ };

    // every value prints as that many columns
    ghost wide: { (v : Self) → length (columns v) ≡ COLUMNS };

    // the join is associative and commutative, and the empty value changes nothing
    ghost lawful: { Lawful empty op };

    /// `LETTER`, under a contract. No implementation can answer otherwise.
    final fn letter_byte() -> u8
        ensures { result ≡ LETTER }
    {
        Self::LETTER
    }

    /// `COLUMNS`, in the same way.
    final fn column_count() -> usize
        ensures { result ≡ COLUMNS }
    {
        Self::COLUMNS
    }

    fn empty() -> Self
        ensures { result ≡ empty };

    fn lift(r: Reading) -> Self
        ensures { result ≡ lifted r };

    fn join(self, other: Self) -> Self
        ensures { result ≡ op self other };

    // Each implementation writes it: one body here would ask each measure for `==`.
    /// True of the empty value, and of no other.
    fn is_empty(&self) -> bool
        ensures { (result ≡ true → self.now ≡ empty) × (self.now ≡ empty → result ≡ true) };

    /// The column `i`, from 0, and 0 past the last.
    fn column(&self, i: usize) -> u64
        ensures { result ≡ slice_index (columns self.now) i };
}

impl Measure for Total {
    const LETTER: u8 = b'T';

    const COLUMNS: usize = 2;

    ghost LETTER = { 84 };

    ghost COLUMNS = { 2 };

    ghost empty = { no_total };

    ghost op = { total_join };

    ghost lifted = { total_lift };

    ghost columns = { total_columns };

    ghost wide = { total_wide };

    ghost lawful = { total_lawful };

    fn empty() -> Total {
        Total { count: 0, sum: 0 }
    }

    fn lift(r: Reading) -> Total {
        Total {
            count: 1,
            sum: u64::from(r.value()),
        }
    }

    fn join(self, other: Total) -> Total {
        Total {
            count: self.count.saturating_add(other.count),
            sum: self.sum.saturating_add(other.sum),
        }
    }

    fn is_empty(&self) -> bool {
        *self == Total::empty()
    }

    fn column(&self, i: usize) -> u64 {
        [self.count, self.sum].get(i).copied().unwrap_or(0)
    }
}

impl Measure for Range {
    const LETTER: u8 = b'R';

    const COLUMNS: usize = 2;

    ghost LETTER = { 82 };

    ghost COLUMNS = { 2 };

    ghost empty = { no_range };

    ghost op = { range_join };

    ghost lifted = { range_lift };

    ghost columns = { range_columns };

    ghost wide = { range_wide };

    ghost lawful = { range_lawful };

    fn empty() -> Range {
        Range {
            low: u32::MAX,
            high: 0,
        }
    }

    fn lift(r: Reading) -> Range {
        Range {
            low: r.value(),
            high: r.value(),
        }
    }

    fn join(self, other: Range) -> Range {
        Range {
            low: self.low.min(other.low),
            high: self.high.max(other.high),
        }
    }

    fn is_empty(&self) -> bool {
        *self == Range::empty()
    }

    fn column(&self, i: usize) -> u64 {
        let columns = [u64::from(self.low), u64::from(self.high)];
        columns.get(i).copied().unwrap_or(0)
    }
}

impl Measure for Marks {
    const LETTER: u8 = b'M';

    const COLUMNS: usize = 1;

    ghost LETTER = { 77 };

    ghost COLUMNS = { 1 };

    ghost empty = { no_marks };

    ghost op = { marks_join };

    ghost lifted = { marks_lift };

    ghost columns = { marks_columns };

    ghost wide = { marks_wide };

    ghost lawful = { marks_lawful };

    fn empty() -> Marks {
        Marks { bits: 0 }
    }

    fn lift(r: Reading) -> Marks {
        Marks {
            bits: 1 << (r.value() % 64),
        }
    }

    fn join(self, other: Marks) -> Marks {
        Marks {
            bits: self.bits | other.bits,
        }
    }

    fn is_empty(&self) -> bool {
        *self == Marks::empty()
    }

    fn column(&self, i: usize) -> u64 {
        [self.bits].get(i).copied().unwrap_or(0)
    }
}

/// The join of the empty value and every value of a slice.
pub fn join_all<M: Measure>(xs: &[M]) -> M
    ensures { result ≡ total M.empty M.op xs.now }
{
    xs.iter().fold(M::empty(), |all, x| all.join(*x))
}
