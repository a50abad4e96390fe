// What a listing asks of a measure.
ghost use Rattle.std.specs.Prelude.{◌*◌, ◌^◌, ◌<◌};
ghost use Rattle.std.specs.Mem.{type_size};
ghost use Rattle.std.proofs.Common.{rules};
ghost use Rattle.listings.specs.Listings.{TellsEmpty, given_cells};
ghost use Rattle.listings.specs.Telling.{total_tells, range_tells, marks_tell};

use measures::{Marks, Measure, Range, Total};

// A measure in whose listing just the empty cells are left out, and whose cells fit in memory.
pub(crate) trait Listed: Measure {
    // no other value prints as the empty one does
    ghost tells_empty: { TellsEmpty Self.Measure.empty Self.Measure.columns };

    // an array of all given cells has a size
    ghost fits: { given_cells * type_size Self.row < 2 ^ 63 };
}

impl Listed for Total {
    ghost tells_empty = { total_tells };

    ghost fits = { Prim.search rules };
}

impl Listed for Range {
    ghost tells_empty = { range_tells };

    ghost fits = { Prim.search rules };
}

impl Listed for Marks {
    ghost tells_empty = { marks_tell };

    ghost fits = { Prim.search rules };
}
