// What the listing leaves out.
ghost use Rattle.listings.specs.Listings.{MeasuresTellEmpty};

/// In each measure the empty value is the only one that prints as it does, so just the empty cells are left out.
pub fn only_empty_is_left_out()
    ensures { MeasuresTellEmpty }
{}
