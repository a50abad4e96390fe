// The definition on small inputs.
ghost use Rattle.listings.specs.Examples.{Examples};

/// The listings of small inputs, worked out.
pub fn examples_are_listed()
    ensures { Examples }
{}
