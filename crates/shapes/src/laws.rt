// Facts on numbers and masks, each the contract of a function.
ghost use Rattle.shapes.specs.Laws.{NumbersCount, MasksNumber};

/// Storage numbers, offsets and block numbers are sums of digits times the radices before them, and go with their digits one to one.
pub fn numbers_count_digits()
    ensures { NumbersCount }
{}

/// Masks and groups go with each other one to one.
pub fn masks_number_groups()
    ensures { MasksNumber }
{}
