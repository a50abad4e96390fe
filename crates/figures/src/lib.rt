// Worked figures, proved against the definitions as one table.
#![tactic(auto)]

ghost use Rattle.figures.specs.Figures.{Figures};

/// The figures that a reader can check by hand.
pub fn worked_figures()
    ensures { Figures }
{}
