// The definitions on small arrays.
ghost use Rattle.cubes.specs.Examples.{Examples};

/// What is handed out of two small arrays, worked out.
pub fn examples_come_out()
    ensures { Examples }
{}
