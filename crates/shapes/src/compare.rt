// Shapes compared.
ghost use Rattle.std.specs.Prelude.{◌≡◌, Decides};
ghost use Rattle.std.specs.Cmp.{partial_equiv_from_equiv};
ghost use Rattle.shapes.specs.Views.{dims_of, same_dim, same_shape, same_shape_equiv};

use crate::dims::Dim;
use crate::shape::Shape;

// Whether two dimensions are the same.
fn same_dim(a: &Dim, b: &Dim) -> bool
    ensures { result ≡ same_dim a.now b.now }
{
    a.size == b.size && a.edge == b.edge
}

/// Shapes are equal exactly when they have the same dimensions.
// By hand: a derive would compare what is worked out of the dimensions too, and would bear no clause of its own.
impl PartialEq for Shape {
    ghost eq = { same_shape };

    ghost laws = { partial_equiv_from_equiv same_shape_equiv };

    fn eq(&self, other: &Shape) -> bool
        ensures value { result ≡ same_shape self.now other.now }
        ensures decides { Decides result (dims_of self.now ≡ dims_of other.now) }
    {
        let mut pairs = self.dims.iter().zip(&other.dims);
        self.n == other.n && pairs.all(|(a, b)| same_dim(a, b))
    }
}

impl Eq for Shape {
    ghost laws = { same_shape_equiv };
}
