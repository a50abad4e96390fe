// The check of a shape: the number of dimensions; then size, edge and division, dimension by dimension; then the two products.
ghost use Rattle.std.specs.Prelude.{◌≡◌, ℕ, ◌^◌, ◌<◌, ◌≤◌, true, ◌↔◌, map, length, is_ok, Some, None, MatchOption, MatchResult, slice_index};
ghost use Rattle.shapes.specs.Arrays.{product, none_dim};
ghost use Rattle.shapes.specs.Limits.{Limits, dim_fault, dims_fault, shape_fault};
ghost use Rattle.shapes.specs.Refusals.{shape_refusal};
ghost use Rattle.shapes.specs.Views.{dims_of, six};

use crate::dims::Dim;
use crate::refusals::ShapeRefusal;
use crate::shape::Shape;

const CHUNK_LIMIT: u64 = 16_384;

const ARRAY_LIMIT: u64 = 17_179_869_184;

fn check_dim(i: usize, d: Dim) -> Result<(), ShapeRefusal>
    ensures { MatchResult result (λ _. dim_fault i d ≡ None) (λ e. dim_fault i d ≡ Some (shape_refusal e)) }
{
    if d.size < 1 || d.size > 16384 {
        return Err(ShapeRefusal::Size(i));
    }
    if d.edge < 1 || d.edge > d.size {
        return Err(ShapeRefusal::Edge(i));
    }
    if d.size % d.edge != 0 {
        return Err(ShapeRefusal::Division(i));
    }
    Ok(())
}

fn check_dims(dims: &[Dim]) -> Result<(), ShapeRefusal>
    ensures { MatchResult result (λ _. dims_fault 0 dims.now ≡ None) (λ e. dims_fault 0 dims.now ≡ Some (shape_refusal e)) }
{
    for (i, d) in dims.iter().enumerate() {
        check_dim(i, *d)?;
    }
    Ok(())
}

// The dimensions, filled up to six.
fn filled_up(dims: &[Dim]) -> [Dim; 6]
    requires { length dims.now ≤ 6 }
    ensures { result ≡ six none_dim dims.now }
{
    let mut all = [Dim { size: 1, edge: 1 }; 6];
    all[..dims.len()].copy_from_slice(dims);
    all
}

// The product of the factors, or none where it passes the limit. It leaves at the limit, so that no product on the way passes 2^48.
fn product_within(factors: [u32; 6], limit: u64) -> Option<u64>
    requires some { 1 ≤ limit }
    requires small { limit ≤ 2 ^ 34 }
    requires each { (i : ℕ) → i < 6 → (1 ≤ slice_index factors i) × (slice_index factors i ≤ 16384) }
    ensures { MatchOption result (limit < product factors) (λ p. (p ≡ product factors) × (p ≤ limit)) }
{
    let mut p: u64 = 1;
    for factor in factors {
        p *= u64::from(factor);
        if p > limit {
            return None;
        }
    }
    Some(p)
}

impl Shape {
    /// The shape with these dimensions, or the first cause that stops it.
    pub fn new(dims: &[Dim]) -> Result<Shape, ShapeRefusal>
        ensures answer { MatchResult result (λ s. (shape_fault dims.now ≡ None) × (dims_of s ≡ dims.now)) (λ e. shape_fault dims.now ≡ Some (shape_refusal e)) }
        ensures limits { (is_ok result ≡ true) ↔ Limits dims.now }
    {
        let n = dims.len();
        if n < 1 || n > 6 {
            return Err(ShapeRefusal::Dimensions);
        }
        check_dims(dims)?;
        let all = filled_up(dims);
        let Some(cells) = product_within(all.map(|d| d.edge), CHUNK_LIMIT) else {
            return Err(ShapeRefusal::Volume);
        };
        let Some(extent) = product_within(all.map(|d| d.size), ARRAY_LIMIT) else {
            return Err(ShapeRefusal::Extent);
        };
        Ok(Shape {
            n,
            dims: all,
            cells: cells as u32,
            chunks: extent / cells,
        })
    }
}
