// Groups of kept dimensions, and their masks.
ghost use Rattle.std.specs.Prelude.{◌≡◌, ◌^◌, false, length};
ghost use Rattle.std.specs.Option.{option_map};
ghost use Rattle.shapes.specs.Arrays.{group, mask, group_of, mask_of};
ghost use Rattle.shapes.specs.Views.{dims_of, six};

use crate::shape::Shape;
use std::array;

/// Which dimensions, from 0 to 5, the group with a mask keeps.
pub fn kept_dimensions(mask: u32) -> [bool; 6]
    ensures { result ≡ group 6 mask }
{
    array::from_fn(|i| (mask >> i) % 2 == 1)
}

// Six terms, written out: a loop would have to bound what it shifts.
fn mask_of_six(group: [bool; 6]) -> u32
    ensures { result ≡ mask group }
{
    let [a, b, c, d, e, f] = group.map(|kept| u32::from(kept));
    a + 2 * b + 4 * c + 8 * d + 16 * e + 32 * f
}

impl Shape {
    /// The number of groups: one for each set of kept dimensions.
    pub fn group_count(&self) -> u32
        ensures { result ≡ 2 ^ length (dims_of self.now) }
    {
        1 << self.n
    }

    /// The dimensions that the group with a mask keeps, or none where the number is no mask of this shape.
    pub fn group(&self, mask: u32) -> Option<[bool; 6]>
        ensures { result ≡ option_map (six false) (group_of (length (dims_of self.now)) mask) }
    {
        if mask >= self.group_count() {
            return None;
        }
        Some(kept_dimensions(mask))
    }

    /// The mask of the group that keeps these dimensions, or none where one of them is past the last.
    pub fn mask(&self, group: [bool; 6]) -> Option<u32>
        ensures { result ≡ mask_of (length (dims_of self.now)) group }
    {
        let mask = mask_of_six(group);
        if mask >= self.group_count() {
            return None;
        }
        Some(mask)
    }
}
