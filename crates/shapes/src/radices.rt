// Radices of numbers: the chunk counts or the edges of a shape, dimension by dimension.
ghost use Rattle.std.specs.Prelude.{◌≡◌, ℕ, ◌^◌, ◌<◌, ◌≤◌, true, length, slice_index};
ghost use Rattle.shapes.specs.Arrays.{product, number, digits, inside, numbered, radix};

use std::array;

/// Six radices, each at least 1, whose product is at most the number of cells of the largest array. They are the chunk counts or the edges of a shape, 1 past
/// the last dimension; or those of a group of kept dimensions, 1 for each dropped one.
#[derive(Clone, Copy, PartialEq, Eq, Debug)]
pub struct Radices {
    pub(crate) each: [u32; 6],
    ghost six: { length each ≡ 6 },
    ghost some: { (i : ℕ) → i < 6 → 1 ≤ slice_index each i },
    ghost small: { product each ≤ 2 ^ 34 },
}

impl Radices {
    /// The radices, one by one.
    pub fn each(&self) -> [u32; 6]
        ensures { result ≡ self.now.each }
    {
        self.each
    }

    /// How many numbers there are: the product of the radices.
    pub fn product(&self) -> u64
        ensures { result ≡ product self.now.each }
    {
        let mut product: u64 = 1;
        for radix in self.each {
            product *= u64::from(radix);
        }
        product
    }

    // Whether each digit is below its radix.
    fn are_above(&self, digits: [u32; 6]) -> bool
        ensures { result ≡ inside self.now.each digits }
    {
        digits
            .iter()
            .zip(&self.each)
            .all(|(digit, radix)| digit < radix)
    }

    // The number of digits that lie inside, from the slowest digit on.
    fn number_inside(&self, digits: [u32; 6]) -> u64
        requires { inside self.now.each digits ≡ true }
        ensures { result ≡ number self.now.each digits }
    {
        let mut number: u64 = 0;
        // By index: of a zip that is turned round no lemma tells which pair comes, so its proof did not close; turned round before the zip it would go by
        // two reversed lists.
        for i in (0..6).rev() {
            number = u64::from(digits[i]) + u64::from(self.each[i]) * number;
        }
        number
    }

    /// The number of these digits, the first digit changing fastest; or none where one is not below its radix.
    pub fn number(&self, digits: [u32; 6]) -> Option<u64>
        ensures { result ≡ numbered self.now.each digits }
    {
        if !self.are_above(digits) {
            return None;
        }
        Some(self.number_inside(digits))
    }

    /// The digits of a number, the first digit changing fastest. A number from the product on loses what counts more than that.
    pub fn digits(&self, number: u64) -> [u32; 6]
        ensures { result ≡ digits self.now.each number }
    {
        let mut digits = [0; 6];
        let mut rest = number;
        for (i, radix) in self.each.iter().enumerate() {
            digits[i] = (rest % u64::from(*radix)) as u32;
            rest /= u64::from(*radix);
        }
        digits
    }

    // The radices of a group, one by one.
    fn each_kept(&self, group: [bool; 6]) -> [u32; 6]
        ensures { result ≡ radix group self.now.each }
    {
        array::from_fn(|i| if group[i] { self.each[i] } else { 1 })
    }

    /// The radices of a group of kept dimensions: 1 for each dropped one.
    pub fn kept(&self, group: [bool; 6]) -> Radices
        ensures { result.each ≡ radix group self.now.each }
    {
        Radices {
            each: self.each_kept(group),
        }
    }
}
