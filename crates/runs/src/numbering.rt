// The blocks of the groups: their chunk coordinates, their numbers and their cells.
ghost use Rattle.std.specs.Prelude.{◌≡◌, ◌/◌, ◌%◌, ◌^◌, ◌<◌, length, slice_index};
ghost use Rattle.shapes.specs.Arrays.{edges, group, product, radix};
ghost use Rattle.shapes.specs.Views.{dims_of};
ghost use Rattle.plans.specs.Views.{place_in};
ghost use Rattle.cubes.specs.Scans.{scan_digits, width};
ghost use Rattle.runs.specs.Trees.{CoordinatesOf, NumberOf};

use crate::tree::Tree;
use crate::trees::{radices_of, width_before};
use shapes::{Radices, Shape};
use std::array;

// A block of a group: its chunk coordinates, 0 in each dropped dimension, and its number, counted by dimension number over the kept dimensions.
#[derive(Clone, Copy)]
pub(crate) struct Block {
    pub(crate) at: [u32; 6],
    pub(crate) number: u64,
}

// The number of cells in a block of a group: the product of its kept edges.
pub(crate) fn block_cells(shape: &Shape, mask: u32) -> u32
    ensures { result ≡ product (radix (group (length (dims_of shape.now)) mask) (edges (dims_of shape.now))) }
{
    radices_of(&shape.edge_radices(), mask).product() as u32
}

// The digit of a scan number in a dimension, which is given by its number.
fn scan_digit(radices: &Radices, places: [u32; 6], scan: u64, i: usize) -> u32
    requires { i < 6 }
    ensures { result ≡ scan / width (place_in places) radices.now.each (place_in places i) % slice_index radices.now.each i }
{
    let weight = width_before(radices, places, places[i]);
    (scan / weight % u64::from(radices.each()[i])) as u32
}

// The digits of a scan number, by dimension number: that of the earliest place changes fastest.
fn scan_digits(radices: &Radices, places: [u32; 6], scan: u64) -> [u32; 6]
    ensures { result ≡ scan_digits (place_in places) radices.now.each scan }
{
    array::from_fn(|i| scan_digit(radices, places, scan, i))
}

impl Tree {
    // A group's block by its number in the group's scan order.
    pub(crate) fn block(&self, mask: u32, scan: u64) -> Block
        ensures coordinates { CoordinatesOf self.now mask scan result.at }
        ensures number { NumberOf self.now mask result.at result.number }
    {
        let radices = radices_of(&self.chunks, mask);
        let at = scan_digits(&radices, self.places, scan);
        Block {
            at,
            number: radices.number(at).unwrap(),
        }
    }
}
