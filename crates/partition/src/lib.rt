// The partition worked out afresh, over any hash: definitions and laws; the top bits of a hash, the bits that two hashes share, and a prefix's run of entries.
#![tactic(auto)]

ghost use Rattle.std.specs.Prelude.{◌≡◌, ◌≤◌, ◌<◌, ◌^◌, length};
ghost use Rattle.partition.specs.Bits.{top, shared};
ghost use Rattle.partition.specs.Partition.{first, after};
ghost use Rattle.partition.specs.Sizes.{Sized, size, shape_at, shape_for, number_of_size, shape_of};

use std::ops::Range;

// What a page size decides: the bytes that rows may need together (page size less 8), the directory's entry count, the deepest depth.
#[derive(Clone, Copy)]
pub struct Shape {
    pub capacity: usize,
    pub entries: usize,
    pub deepest: usize,
}

impl Shape {
    // The bytes of a page.
    pub fn size(self) -> usize
        requires { size self < 18446744073709551616 }
        ensures { result ≡ size self }
    {
        8 + self.capacity
    }
}

// Pages of 1,024 bytes.
pub const S1024: Shape = Shape {
    capacity: 1016,
    entries: 256,
    deepest: 8,
};

// The table of the page sizes, 1,024, 4,096 and 16,384.
const SHAPES: [Shape; 3] = [
    S1024,
    Shape {
        capacity: 4088,
        entries: 1024,
        deepest: 10,
    },
    Shape {
        capacity: 16376,
        entries: 4096,
        deepest: 12,
    },
];

// Row i of the table.
pub fn shape_at(i: usize) -> Shape
    requires { i < 3 }
    ensures { result ≡ shape_at i }
{
    SHAPES[i]
}

// What a size number stands for.
// Stays: the number is the one in page 0 at 20, as document 01 has it, and no number of a step.
pub fn shape_for(number: usize) -> Shape
    ensures { result ≡ shape_for number }
{
    match number {
        4096 => shape_at(1),
        16384 => shape_at(2),
        _ => shape_at(0),
    }
}

// The number that stands for a page size: the size, written 0 for 1,024.
pub fn size_number(z: Shape) -> usize
    requires { Sized z }
    ensures { result ≡ number_of_size z }
{
    match z.size() {
        1024 => 0,
        size => size,
    }
}

// The shape of a store, by the number at 20.
pub fn shape_of(s: &[u8]) -> Shape
    requires { 24 ≤ length s.now }
    ensures { (result ≡ shape_of s.now) × Sized result }
{
    shape_for(words::get32(s, 20))
}

// The number of leading bits in which two hashes agree.
pub fn shared_bits(a: u32, b: u32) -> u32
    ensures { result ≡ shared a b }
{
    u32::leading_zeros(a ^ b)
}

// The top k bits of a hash.
pub fn top_bits(x: u32, k: u32) -> u64
    requires { k ≤ 12 }
    ensures { result ≡ top k x }
{
    ((x as u64) << k) >> 32
}

// A power of two.
pub fn two_to(k: u32) -> usize
    requires { k ≤ 12 }
    ensures { result ≡ 2 ^ k }
{
    1usize << k
}

// A run of directory entries: from the first up to the one after the last.
#[derive(Clone, Copy)]
pub struct Run {
    pub from: usize,
    pub to: usize,
}

impl Run {
    // The entries of the run, one after another.
    pub fn entries(self) -> Range<usize>
        ensures { (result.start ≡ self.from) × (result.end ≡ self.to) }
    {
        self.from..self.to
    }
}

// The entries that the prefix of k bits of a hash calls for in a directory of depth d.
pub fn run_of(x: u32, k: u32, d: u32) -> Run
    requires { (k ≤ d) × (d ≤ 12) }
    ensures { (result.from ≡ first d (record { bits = k; value = top k x })) × (result.to ≡ after d (record { bits = k; value = top k x })) × (result.from ≤ result.to) × (result.to ≤ 2 ^ d) }
{
    let v = top_bits(x, k) as usize;
    let w = two_to(d - k);
    let from = v * w;
    Run { from, to: from + w }
}
