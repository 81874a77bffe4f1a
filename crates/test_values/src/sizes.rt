//! The sizes at which pools and lists are tried.

/// Sizes round the ends of words, of rows of links and of numbers of 16 bits, and past what a byte
/// and a page's worth of bytes count.
pub const SIZES: [usize; 19] = [
    0, 1, 31, 32, 33, 63, 64, 65, 1_023, 1_024, 1_025, 2_047, 2_048, 2_049, 65_535, 65_536, 65_537,
    131_072, 1_048_577,
];
