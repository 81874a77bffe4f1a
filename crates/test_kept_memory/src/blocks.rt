//! Blocks of memory, which are given back and taken again.
use lockfree_object_pool::PullError;
use std::alloc::Global;

/// How many bytes the blocks have. The requests of an opening are as small.
const SIZES: [usize; 8] = [16, 32, 48, 64, 80, 96, 112, 128];

/// The greatest block that a filling asks for.
const GREATEST: usize = 1 << 30;

/// How often it is halved, down to 256 bytes.
const HALVINGS: u32 = 23;

/// How many blocks a filling takes at most.
const MOST: usize = 100_000;

/// A block, and how many bytes it has.
#[derive(Drop)]
struct Block {
    size: usize,
    bytes: Option<Vec<u8>>,
}

/// A block of each size.
#[derive(Drop)]
pub struct Blocks {
    blocks: Vec<Block>,
}

impl Blocks {
    /// How many choices of blocks there are. A choice has a bit for each block.
    pub const CHOICES: usize = 1 << 8;

    /// Makes a block of each size.
    ///
    /// # Errors
    ///
    /// `Memory`.
    pub fn new(alloc: Global) -> Result<Blocks, PullError> {
        let mut blocks = Vec::with_capacity(alloc, 8)?;
        for size in SIZES {
            let bytes = Some(Vec::with_capacity(alloc, size)?);
            blocks.push(Block { size, bytes })?;
        }
        Ok(Blocks { blocks })
    }

    /// Gives a choice of the blocks back.
    pub fn give_back(&mut self, choice: usize) {
        let mut choice = choice;
        for block in self.blocks.iter_mut() {
            if choice % 2 == 1 {
                block.bytes = None;
            }
            choice /= 2;
        }
    }

    /// Returns whether each block that was given back could be had again.
    pub fn take_again(&mut self, alloc: Global) -> bool {
        for block in self.blocks.iter_mut() {
            if block.bytes.is_none() {
                let Ok(bytes) = Vec::with_capacity(alloc, block.size) else {
                    return false;
                };
                block.bytes = Some(bytes);
            }
        }
        true
    }
}

/// Takes all memory that there is: the greatest blocks first, then smaller and smaller ones.
///
/// # Errors
///
/// `Memory`, where so many blocks don't take it all.
pub fn fill(alloc: Global) -> Result<Vec<Vec<u8>>, PullError> {
    let mut filling = Vec::with_capacity(alloc, MOST)?;
    for halvings in 0..HALVINGS {
        fill_with(alloc, GREATEST >> halvings, &mut filling)?;
    }
    for size in SIZES {
        fill_with(alloc, size, &mut filling)?;
    }
    Ok(filling)
}

/// Takes blocks of a size until one is refused.
fn fill_with(alloc: Global, size: usize, filling: &mut Vec<Vec<u8>>) -> Result<(), PullError> {
    for _ in 0..MOST {
        let Ok(block) = Vec::with_capacity(alloc, size) else {
            return Ok(());
        };
        if filling.len() == MOST {
            return Err(PullError::Memory);
        }
        filling.push(block)?;
    }
    Err(PullError::Memory)
}
