//! Tests calls with too little memory, also of libraries that allocate from the heap. The process takes all memory, and frees pieces until
//! the call succeeds.

use app_failure::NoMemory;
use bridge_text::TextBuilder;
use fixture_bridge::Ending;
use std::alloc::Global;

/// Size of a piece in octets.
const PIECE: usize = 256;

/// Number of pieces. A call must need less memory than all of them.
const PIECES: usize = 65_536;

/// Size in octets of the largest block that is tried, and greatest number of blocks.
const LARGEST: usize = 0x4000_0000_0000;

const MOST_BLOCKS: usize = 100_000;

/// All memory that the process gets.
#[derive(Drop)]
struct TakenMemory {
    pieces: Vec<Vec<u8>>,
    blocks: Vec<Vec<u8>>,
}

/// Allocates the pieces. They lie next to each other, so freed pieces form a contiguous block.
fn take_pieces(alloc: Global) -> Result<Vec<Vec<u8>>, NoMemory> {
    let mut pieces = Vec::with_capacity(alloc, PIECES)?;
    for _ in 0..PIECES {
        pieces.push(Vec::with_capacity(alloc, PIECE)?)?;
    }
    Ok(pieces)
}

/// Allocates the rest of the memory in blocks, each as large as possible.
fn take_blocks(alloc: Global, blocks: &mut Vec<Vec<u8>>) {
    let mut size = LARGEST;
    for _ in 0..MOST_BLOCKS {
        match Vec::with_capacity(alloc, size) {
            Ok(block) => {
                if blocks.push(block).is_err() {
                    return;
                }
            }
            Err(_) if size > 1 => size /= 2,
            Err(_) => return,
        }
    }
}

/// Allocates all memory.
fn take_all(alloc: Global) -> Result<TakenMemory, NoMemory> {
    let mut blocks = Vec::with_capacity(alloc, MOST_BLOCKS)?;
    let pieces = take_pieces(alloc)?;
    take_blocks(alloc, &mut blocks);
    Ok(TakenMemory { pieces, blocks })
}

/// Whether a call reports at first that memory ran out, and succeeds after pieces are freed, without another ending.
fn has_ended_well<F: FnMut() -> Ending>(pieces: &mut Vec<Vec<u8>>, mut call: F) -> bool
    requires { F.IsAlwaysCallable call }
{
    for place in 0..PIECES {
        match call() {
            Ending::NoMemory => {
                if pieces.pop().is_none() {
                    return false;
                }
            }
            Ending::Whole => return place > 0,
            Ending::Wrong => return false,
        }
    }
    false
}

/// Whether a call without memory reports that memory ran out, again as memory is freed, until it succeeds.
pub fn is_refused<F: FnMut() -> Ending>(alloc: Global, call: F) -> bool
    requires { F.IsAlwaysCallable call }
{
    let Ok(mut all) = take_all(alloc) else {
        return false;
    };
    let well = has_ended_well(&mut all.pieces, call);
    drop(all);
    well
}

/// Adds whether calls with too little memory reported that memory ran out.
pub fn put_refused(said: &mut TextBuilder<Global>, is_refused: bool) {
    said.put(if is_refused {
        "short of memory: no memory, until there is enough\n"
    } else {
        "short of memory: answered otherwise\n"
    });
}
