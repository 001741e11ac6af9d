// The reel volume: bytes cut into blocks, each with a check behind its data.
//
// A block has 512 bytes: 508 of data, and a check of four, most significant byte first. The check is one more than the sum of
// the data bytes, each times its number counted from 1. A block whose check is another has lost all of its cells. The first
// 2,048 whole blocks of the bytes count, and what lies behind them belongs to no block.
#![tactic(auto)]

mod block;
mod reel;

pub use block::{BLOCK_BYTES, Block, DATA_BYTES, block_at, block_count, data_check, is_readable};
pub use reel::Volume;
