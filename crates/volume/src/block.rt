// Blocks and their checks.
ghost use Rattle.std.specs.Prelude.{◌≡◌, ◌≤◌, length, take, drop, ◌==◌};
ghost use Rattle.std.specs.Int.{from_be_bytes, w32};
ghost use Rattle.std.specs.Simd.{first_chunks};
ghost use Rattle.volume.specs.Blocks.{BlockAt, blocks, check_of, readable};

// The bytes of a block.
pub const BLOCK_BYTES: usize = 512;
// Those of them that are data.
pub const DATA_BYTES: usize = 508;
// The most blocks that count.
pub const MOST_BLOCKS: usize = 2048;

// What the four check bytes of a block say, and what they should say.
#[derive(Clone, Copy, PartialEq, Eq, Debug)]
pub struct Block {
    pub stored: u32,
    pub due: u32,
}

impl Block {
    // The two checks of these bytes.
    fn of(bytes: &[u8; BLOCK_BYTES]) -> Block
        ensures stored { result.stored ≡ from_be_bytes w32 (drop 508 bytes.now) }
        ensures due { result.due ≡ check_of (take 508 bytes.now) }
    {
        let (data, check) = bytes.split_last_chunk().unwrap();
        Block {
            stored: u32::from_be_bytes(*check),
            due: weigh(data),
        }
    }

    // Whether the block's cells can be read.
    pub fn is_sound(&self) -> bool
        ensures { result ≡ (self.now.stored == self.now.due) }
    {
        self.stored == self.due
    }
}

// The check of some data bytes, of which there are at most as many as a block has. (By a rule of the project a loop over the
// bytes with their numbers.)
pub(crate) fn weigh(bytes: &[u8]) -> u32
    requires { length bytes.now ≤ 508 }
    ensures { result ≡ check_of bytes.now }
{
    let mut sum: u32 = 1;
    for (i, b) in bytes.iter().enumerate() {
        sum += (i as u32 + 1) * u32::from(*b);
    }
    sum
}

// The check of a block's data.
pub fn data_check(block: &[u8; DATA_BYTES]) -> u32
    ensures { result ≡ check_of block.now }
{
    weigh(block)
}

// The blocks that count.
fn counted(bytes: &[u8]) -> &[[u8; BLOCK_BYTES]]
    ensures items { result.now ≡ first_chunks 512 (blocks bytes.now) bytes.now }
    ensures count { length result.now ≡ blocks bytes.now }
{
    let (whole, _) = bytes.as_chunks();
    &whole[..whole.len().min(MOST_BLOCKS)]
}

// How many blocks count.
pub fn block_count(bytes: &[u8]) -> usize
    ensures { result ≡ blocks bytes.now }
{
    counted(bytes).len()
}

// The two checks of block `k`, if that block counts. (Bytes and a number, since that is what every caller has: the flags of a volume
// and a survey go by the number, and `renew` writes by it.)
pub fn block_at(bytes: &[u8], k: usize) -> Option<Block>
    ensures { BlockAt bytes.now k result }
{
    counted(bytes).get(k).map(Block::of)
}

// Whether block `k` counts and is sound, so that its cells can be read.
pub fn is_readable(bytes: &[u8], k: usize) -> bool
    ensures { result ≡ readable bytes.now k }
{
    block_at(bytes, k).is_some_and(|block| block.is_sound())
}
