// The reel volume as a medium.
ghost use Rattle.std.specs.Prelude.{◌≡◌, ◌+◌, ◌*◌, ◌/◌, ◌^◌, ◌<◌, true, slice_set, MatchResult};
ghost use Rattle.medium.specs.Access.{Refuses};
ghost use Rattle.volume.specs.Blocks.{blocks, check_of, data_at, sound_at, verdicts, volume_cells};
ghost use Rattle.volume.specs.Renewed.{renewed};

use crate::block::{BLOCK_BYTES, DATA_BYTES, MOST_BLOCKS, block_count, is_readable, weigh};
use medium::{Medium, MediumFault, in_range};

// The blocks of the bytes that it was lent. Their checks are examined once, when the volume is made, and `put` keeps the flags
// true of the bytes.
#[derive(Drop)]
pub struct Volume<'a> {
    bytes: &'a mut [u8],
    // A flag for each block that may count, beside the bytes and in fixed memory: the engine allocates nothing.
    sound: [bool; MOST_BLOCKS],
    // The flags say which blocks count and are sound.
    pub ghost truthful: { sound ≡ verdicts bytes.now },
}

impl<'a> Volume<'a> {
    pub fn new(bytes: &'a mut [u8]) -> Volume<'a>
        ensures holds { result.bytes.now ≡ bytes.old }
        ensures lends { result.bytes.ghost_name ≡ bytes.entry.ghost_name }
    {
        let sound = examine(bytes);
        Volume { bytes, sound }
    }

    // The block of a place, if its cells can be read.
    fn sound_block(&self, at: usize) -> Result<usize, MediumFault>
        ensures { MatchResult result (λ k. (k ≡ at / 508) × (at < 508 * blocks self.now.bytes.now) × (sound_at self.now.bytes.now k ≡ true)) (λ e. Refuses (volume_cells self.now.bytes.now) at e) }
    {
        in_range(at, self.size())?;
        let k = at / DATA_BYTES;
        if self.sound[k] {
            Ok(k)
        } else {
            Err(MediumFault::Lost { place: at })
        }
    }
}

// Which blocks count and are sound.
fn examine(bytes: &[u8]) -> [bool; MOST_BLOCKS]
    ensures { result ≡ verdicts bytes.now }
{
    std::array::from_fn(|k| is_readable(bytes, k))
}

// Writes data byte `i` of block `k`, and the block's check anew.
fn renew(bytes: &mut [u8], k: usize, i: usize, b: u8)
    requires k_bound { k < blocks bytes.old }
    requires i_bound { i < 508 }
    ensures renewed { bytes.new ≡ renewed bytes.old k i b }
    ensures bound { check_of (data_at (slice_set bytes.old (512 * k + i) b) k) < 2 ^ 32 }
{
    let start = BLOCK_BYTES * k;
    let check = start + DATA_BYTES;
    bytes[start + i] = b;
    let due = weigh(&bytes[start..check]).to_be_bytes();
    bytes[check..check + 4].copy_from_slice(&due);
}

impl<'a> Medium for Volume<'a> {
    ghost use Rattle.volume.specs.Kept.{VolumeKept};
    ghost use Rattle.volume.specs.Laws.{volume_bounded, volume_frame};

    ghost cells = { λ v. volume_cells v.bytes.now };

    ghost bounded = { λ v. volume_bounded v.bytes.now };

    ghost kept = { VolumeKept };

    ghost frame = { volume_frame };

    #[tactic(auto, using(crate::proofs::Volumes::size))]
    fn size(&self) -> usize {
        DATA_BYTES * block_count(self.bytes)
    }

    fn fetch(&self, at: usize) -> Result<u8, MediumFault> {
        let k = self.sound_block(at)?;
        // The checks of the k blocks before it stand between. (By its number within the block a fetch would divide once more.)
        Ok(self.bytes[at + (BLOCK_BYTES - DATA_BYTES) * k])
    }

    fn put(&mut self, at: usize, b: u8) -> Result<(), MediumFault> {
        let k = self.sound_block(at)?;
        renew(self.bytes, k, at % DATA_BYTES, b);
        Ok(())
    }
}
