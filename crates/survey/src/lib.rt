// What is to be said of a reel volume: how many blocks are sound, which are lost, and what their checks should have been.
#![tactic(auto)]

ghost use Rattle.std.specs.Prelude.{◌≡◌, ◌*◌, ◌<◌, ◌++◌, count_by, IfOk, OnOk, string_bytes};
ghost use Rattle.std.specs.List.{range_with_len};
ghost use Rattle.survey.specs.Text.{block_line, head_text, text_of_survey};
ghost use Rattle.survey.specs.Tally.{readable, sound_among};
ghost use Rattle.volume.specs.Blocks.{blocks, readable as block_readable, volume_cells};

use std::alloc::{AllocError, Global};
use std::fmt::Write;
use volume::{BLOCK_BYTES, Block, DATA_BYTES, block_at, block_count, is_readable};

// How many of the blocks are sound, which also says how many of the volume's cells can be read.
pub fn sound_count(bytes: &[u8]) -> usize
    ensures sound { result ≡ sound_among bytes.now (blocks bytes.now) }
    ensures cells { readable (volume_cells bytes.now) ≡ 508 * result }
{
    count_below(bytes, block_count(bytes))
}

// How many of the first `n` blocks count and are sound.
fn count_below(bytes: &[u8], n: usize) -> usize
    ensures { result ≡ count_by (block_readable bytes.now) (range_with_len 0 n) }
{
    (0..n).filter(|k| is_readable(bytes, *k)).count()
}

// The lines that every volume has.
#[tactic(auto, using(crate::proofs::Counts::at_most))]
fn head(heap: Global, bytes: &[u8]) -> Result<String, AllocError>
    ensures { IfOk result (λ s. string_bytes s ≡ head_text bytes.now) }
{
    let blocks = block_count(bytes);
    let sound = sound_count(bytes);
    let lost = blocks - sound;
    let cells = DATA_BYTES * sound;
    let outside = bytes.len() - BLOCK_BYTES * blocks;
    format!(in heap;
        "blocks: {blocks}\nsound: {sound}\nlost: {lost}\nreadable cells: {cells}\nbytes in no block: {outside}\n"
    )
}

// Adds the line of block `k` if it is lost.
fn add_line(text: &mut String, bytes: &[u8], k: usize) -> Result<(), AllocError>
    requires { k < blocks bytes.now }
    ensures { OnOk result (string_bytes text.new ≡ string_bytes text.old ++ block_line bytes.now k) }
{
    match block_at(bytes, k) {
        Some(block) if !block.is_sound() => {
            let Block { stored, due } = block;
            writeln!(
                text,
                "block {k} is lost: its check is {stored} and should be {due}"
            )
        }
        _ => Ok(()),
    }
}

// The whole text. It is refused only for want of memory.
pub fn survey_text(heap: Global, bytes: &[u8]) -> Result<String, AllocError>
    ensures { IfOk result (λ s. string_bytes s ≡ text_of_survey bytes.now) }
{
    let mut text = head(heap, bytes)?;
    for k in 0..block_count(bytes) {
        add_line(&mut text, bytes, k)?;
    }
    Ok(text)
}
