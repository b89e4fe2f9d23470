// The form in which words are stored: those of rows 1 and 2 of every block are complemented, so that a dead chip is not a valid block.
#![tactic(auto)]

ghost use Rattle.std.specs.Prelude.{◌≡◌, map};
ghost use Rattle.stored.specs.Stored.{flipped, ComplementsBlock, ComplementsImage};

use layout::Layout;
use shape::MOST_ROWS;

// A word of ones: what a word is complemented by.
pub const ONES: u32 = u32::MAX;

// Complements rows 1 and 2 of a gathered block.
pub fn complement_block(block: &mut [u32; MOST_ROWS])
    ensures { ComplementsBlock block.old block.new }
{
    block[0] ^= ONES;
    block[1] ^= ONES;
}

// Complements each word of a run.
fn complement_words(words: &mut [u32])
    ensures { words.new ≡ map flipped words.old }
{
    for word in words.iter_mut() {
        *word ^= ONES;
    }
}

// Complements rows 1 and 2 of every block of an image: in each group they come first. An image that its layout does not fit stays.
pub fn complement_image(image: &mut [u32], layout: Layout)
    ensures { ComplementsImage image.old layout image.new }
{
    if layout.check_image(image.len()).is_err() {
        return;
    }
    let first = 2 * (layout.s as usize);
    let group = layout.group_words();
    // By places: std tells nothing of what an image ends as after chunks_exact_mut.
    for at in (0..image.len()).step_by(group) {
        complement_words(&mut image[at..at + first]);
    }
}
