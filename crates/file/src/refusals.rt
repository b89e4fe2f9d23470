// The refusals of a file, and of an image that is to be written as one, in their order: the first that applies wins.
ghost use Rattle.std.specs.Prelude.{◌≡◌};
ghost use Rattle.refusal.specs.Refusal.{answer_number};
ghost use Rattle.file.specs.Refusal.{frame_refusal, body_refusal, write_refusal};

use layout::Layout;
use refusal::Refusal;

// The version that is written, and the one before it, which is read too.
pub(crate) const VERSION: u8 = 2;

pub(crate) const OLD_VERSION: u8 = 1;

// No file is longer.
const LONGEST: usize = 32768;

// What makes it an image file: its length, its version and its length field.
#[tactic(auto, using(crate::proofs::BigEndian::word_std), unfolding(crate::specs::Refusal::frame_refusal))]
pub(crate) fn check_frame(bytes: &[u8]) -> Result<(), Refusal>
    ensures { answer_number result ≡ frame_refusal bytes.now }
{
    let len = bytes.len();
    if LONGEST < len {
        return Err(Refusal::TooLong);
    }
    if len < 9 {
        return Err(Refusal::BadSize);
    }
    if !(OLD_VERSION..=VERSION).contains(&bytes[0]) {
        return Err(Refusal::BadVersion);
    }
    let field = u32::from_be_bytes([bytes[1], bytes[2], bytes[3], bytes[4]]) as usize;
    if field != len - 5 {
        return Err(Refusal::BadSize);
    }
    Ok(())
}

// The layout, and the bytes after the header.
#[tactic(auto, using(crate::proofs::Ladder::body_words, crate::proofs::Ladder::body_uneven), unfolding(crate::specs::Refusal::body_refusal))]
pub(crate) fn check_body(body: usize, layout: Layout) -> Result<(), Refusal>
    ensures { answer_number result ≡ body_refusal body layout }
{
    layout.check()?;
    if body % 4 != 0 {
        return Err(Refusal::BadLength);
    }
    layout.check_image(body / 4)
}

// The layout, the image's length, the length of its file, and the room for it.
#[tactic(auto, using(layout::proofs::Ladder::image_few), unfolding(crate::specs::Refusal::write_refusal))]
pub(crate) fn check_written(words: usize, layout: Layout, room: usize) -> Result<(), Refusal>
    ensures { answer_number result ≡ write_refusal words layout room }
{
    layout.check_image(words)?;
    let size = 9 + 4 * words;
    if LONGEST < size {
        return Err(Refusal::TooLong);
    }
    if room < size {
        return Err(Refusal::NoRoom);
    }
    Ok(())
}
