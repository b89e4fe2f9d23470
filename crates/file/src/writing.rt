// The file of an image, written to lent bytes.
ghost use Rattle.std.specs.Prelude.{◌≡◌, ◌+◌, ◌*◌, ◌≤◌, ◌++◌, length, take, drop};
ghost use Rattle.file.specs.Bytes.{bytes_of, head_of};
ghost use Rattle.file.specs.Inner.{Small};
ghost use Rattle.file.specs.Written.{WritesFile};

use super::refusals::{VERSION, check_written};
use layout::Layout;
use refusal::Refusal;

// Puts the header of a file of so many words.
fn put_header(layout: Layout, words: usize, bytes: &mut [u8])
    requires { Small layout words (length bytes.old) }
    ensures { bytes.new ≡ head_of layout words ++ drop 9 bytes.old }
{
    bytes[0] = VERSION;
    bytes[1..5].copy_from_slice(&((4 + 4 * words) as u32).to_be_bytes());
    bytes[5] = layout.shape as u8;
    bytes[6] = layout.s as u8;
    bytes[7..9].copy_from_slice(&(layout.g as u16).to_be_bytes());
}

// Puts the words one after another.
fn put_words(image: &[u32], bytes: &mut [u8])
    requires { 4 * length image.now ≤ length bytes.old }
    ensures { bytes.new ≡ bytes_of image.now ++ drop (4 * length image.now) bytes.old }
{
    // `bytes.chunks_exact_mut(4).zip(image)` was tried: a proof knows nothing of the bytes after it.
    for (k, word) in image.iter().enumerate() {
        bytes[4 * k..4 * k + 4].copy_from_slice(&word.to_be_bytes());
    }
}

// Writes the image as a file from byte 0 of the buffer on, and answers how many bytes the file has.
#[tactic(auto, using(crate::proofs::Put::small))]
pub fn write_file(image: &[u32], layout: Layout, buffer: &mut [u8]) -> Result<u32, Refusal>
    ensures { WritesFile image.now layout buffer.old result image.now buffer.new }
{
    check_written(image.len(), layout, buffer.len())?;
    put_header(layout, image.len(), buffer);
    put_words(image, &mut buffer[9..]);
    Ok((9 + 4 * image.len()) as u32)
}
