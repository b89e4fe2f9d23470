// The header and the words of a file.
ghost use Rattle.std.specs.Prelude.{◌≡◌, ◌≤◌, length};
ghost use Rattle.file.specs.Bytes.{word_count, words_in, CountsFileWords};
ghost use Rattle.file.specs.Header.{HeaderRead, ReadsFile};

use super::refusals::{OLD_VERSION, check_body, check_frame};
use layout::Layout;
use refusal::Refusal;

// The layout that a file's header names, or the first rule that the file breaks.
#[tactic(auto, using(crate::proofs::Ladder::nine_bytes))]
pub fn read_header(bytes: &[u8]) -> Result<Layout, Refusal>
    ensures { HeaderRead bytes.now result }
{
    check_frame(bytes)?;
    let layout = Layout {
        shape: u32::from(bytes[5]),
        s: u32::from(bytes[6]),
        g: u32::from(u16::from_be_bytes([bytes[7], bytes[8]])),
    };
    check_body(bytes.len() - 9, layout)?;
    Ok(layout)
}

// How many whole words stand after the header of a file of `len` bytes.
pub fn word_count(len: usize) -> usize
    ensures { CountsFileWords len result }
{
    if len < 9 { 0 } else { (len - 9) / 4 }
}

// Copies the words after the header.
fn read_words(bytes: &[u8], image: &mut [u32])
    requires header { 9 ≤ length bytes.now }
    requires exact { length image.old ≡ word_count (length bytes.now) }
    ensures { image.new ≡ words_in bytes.now }
{
    let (words, _) = bytes[9..].as_chunks::<4>();
    // `image.iter_mut().zip(words)` was tried: a proof knows nothing of the image after it.
    for (k, word) in image.iter_mut().enumerate() {
        *word = u32::from_be_bytes(words[k]);
    }
}

// Copies the image that a file holds to one of exactly as many words, and answers its layout.
#[tactic(auto, using(crate::proofs::Ladder::nine_accepted))]
pub fn read_file(bytes: &[u8], image: &mut [u32]) -> Result<Layout, Refusal>
    ensures { ReadsFile bytes.now image.old result bytes.now image.new }
{
    let layout = read_header(bytes)?;
    if image.len() != word_count(bytes.len()) {
        return Err(Refusal::BadLength);
    }
    read_words(bytes, image);
    // The old version has rows 1 and 2 as the code has them.
    if bytes[0] == OLD_VERSION {
        stored::complement_image(image, layout);
    }
    Ok(layout)
}
