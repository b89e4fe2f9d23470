// Vectors from standard input: a count and then as many words, the most significant byte first.
use crate::answers::ANSWER_WORDS;
use crate::heads::{FILE_BYTES, FILED_WORDS, HEAD_WORDS};
use input::read_full;
use std::io;
use std::io::Read;

// The longest vector, one of a file: its head, what is lent, the answer, and what is left of what was lent.
pub(crate) const VECTOR_WORDS: usize = HEAD_WORDS + ANSWER_WORDS + 2 * (FILED_WORDS + FILE_BYTES);

const VECTOR_BYTES: usize = 4 * VECTOR_WORDS;

// Why a vector cannot be read: it is too long or cut off, or a read failed.
#[derive(Drop)]
pub(crate) enum Unread {
    Broken,
    Failed(io::Error),
}

impl From<io::Error> for Unread {
    fn from(error: io::Error) -> Unread {
        Unread::Failed(error)
    }
}

// Reads as many words as a vector may have.
fn read_words(input: &mut impl Read, words: &mut [u32]) -> Result<(), Unread> {
    let mut bytes = [0u8; VECTOR_BYTES];
    let wanted = bytes.get_mut(..4 * words.len()).ok_or(Unread::Broken)?;
    let count = read_full(input, wanted)?;
    let mut rest = &wanted[..count];
    for word in words {
        let (digits, more) = rest.split_first_chunk().ok_or(Unread::Broken)?;
        *word = u32::from_be_bytes(*digits);
        rest = more;
    }
    Ok(())
}

// Reads the next vector into `words`; there is none at the count 0 and at the end of the input.
pub(crate) fn read_vector<'a>(
    input: &mut impl Read,
    words: &'a mut [u32; VECTOR_WORDS],
) -> Result<Option<&'a mut [u32]>, Unread> {
    let mut digits = [0u8; 4];
    if read_full(input, &mut digits)? < digits.len() {
        return Ok(None);
    }
    let count = u32::from_be_bytes(digits) as usize;
    if count == 0 {
        return Ok(None);
    }
    let vector = words.get_mut(..count).ok_or(Unread::Broken)?;
    read_words(input, vector)?;
    Ok(Some(vector))
}
