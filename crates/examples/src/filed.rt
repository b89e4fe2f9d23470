// A file that is lent to a call: the list of such a call is the file, or the buffer for it, one byte a word.
use crate::answers::ANSWER_WORDS;
use crate::heads::FILE_BYTES;

// The words as bytes, and zeros after them; none where one is no byte.
fn narrow(words: &[u32]) -> Option<[u8; FILE_BYTES]> {
    let mut bytes = [0u8; FILE_BYTES];
    for (byte, word) in bytes.iter_mut().zip(words) {
        *byte = u8::try_from(*word).ok()?;
    }
    Some(bytes)
}

// Runs the call on the bytes of its file, and leaves them in the list; none where the list is no file.
pub(crate) fn run<F>(list: &mut [u32], call: F) -> Option<[u32; ANSWER_WORDS]>
where
    F: FnOnce(&mut [u8]) -> [u32; ANSWER_WORDS],
    requires { F.IsAlwaysCallable call }
{
    let mut bytes = narrow(list)?;
    let answer = call(bytes.get_mut(..list.len())?);
    for (word, byte) in list.iter_mut().zip(&bytes) {
        *word = u32::from(*byte);
    }
    Some(answer)
}
