// Stored vectors: each call is run, and what it answers and leaves is compared.
use crate::calls::Lent;
use crate::heads::{HEAD_WORDS, Head};
use crate::reading::{Unread, VECTOR_WORDS, read_vector};
use std::io;
use std::io::Read;

// How many vectors there were, and how many agree.
#[derive(Drop)]
pub(crate) struct Tally {
    pub(crate) vectors: u64,
    pub(crate) agree: u64,
}

// Whether a vector's call answers and leaves what the vector says; none where it is no vector of a call.
fn agrees(vector: &mut [u32]) -> Option<bool> {
    let head = Head::try_from(*vector.first_chunk()?).ok()?;
    if !head.fits() {
        return None;
    }
    let words = vector.get_mut(HEAD_WORDS..)?;
    let (image, words) = words.split_at_mut_checked(head.image)?;
    let (list, words) = words.split_at_mut_checked(head.list)?;
    let (record, expected) = words.split_at_mut_checked(head.record)?;
    let mut lent = Lent {
        image,
        list,
        record,
    };
    let answer = lent.run(head)?;
    let left = expected
        .strip_prefix(&answer)?
        .strip_prefix(lent.image)?
        .strip_prefix(lent.list)?;
    Some(left == &*lent.record)
}

// Runs vectors until the count 0, the end of the input or a broken one; no input has more than a count holds.
pub(crate) fn run_all(input: &mut impl Read) -> io::Result<Tally> {
    let mut agree = 0;
    let mut words = [0u32; VECTOR_WORDS];
    for vectors in 0..u64::MAX {
        match read_vector(input, &mut words) {
            Ok(None) => return Ok(Tally { vectors, agree }),
            Ok(Some(vector)) => {
                if agrees(vector) == Some(true) {
                    agree += 1;
                }
            }
            // After it nothing can be read.
            Err(Unread::Broken) => {
                return Ok(Tally {
                    vectors: vectors + 1,
                    agree,
                });
            }
            Err(Unread::Failed(error)) => return Err(error),
        }
    }
    Ok(Tally {
        vectors: u64::MAX,
        agree,
    })
}
