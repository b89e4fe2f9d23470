// What the programs read.
#![tactic(auto)]

ghost use Rattle.std.specs.Prelude.{IfOk, take, length, ◌<◌};
ghost use Rattle.std.specs.Io.{ReadsAtMost};
ghost use Rattle.std.specs.Io.KnownBytes.{Consumes, IsAtEnd};

use std::io;
use std::io::Read;

/// Reads until `bytes` is full or the input ends, and says how many bytes it put at the start of `bytes`.
/// What an `Err` leaves of the input is open.
pub fn read_full<R: Read>(input: &mut R, bytes: &mut [u8]) -> io::Result<usize>
    ensures within { ReadsAtMost result bytes.new }
    ensures bytes { IfOk result (λ count. Consumes (R.remaining input.old) (R.remaining input.new) (take count bytes.new)) }
    ensures end { IfOk result (λ count. count < length bytes.new → IsAtEnd (R.remaining input.new)) }
{
    let mut count = 0;
    // By the count: a read gives as many bytes as it likes, so no iterator knows the next place.
    while count < bytes.len() {
        match input.read(&mut bytes[count..])? {
            0 => break,
            more => count += more,
        }
    }
    Ok(count)
}

#[cfg(test)]
mod tests {
    use super::read_full;
    use std::test::Fail;

    #[test]
    fn fills_and_ends(rt: HostRuntime) -> Result<(), Fail> {
        let mut input = &b"abcdef"[..];
        let mut bytes = [0u8; 4];
        assert_eq!(rt; read_full(&mut input, &mut bytes)?, 4);
        assert_eq!(rt; bytes, *b"abcd");
        assert_eq!(rt; read_full(&mut input, &mut bytes)?, 2);
        assert_eq!(rt; bytes, *b"efcd");
        Ok(())
    }
}
