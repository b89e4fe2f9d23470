// A file is read, and its report written.
#![tactic(auto)]

ghost use Rattle.std.specs.Prelude.{OnOk};
ghost use Rattle.desk.specs.Told.{TellsFile};

use input::read_full;
use report::{INPUT_BYTES, REPORT_BYTES};
use std::io;
use std::io::{Read, Write};

/// Reads a file from `input` and writes its whole report to `out`. What an `Err` leaves of them is open.
pub fn inspect<R: Read, W: Write>(input: &mut R, out: &mut W) -> io::Result<()>
    ensures { OnOk result (TellsFile (R.remaining input.old) (W.contents out.old) (W.contents out.new)) }
{
    let mut bytes = [0u8; INPUT_BYTES];
    let count = read_full(input, &mut bytes)?;
    let mut text = [0u8; REPORT_BYTES];
    let end = report::inspect(&bytes[..count], &mut text);
    out.write_all(&text[..end])
}

#[cfg(test)]
mod tests {
    use super::inspect;
    use std::io::Cursor;
    use std::test::Fail;

    #[test]
    fn refuses_an_empty_file(rt: HostRuntime) -> Result<(), Fail> {
        let mut room = [0u8; 16];
        let mut out = Cursor::new(&mut room[..]);
        inspect(&mut &b""[..], &mut out)?;
        assert_eq!(rt; out.position(), 11);
        assert_eq!(rt; &room[..11], &b"refused 10\n"[..]);
        Ok(())
    }
}
