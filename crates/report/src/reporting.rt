// The report of a file: its refusal, or what the visit of each block finds.
ghost use Rattle.std.specs.Prelude.{◌≡◌, min, length};
ghost use Rattle.layout.specs.Refusal.{image_refusal};
ghost use Rattle.file.specs.Bytes.{word_count};
ghost use Rattle.text.specs.Puts.{PutsAll, OnPage};
ghost use Rattle.report.specs.Report.{image_report, Inspects};
ghost use Rattle.report.specs.Inner.{lines_for, Reports};

use super::lines::{block_line, image_line, refusal_line, total_line};
use super::{REPORT_BYTES, Tally};
use ground::least;
use layout::Layout;
use store::visit_accepted;
use text::Page;

// The most words that a file of 32,768 bytes holds: 511 blocks of 16 rows.
const IMAGE_WORDS: usize = 8176;

// Visits each block of an image whose layout is accepted.
fn report_image(image: &mut [u32], layout: Layout, page: &mut Page<'_>)
    requires { image_refusal (length image.old) layout ≡ 0 }
    ensures { OnPage (PutsAll (image_report image.old layout)) page.old page.new }
{
    let n = layout.blocks() as u32;
    image_line(layout, n, page);
    let mut tally = Tally::default();
    for k in 0..n {
        let verdict = visit_accepted(image, layout, k);
        block_line(k, verdict, page);
        tally.count(verdict);
    }
    total_line(tally, page);
}

// Reads a file into the lent image, visits each block there, and writes the report. Of a file that is refused the report is that line.
fn report_read(bytes: &[u8], image: &mut [u32], page: &mut Page<'_>)
    ensures { OnPage (PutsAll (lines_for bytes.now (length image.old))) page.old page.new }
{
    match file::read_file(bytes, image) {
        Ok(layout) => report_image(image, layout, page),
        Err(refusal) => refusal_line(u32::from(refusal), page),
    }
}

// From byte 0 on, with the words of the image that the file has, or all of them where it has more; answers the report's end.
fn report_file(bytes: &[u8], image: &mut [u32], out: &mut [u8]) -> usize
    ensures { Reports bytes.now (min (word_count (length bytes.now)) (length image.old)) out.old result out.new }
{
    let count = least(file::word_count(bytes.len()), image.len());
    let mut page = Page {
        bytes: out,
        next: 0,
    };
    report_read(bytes, &mut image[..count], &mut page);
    page.next
}

// Writes the whole report of a file, whatever its bytes, from byte 0 of `out` on; answers its end.
pub fn inspect(bytes: &[u8], out: &mut [u8; REPORT_BYTES]) -> usize
    ensures { Inspects bytes.now out.old result out.new }
{
    let mut image = [0u32; IMAGE_WORDS];
    report_file(bytes, &mut image, out)
}
