// The lines of a report, each at the next place of a page.
// A line that does not fit is not written, and the place stays.
ghost use Rattle.std.specs.Prelude.{◌+◌, ◌*◌, ◌<◌, length};
ghost use Rattle.text.specs.Puts.{PutsText, OnPage};
ghost use Rattle.report.specs.Lines.{refusal_line, image_line, block_line, total_line};
ghost use Rattle.report.specs.Inner.{names, line_of};

use super::Tally;
use block::Verdict;
use layout::Layout;
use text::Page;

// Each name and the number after it, and the line's end.
fn put_line(parts: &[(&[u8], u32)], page: &mut Page<'_>)
    requires { names parts.now + 10 * length parts.now < 96 }
    ensures { OnPage (PutsText (line_of parts.now)) page.old page.new }
{
    // A line goes out whole or not at all: a buffer, as no heap is allowed.
    let mut bytes = [0u8; 96];
    let mut line = Page {
        bytes: &mut bytes,
        next: 0,
    };
    for (name, number) in parts {
        line.put_named(name, *number);
    }
    line.put_text(b"\n");
    let end = line.next;
    page.put_text(&line.bytes[..end]);
}

pub(crate) fn refusal_line(number: u32, page: &mut Page<'_>)
    ensures { OnPage (PutsText (refusal_line number)) page.old page.new }
{
    put_line(&[(b"refused ", number)], page);
}

pub(crate) fn image_line(layout: Layout, blocks: u32, page: &mut Page<'_>)
    ensures { OnPage (PutsText (image_line layout blocks)) page.old page.new }
{
    put_line(
        &[
            (b"image shape ", layout.shape),
            (b" interleave ", layout.s),
            (b" groups ", layout.g),
            (b" blocks ", blocks),
        ],
        page,
    );
}

// The verdict has its count, or its two for lost.
pub(crate) fn block_line(block: u32, verdict: Verdict, page: &mut Page<'_>)
    ensures { OnPage (PutsText (block_line block verdict)) page.old page.new }
{
    match verdict {
        Verdict::Clean => put_line(&[(b"block ", block), (b" clean ", 0)], page),
        Verdict::Mended(bits) => put_line(&[(b"block ", block), (b" mended ", bits)], page),
        Verdict::Lost(even, beyond) => put_line(
            &[(b"block ", block), (b" lost ", even), (b" ", beyond)],
            page,
        ),
    }
}

pub(crate) fn total_line(tally: Tally, page: &mut Page<'_>)
    ensures { OnPage (PutsText (total_line tally)) page.old page.new }
{
    put_line(
        &[
            (b"total clean ", tally.clean),
            (b" mended ", tally.mended),
            (b" lost ", tally.lost),
            (b" bits ", tally.bits),
        ],
        page,
    );
}
