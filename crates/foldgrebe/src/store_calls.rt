// Write, read and visit for C.
ghost use Rattle.layout.specs.Layout.{layout_of};
ghost use Rattle.foldgrebe.specs.Calls.{WriteCall, ReadCall, VisitCall};

use layout::Layout;
use words::VERDICT_WORDS;

pub fn foldgrebe_write(
    image: &mut [u32],
    shape: u32,
    s: u32,
    g: u32,
    block: u32,
    list: &[u32],
) -> u32
    ensures { WriteCall image.old (layout_of shape s g) block list.now result image.new }
{
    words::number(&store::write(image, Layout { shape, s, g }, block, list))
}

pub fn foldgrebe_read(
    image: &[u32],
    shape: u32,
    s: u32,
    g: u32,
    block: u32,
    buffer: &mut [u32],
    verdict: &mut [u32; VERDICT_WORDS],
) -> u32
    ensures { ReadCall image.now (layout_of shape s g) block buffer.old result
        image.now buffer.new verdict.new }
{
    let answer = store::read(image, Layout { shape, s, g }, block, buffer);
    *verdict = words::answer_words(answer);
    words::number(&answer)
}

pub fn foldgrebe_visit(
    image: &mut [u32],
    shape: u32,
    s: u32,
    g: u32,
    block: u32,
    verdict: &mut [u32; VERDICT_WORDS],
) -> u32
    ensures { VisitCall image.old (layout_of shape s g) block result image.new verdict.new }
{
    let answer = store::visit(image, Layout { shape, s, g }, block);
    *verdict = words::answer_words(answer);
    words::number(&answer)
}
