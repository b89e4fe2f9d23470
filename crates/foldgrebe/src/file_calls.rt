// Files for C: an image written as a file, and read from one.
ghost use Rattle.layout.specs.Layout.{layout_of};
ghost use Rattle.foldgrebe.specs.FileCalls.{FileWriteCall, FileLayoutCall, FileReadCall};

use layout::Layout;
use words::LAYOUT_WORDS;

pub fn foldgrebe_file_write(
    image: &[u32],
    shape: u32,
    s: u32,
    g: u32,
    buffer: &mut [u8],
    written: &mut [u32; 1],
) -> u32
    ensures { FileWriteCall image.now (layout_of shape s g) buffer.old result
        image.now buffer.new written.new }
{
    let answer = file::write_file(image, Layout { shape, s, g }, buffer);
    *written = words::count_words(answer);
    words::number(&answer)
}

pub fn foldgrebe_file_layout(bytes: &[u8], layout: &mut [u32; LAYOUT_WORDS]) -> u32
    ensures { FileLayoutCall bytes.now result bytes.now layout.new }
{
    let said = file::read_header(bytes);
    *layout = words::header_words(said);
    words::number(&said)
}

pub fn foldgrebe_file_read(bytes: &[u8], image: &mut [u32], layout: &mut [u32; LAYOUT_WORDS]) -> u32
    ensures { FileReadCall bytes.now image.old result
        bytes.now image.new layout.new }
{
    let header = file::read_file(bytes, image);
    *layout = words::header_words(header);
    words::number(&header)
}
