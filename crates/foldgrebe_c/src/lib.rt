// The archive for C: each call of the face for C, exported under the name that include/foldgrebe.h declares. A static library is no
// library for other crates, so the calls and what they promise stand in foldgrebe.
#![tactic(auto)]

ghost use Rattle.layout.specs.Layout.{layout_of};
ghost use Rattle.foldgrebe.specs.Calls.{WriteCall, ReadCall, VisitCall, FormatCall, AskCall, TurnCall};
ghost use Rattle.foldgrebe.specs.FileCalls.{FileWriteCall, FileLayoutCall, FileReadCall};

use words::{LAYOUT_WORDS, RECORD_WORDS, REPORT_WORDS, VERDICT_WORDS};

#[unsafe(no_mangle)]
pub extern "C" fn foldgrebe_write(
    image: &mut [u32],
    shape: u32,
    s: u32,
    g: u32,
    block: u32,
    list: &[u32],
) -> u32
    ensures { WriteCall image.old (layout_of shape s g) block list.now result image.new }
{
    foldgrebe::store_calls::foldgrebe_write(image, shape, s, g, block, list)
}

#[unsafe(no_mangle)]
pub extern "C" fn foldgrebe_read(
    image: &[u32],
    shape: u32,
    s: u32,
    g: u32,
    block: u32,
    buffer: &mut [u32],
    verdict: &mut [u32; VERDICT_WORDS],
) -> u32
    ensures { ReadCall image.now (layout_of shape s g) block buffer.old result
        image.now buffer.new verdict.new }
{
    foldgrebe::store_calls::foldgrebe_read(image, shape, s, g, block, buffer, verdict)
}

#[unsafe(no_mangle)]
pub extern "C" fn foldgrebe_visit(
    image: &mut [u32],
    shape: u32,
    s: u32,
    g: u32,
    block: u32,
    verdict: &mut [u32; VERDICT_WORDS],
) -> u32
    ensures { VisitCall image.old (layout_of shape s g) block result image.new verdict.new }
{
    foldgrebe::store_calls::foldgrebe_visit(image, shape, s, g, block, verdict)
}

#[unsafe(no_mangle)]
pub extern "C" fn foldgrebe_format(
    image: &mut [u32],
    shape: u32,
    s: u32,
    g: u32,
    record: &mut [u32; RECORD_WORDS],
) -> u32
    ensures { FormatCall image.old (layout_of shape s g) result image.new «record».new }
{
    foldgrebe::patrol_calls::foldgrebe_format(image, shape, s, g, record)
}

#[unsafe(no_mangle)]
pub extern "C" fn foldgrebe_ask(
    record: &mut [u32; RECORD_WORDS],
    block: u32,
    place: &mut [u32; 1],
) -> u32
    ensures { AskCall «record».old block result «record».new place.new }
{
    foldgrebe::patrol_calls::foldgrebe_ask(record, block, place)
}

#[unsafe(no_mangle)]
pub extern "C" fn foldgrebe_turn(
    record: &mut [u32; RECORD_WORDS],
    image: &mut [u32],
    report: &mut [u32; REPORT_WORDS],
) -> u32
    ensures { TurnCall «record».old image.old result «record».new image.new report.new }
{
    foldgrebe::patrol_calls::foldgrebe_turn(record, image, report)
}

#[unsafe(no_mangle)]
pub extern "C" fn foldgrebe_file_write(
    image: &[u32],
    shape: u32,
    s: u32,
    g: u32,
    buffer: &mut [u8],
    written: &mut [u32; 1],
) -> u32
    ensures { FileWriteCall image.now (layout_of shape s g) buffer.old result
        image.now buffer.new written.new }
{
    foldgrebe::file_calls::foldgrebe_file_write(image, shape, s, g, buffer, written)
}

#[unsafe(no_mangle)]
pub extern "C" fn foldgrebe_file_layout(bytes: &[u8], layout: &mut [u32; LAYOUT_WORDS]) -> u32
    ensures { FileLayoutCall bytes.now result bytes.now layout.new }
{
    foldgrebe::file_calls::foldgrebe_file_layout(bytes, layout)
}

#[unsafe(no_mangle)]
pub extern "C" fn foldgrebe_file_read(
    bytes: &[u8],
    image: &mut [u32],
    layout: &mut [u32; LAYOUT_WORDS],
) -> u32
    ensures { FileReadCall bytes.now image.old result
        bytes.now image.new layout.new }
{
    foldgrebe::file_calls::foldgrebe_file_read(bytes, image, layout)
}
