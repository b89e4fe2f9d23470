// Format, ask and turn for C.
ghost use Rattle.layout.specs.Layout.{layout_of};
ghost use Rattle.foldgrebe.specs.Calls.{FormatCall, AskCall, TurnCall};

use layout::Layout;
use words::{RECORD_WORDS, REPORT_WORDS};

pub fn foldgrebe_format(
    image: &mut [u32],
    shape: u32,
    s: u32,
    g: u32,
    record: &mut [u32; RECORD_WORDS],
) -> u32
    ensures { FormatCall image.old (layout_of shape s g) result image.new «record».new }
{
    let answer = patrol::format(image, Layout { shape, s, g });
    *record = words::record_words(answer.back);
    words::number(&answer.done)
}

// The record is taken in and put back around the call, as in a turn: a helper with a closure would be no plainer.
pub fn foldgrebe_ask(record: &mut [u32; RECORD_WORDS], block: u32, place: &mut [u32; 1]) -> u32
    ensures { AskCall «record».old block result «record».new place.new }
{
    let answer = words::record_of(*record).ask(block);
    *record = words::record_words(answer.back);
    *place = words::count_words(answer.place);
    words::number(&answer.place)
}

pub fn foldgrebe_turn(
    record: &mut [u32; RECORD_WORDS],
    image: &mut [u32],
    report: &mut [u32; REPORT_WORDS],
) -> u32
    ensures { TurnCall «record».old image.old result «record».new image.new report.new }
{
    let answer = words::record_of(*record).turn(image);
    *record = words::record_words(answer.back);
    *report = words::report_words(answer.report);
    words::number(&answer.report)
}
