// What a call that names a layout answers, as words.
ghost use Rattle.words.specs.Files.{SpellsHeader};

use super::LAYOUT_WORDS;
use layout::Layout;
use refusal::Refusal;

// The shape, s and G that a header names, and zeros where the file is refused.
pub fn header_words(header: Result<Layout, Refusal>) -> [u32; LAYOUT_WORDS]
    ensures { SpellsHeader header result }
{
    let layout = header.unwrap_or_default();
    [layout.shape, layout.s, layout.g]
}
