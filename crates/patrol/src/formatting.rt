// Format: the fresh image, and the record of a fresh store.
ghost use Rattle.patrol.specs.Format.{formatted_as, Formats};

use super::{Formatted, Record};
use layout::Layout;
use rota::Rota;

pub fn format(image: &mut [u32], layout: Layout) -> Formatted
    ensures { Formats image.old layout (formatted_as result) image.new }
{
    let done = store::fresh(image, layout);
    let layout = match done {
        Ok(()) => layout,
        Err(_) => Layout::default(),
    };
    let rota = Rota::fresh();
    let back = Record { layout, rota };
    Formatted { done, back }
}
