// The fresh image: every block is the valid block for zero data.
ghost use Rattle.store.specs.Fresh.{Clears};

use layout::Layout;
use refusal::Refusal;

#[tactic(auto, using(crate::proofs::Cleared::fresh_refused))]
pub fn fresh(image: &mut [u32], layout: Layout) -> Result<(), Refusal>
    ensures { Clears image.old layout result image.new }
{
    layout.check_image(image.len())?;
    image.fill(0);
    stored::complement_image(image, layout);
    Ok(())
}
