// Write: the valid block for a lent list of data words.
ghost use Rattle.store.specs.Write.{Writes};

use super::copies::scatter;
use layout::Layout;
use refusal::Refusal;

pub fn write(image: &mut [u32], layout: Layout, block: u32, list: &[u32]) -> Result<(), Refusal>
    ensures { Writes image.old layout block list.now result image.new }
{
    let site = layout.locate(image.len(), block)?;
    if list.len() != shape::words(site.shape) {
        return Err(Refusal::BadList);
    }
    let mut valid = block::encode(site.shape, list);
    scatter(image, site, &mut valid);
    Ok(())
}
