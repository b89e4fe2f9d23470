// A block's rows between the image, where they are stored words, and an array, where they are the code's: gathered, and scattered.
// A shared image is lent on as `&*image`, which the compiler then passes in registers (docs/SPEED.md).
ghost use Rattle.std.specs.Prelude.{◌≡◌, length};
ghost use Rattle.shape.specs.Shape.{rows};
ghost use Rattle.stored.specs.Stored.{complemented};
ghost use Rattle.store.specs.Inner.{Inside, Lies, copied, places_of, stride_read, put};

use layout::Site;
use shape::{MOST_ROWS, Shape, rows};

// The words of rows in a list: the first at `at`, each `s` past the one before.
#[derive(Clone, Copy)]
struct Places {
    at: usize,
    s: usize,
}

// The rows of an array are its first words.
const GATHERED: Places = Places { at: 0, s: 1 };

// The rows of one list into those of another: neighbours at once, others four a turn.
// A row a turn would take a write at s = 6 up to 65 instructions of 793 more, and a visit that mends up to 76 of 1,097.
fn copy(shape: Shape, from: &[u32], read: Places, to: &mut [u32], written: Places)
    requires { Lies (length from.now) (rows shape) read × Lies (length to.old) (rows shape) written }
    ensures { to.new ≡ copied from.now read to.old written (rows shape) }
{
    let count = rows(shape);
    if read.s == 1 && written.s == 1 {
        let (i, k) = (read.at, written.at);
        // By index: std's copy_from_slice calls memmove here, which the archive is not to want (docs/C.md).
        for n in 0..count {
            to[k + n] = from[i + n];
        }
        return;
    }
    let (s, t) = (read.s, written.s);
    // By index: a proof knows nothing of a list after a skip, step_by or zip of its iter_mut.
    for turn in 0..count / 4 {
        let (i, k) = (read.at + 4 * turn * s, written.at + 4 * turn * t);
        to[k] = from[i];
        to[k + t] = from[i + s];
        to[k + 2 * t] = from[i + 2 * s];
        to[k + 3 * t] = from[i + 3 * s];
    }
}

impl From<Site> for Places {
    ghost from_gives = { λ site given. given ≡ places_of site };

    fn from(site: Site) -> Places {
        Places {
            at: site.at as usize,
            s: site.s as usize,
        }
    }
}

// The rows of the block at a site, as the code has them, into the first of the block.
// That the site lies inside is asked of each caller: it holds of a site and an image together, and mending changes the image.
pub(crate) fn gather(image: &[u32], site: Site, block: &mut [u32; MOST_ROWS])
    requires { Inside (length image.now) (rows site.shape) site.at site.s }
    ensures { block.new ≡ complemented (stride_read image.now site.at site.s block.old (rows site.shape)) }
{
    copy(site.shape, &*image, Places::from(site), block, GATHERED);
    stored::complement_block(block);
}

// The code's block put at a site; the array holds the stored words then.
pub(crate) fn scatter(image: &mut [u32], site: Site, block: &mut [u32; MOST_ROWS])
    requires { Inside (length image.old) (rows site.shape) site.at site.s }
    ensures { image.new ≡ put site.shape image.old site.at site.s block.old }
{
    stored::complement_block(block);
    copy(site.shape, &*block, GATHERED, image, Places::from(site));
}
