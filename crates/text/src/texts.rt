// A text on a page.
ghost use Rattle.std.specs.Prelude.{◌≡◌, length};
ghost use Rattle.text.specs.Puts.{PutsText, OnPage};

use super::Page;

// Copies a text over as many bytes. By itself, so that a byte which is left is seen where it is copied.
fn paste(text: &[u8], room: &mut [u8])
    requires { length room.old ≡ length text.now }
    ensures { room.new ≡ text.now }
{
    room.copy_from_slice(text);
}

impl<'a> Page<'a> {
    #[tactic(auto, using(crate::proofs::Pages::leaves, crate::proofs::Pages::copies))]
    pub fn put_text(&mut self, text: &[u8])
        ensures { OnPage (PutsText text.now) self.old self.new }
    {
        let len = self.bytes.len();
        if len < self.next || len - self.next < text.len() {
            return;
        }
        let end = self.next + text.len();
        paste(text, &mut self.bytes[self.next..end]);
        self.next = end;
    }
}
