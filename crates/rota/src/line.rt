// A line of asks: the blocks that wait for a turn of their own, in an array of PLACES places.
ghost use Rattle.std.specs.Prelude.{◌≡◌, ◌&&◌, [], ◌≤◌, ◌<◌, ◌+◌, length, option_map, IfSome};
ghost use Rattle.rota.specs.Line.{places, place_of, first_of, below, none_twice, zeros};
ghost use Rattle.rota.specs.Line.{asks_of, unused_of, full, sound, line_of, longer, shorter, Tidy};

// How many blocks may wait.
pub const PLACES: usize = 16;

// How many blocks wait, and which, the next one first. An array and a count, as C hands them in: no heap, and no invariant.
#[derive(Clone, Copy, Debug, PartialEq, Eq)]
pub struct Line {
    pub waiting: u32,
    pub asks: [u32; PLACES],
}

impl Line {
    // Nothing waits.
    pub(crate) fn empty() -> Line
        ensures { result ≡ line_of places [] }
    {
        Line {
            waiting: 0,
            asks: [0; PLACES],
        }
    }

    // Whether a patrol of `n` blocks can have this line.
    pub(crate) fn sound(&self, n: u32) -> bool
        ensures { result ≡ sound places n self.now }
    {
        if PLACES < self.waiting as usize {
            return false;
        }
        self.in_order(n) && self.unused()
    }

    // The place of a block that waits, from 1.
    pub(crate) fn place(&self, block: u32) -> Option<u32>
        requires { self.now.waiting ≤ places }
        ensures { result ≡ place_of block (asks_of self.now) }
    {
        let at = index_of(self.waits(), block)?;
        Some(at as u32 + 1)
    }

    // Whether every place is in use.
    pub(crate) fn is_full(&self) -> bool
        ensures { result ≡ full places (asks_of self.now) }
    {
        PLACES <= self.waiting as usize
    }

    // One block more, behind the others.
    pub(crate) fn push(&mut self, block: u32)
        requires { Tidy places self.old × (self.old.waiting < places) }
        ensures { self.new ≡ longer places self.old block }
    {
        self.asks[self.waiting as usize] = block;
        self.waiting += 1;
    }

    // The first block leaves, if there is one: every other moves up by one place, and the last place holds 0.
    pub(crate) fn take_first(&mut self) -> Option<u32>
        requires { Tidy places self.old }
        ensures { (result ≡ first_of (asks_of self.old)) × (self.new ≡ shorter places self.old) }
    {
        if self.waiting == 0 {
            return None;
        }
        let first = self.asks[0];
        self.asks.copy_within(1.., 0);
        self.asks[PLACES - 1] = 0;
        self.waiting -= 1;
        Some(first)
    }

    // The blocks that wait.
    fn waits(&self) -> &[u32]
        requires { self.now.waiting ≤ places }
        ensures { result.now ≡ asks_of self.now }
    {
        &self.asks[..self.waiting as usize]
    }

    // Whether every block that waits is below `n` and no two are the same.
    fn in_order(&self, n: u32) -> bool
        requires { self.now.waiting ≤ places }
        ensures { result ≡ (below n (asks_of self.now) && none_twice (asks_of self.now)) }
    {
        let waits = self.waits();
        for (i, &block) in waits.iter().enumerate() {
            if n <= block {
                return false;
            }
            if index_of(&waits[..i], block).is_some() {
                return false;
            }
        }
        true
    }

    // Whether the places behind those that wait hold 0.
    fn unused(&self) -> bool
        requires { self.now.waiting ≤ places }
        ensures { result ≡ zeros (unused_of self.now) }
    {
        self.asks[self.waiting as usize..]
            .iter()
            .all(|&place| place == 0)
    }
}

// Where a block stands among these, from 0.
fn index_of(blocks: &[u32], block: u32) -> Option<usize>
    ensures place { option_map (λ i. i + 1) result ≡ place_of block blocks.now }
    ensures bound { IfSome result (λ i. i < length blocks.now) }
{
    blocks.iter().position(|&one| one == block)
}
