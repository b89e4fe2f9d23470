// The rota: whose go it is. It knows the block that is next and the blocks that wait, and no memory.
#![tactic(auto)]

mod line;

ghost use Rattle.std.specs.Prelude.{◌≡◌, ◌<◌};
ghost use Rattle.rota.specs.Turning.{onward};
ghost use Rattle.rota.specs.Record.{unbroken};
ghost use Rattle.rota.specs.Calls.{IsFresh, RotaAsks, RotaTurns};

pub use line::{Line, PLACES};
use refusal::Refusal;

// The record: the block that is next, and the line of those that are asked for. It comes from C and may hold anything: no invariant.
#[derive(Clone, Copy, Debug, PartialEq, Eq)]
pub struct Rota {
    pub next: u32,
    pub line: Line,
}

// Whose turn it is: the patrol's block, and then the ask's where one is served. A report has visits in their place: one generic type would be no plainer.
#[derive(Clone, Copy, Debug, PartialEq, Eq)]
pub struct Due {
    pub patrol: u32,
    pub ask: Option<u32>,
}

impl Rota {
    // Block 0 is next, and nothing waits.
    pub fn fresh() -> Rota
        ensures { IsFresh result }
    {
        Rota {
            next: 0,
            line: Line::empty(),
        }
    }

    // Puts a block on the line, for a patrol of `n` blocks, and answers its place.
    pub fn ask(&mut self, n: u32, block: u32) -> Result<u32, Refusal>
        ensures { RotaAsks n self.old block result self.new }
    {
        if !self.unbroken(n) {
            return Err(Refusal::BrokenRecord);
        }
        if n <= block {
            return Err(Refusal::NoBlock);
        }
        if let Some(place) = self.line.place(block) {
            return Ok(place);
        }
        if self.line.is_full() {
            return Err(Refusal::LineFull);
        }
        self.line.push(block);
        Ok(self.line.waiting)
    }

    // The blocks whose turn it is, in a patrol of `n` blocks.
    pub fn turn(&mut self, n: u32) -> Result<Due, Refusal>
        ensures { RotaTurns n self.old result self.new }
    {
        if !self.unbroken(n) {
            return Err(Refusal::BrokenRecord);
        }
        let patrol = self.next;
        self.next = onward(patrol, n);
        let ask = self.line.take_first();
        Ok(Due { patrol, ask })
    }

    // Whether a patrol of `n` blocks can have this record.
    fn unbroken(&self, n: u32) -> bool
        ensures { result ≡ unbroken n self.now }
    {
        self.next < n && self.line.sound(n)
    }
}

// The block after `block`, round `n` blocks.
fn onward(block: u32, n: u32) -> u32
    requires { block < n }
    ensures { result ≡ onward n block }
{
    if block + 1 < n { block + 1 } else { 0 }
}
