// Ask: a block put on the waiting list of the record.
ghost use Rattle.patrol.specs.Ask.{Asks};

use super::{Asked, Record};
use refusal::Refusal;

impl Record {
    // By value, as the specification hands the old record in and gets the new one back.
    pub fn ask(self, block: u32) -> Asked
        ensures { Asks self block result }
    {
        let mut back = self;
        let place = back.join(block);
        Asked { place, back }
    }

    // The place that the block has on the list.
    fn join(&mut self, block: u32) -> Result<u32, Refusal>
        ensures { Asks self.old block (record { place = result; back = self.new }) }
    {
        self.layout.check()?;
        let n = self.layout.blocks() as u32;
        self.rota.ask(n, block)
    }
}
