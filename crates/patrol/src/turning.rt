// Turn: the patrol's block visited, and then the ask at place 1.
ghost use Rattle.std.specs.Prelude.{◌≡◌, length};
ghost use Rattle.patrol.specs.Turn.{reported, patrolled, Turns};
ghost use Rattle.patrol.specs.Inner.{Ready};

use super::{Record, Report, Turned, Visit};
use layout::Layout;
use refusal::Refusal;
use rota::Due;
use store::visit_accepted;

impl Record {
    // By value, as an ask.
    pub fn turn(self, image: &mut [u32]) -> Turned
        ensures { Turns self image.old result image.new }
    {
        let mut back = self;
        let report = back.advance(image);
        Turned { report, back }
    }

    // The report of the blocks that are due.
    fn advance(&mut self, image: &mut [u32]) -> Result<Report, Refusal>
        ensures { Turns self.old image.old (record { report = result; back = self.new }) image.new }
    {
        let layout = self.layout;
        layout.check_image(image.len())?;
        let due = self.rota.turn(layout.blocks() as u32)?;
        Ok(visit_due(layout, image, due))
    }
}

// The blocks that are due, visited in their order.
fn visit_due(layout: Layout, image: &mut [u32], due: Due) -> Report
    requires { Ready layout (length image.old) due }
    ensures { (result ≡ reported layout image.old due) × (image.new ≡ patrolled layout image.old due) }
{
    let first = due.patrol;
    let patrol = Visit {
        block: first,
        verdict: visit_accepted(image, layout, first),
    };
    match due.ask {
        None => Report { patrol, ask: None },
        Some(second) => {
            let ask = Visit {
                block: second,
                verdict: visit_accepted(image, layout, second),
            };
            Report {
                patrol,
                ask: Some(ask),
            }
        }
    }
}
