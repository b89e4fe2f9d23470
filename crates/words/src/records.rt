// The record as words, and back: shape, s, G, next, how many wait, and the places.
ghost use Rattle.words.specs.Records.{HoldsRecord, SpellsRecord};

use super::{FRONT_WORDS, RECORD_WORDS};
use layout::Layout;
use patrol::Record;
use rota::{Line, PLACES, Rota};

// The record that these words hold.
pub fn record_of(words: [u32; RECORD_WORDS]) -> Record
    ensures { HoldsRecord words result }
{
    let mut asks = [0u32; PLACES];
    asks.copy_from_slice(&words[FRONT_WORDS..]);
    Record {
        layout: Layout {
            shape: words[0],
            s: words[1],
            g: words[2],
        },
        rota: Rota {
            next: words[3],
            line: Line {
                waiting: words[4],
                asks,
            },
        },
    }
}

// The words of this record.
pub fn record_words(record: Record) -> [u32; RECORD_WORDS]
    ensures { SpellsRecord «record» result }
{
    let Record { layout, rota } = record;
    let mut words = [0u32; RECORD_WORDS];
    let front = [
        layout.shape,
        layout.s,
        layout.g,
        rota.next,
        rota.line.waiting,
    ];
    words[..FRONT_WORDS].copy_from_slice(&front);
    words[FRONT_WORDS..].copy_from_slice(&rota.line.asks);
    words
}
