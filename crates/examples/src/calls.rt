// The calls, answered by words, on an image and on what is lent beside it: a list or buffer, a file, or a record.
use crate::answers::{
    ANSWER_WORDS, of_count, of_done, of_header, of_report, of_stored, of_verdict,
};
use crate::filed;
use crate::heads::{Call, Head};
use layout::Layout;
use words::RECORD_WORDS;

// An image and the words of its record.
#[derive(Drop)]
pub(crate) struct Patrolled<'a> {
    pub(crate) image: &'a mut [u32],
    pub(crate) record: &'a mut [u32; RECORD_WORDS],
}

impl Patrolled<'_> {
    // Format, and the record that it gives.
    pub(crate) fn format(&mut self, layout: Layout) -> [u32; ANSWER_WORDS] {
        let formatted = patrol::format(self.image, layout);
        *self.record = words::record_words(formatted.back);
        of_done(&formatted.done)
    }

    // An ask, and the record that comes back.
    pub(crate) fn ask(&mut self, block: u32) -> [u32; ANSWER_WORDS] {
        let asked = words::record_of(*self.record).ask(block);
        *self.record = words::record_words(asked.back);
        of_count(asked.place)
    }

    // A turn, and the record that comes back.
    pub(crate) fn turn(&mut self) -> [u32; ANSWER_WORDS] {
        let turned = words::record_of(*self.record).turn(self.image);
        *self.record = words::record_words(turned.back);
        of_report(turned.report)
    }
}

// Runs a call on an image and its record, where the record that is lent has a record's length.
fn run_patrolled<F>(image: &mut [u32], record: &mut [u32], call: F) -> Option<[u32; ANSWER_WORDS]>
where
    F: FnOnce(&mut Patrolled<'_>) -> [u32; ANSWER_WORDS],
    requires { F.IsAlwaysCallable call }
{
    let record = record.try_into().ok()?;
    Some(call(&mut Patrolled { image, record }))
}

// What is lent to a call.
#[derive(Drop)]
pub(crate) struct Lent<'a> {
    pub(crate) image: &'a mut [u32],
    pub(crate) list: &'a mut [u32],
    pub(crate) record: &'a mut [u32],
}

impl Lent<'_> {
    // Runs the call and gives its answer, where it is lent the record or the file that it wants.
    pub(crate) fn run(&mut self, head: Head) -> Option<[u32; ANSWER_WORDS]> {
        let image = &mut *self.image;
        let list = &mut *self.list;
        let layout = head.layout;
        let block = head.block;
        let answer = match head.call {
            Call::Write => of_stored(store::write(image, layout, block, list)),
            Call::Read => of_verdict(store::read(image, layout, block, list)),
            Call::Visit => of_verdict(store::visit(image, layout, block)),
            Call::Format => run_patrolled(image, self.record, |store| store.format(layout))?,
            Call::Ask => run_patrolled(image, self.record, |store| store.ask(block))?,
            Call::Turn => run_patrolled(image, self.record, |store| store.turn())?,
            Call::FileWrite => filed::run(list, |file| {
                of_count(file::write_file(image, layout, file))
            })?,
            Call::FileLayout => filed::run(list, |file| of_header(file::read_header(file)))?,
            Call::FileRead => filed::run(list, |file| of_header(file::read_file(file, image)))?,
        };
        Some(answer)
    }
}
