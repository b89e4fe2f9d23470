// Texts and decimal numbers on a page.
#![tactic(auto)]

mod numbers;
mod texts;

// A lent buffer and the place of its next byte. What does not fit is not written, and the place stays: std's Cursor would write the part that fits.
#[derive(Drop)]
pub struct Page<'a> {
    pub bytes: &'a mut [u8],
    pub next: usize,
}
