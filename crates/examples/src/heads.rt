// The head of a vector: which call, its arguments, and how many words it is lent.
use layout::Layout;
use words::RECORD_WORDS;

pub(crate) const HEAD_WORDS: usize = 8;

// No vector lends a longer image, or a longer data list or buffer.
const IMAGE_WORDS: usize = 145;

const LIST_WORDS: usize = 65;

// No vector of a call on a file lends a longer image, or a longer file.
pub(crate) const FILED_WORDS: usize = 72;

pub(crate) const FILE_BYTES: usize = 300;

#[derive(Clone, Copy, Debug, PartialEq, Eq)]
pub(crate) enum Call {
    Format,
    Write,
    Read,
    Visit,
    Ask,
    Turn,
    FileWrite,
    FileLayout,
    FileRead,
}

// A number that is no call's.
#[derive(Clone, Copy, Debug, PartialEq, Eq)]
pub(crate) struct UnknownCall(u32);

impl TryFrom<u32> for Call {
    type Error = UnknownCall;

    fn try_from(number: u32) -> Result<Self, UnknownCall> {
        match number {
            1 => Ok(Call::Format),
            2 => Ok(Call::Write),
            3 => Ok(Call::Read),
            4 => Ok(Call::Visit),
            5 => Ok(Call::Ask),
            6 => Ok(Call::Turn),
            7 => Ok(Call::FileWrite),
            8 => Ok(Call::FileLayout),
            9 => Ok(Call::FileRead),
            _ => Err(UnknownCall(number)),
        }
    }
}

#[derive(Clone, Copy)]
pub(crate) struct Head {
    pub(crate) call: Call,
    pub(crate) layout: Layout,
    pub(crate) block: u32,
    // The words of the image, of the data list, buffer or file, and of the record.
    pub(crate) image: usize,
    pub(crate) list: usize,
    pub(crate) record: usize,
}

impl TryFrom<[u32; HEAD_WORDS]> for Head {
    type Error = UnknownCall;

    fn try_from(words: [u32; HEAD_WORDS]) -> Result<Self, UnknownCall> {
        let [call, shape, s, g, block, image, list, record] = words;
        Ok(Head {
            call: Call::try_from(call)?,
            layout: Layout { shape, s, g },
            block,
            image: image as usize,
            list: list as usize,
            record: record as usize,
        })
    }
}

impl Head {
    // Whether no more is lent than this of an image and a list, and a record of just this length.
    fn lends(self, image: usize, list: usize, record: usize) -> bool {
        self.image <= image && self.list <= list && self.record == record
    }

    // Whether the call is lent what it may be.
    pub(crate) fn fits(self) -> bool {
        match self.call {
            Call::Format | Call::Turn => self.lends(IMAGE_WORDS, 0, RECORD_WORDS),
            Call::Write | Call::Read => self.lends(IMAGE_WORDS, LIST_WORDS, 0),
            Call::Visit => self.lends(IMAGE_WORDS, 0, 0),
            Call::Ask => self.lends(0, 0, RECORD_WORDS),
            Call::FileWrite | Call::FileRead => self.lends(FILED_WORDS, FILE_BYTES, 0),
            Call::FileLayout => self.lends(0, FILE_BYTES, 0),
        }
    }
}
