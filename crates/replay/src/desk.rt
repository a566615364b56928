// The builder that lines open and use.
use crate::said::{Digits, Said};
use crate::trouble::{Trouble, Unread};
use crate::words::Words;
use builder::ZeroBuilder;
use std::alloc::{AllocError, Global};

// What buffers and outputs hold before a call.
const OLD: u8 = 0xee;

#[derive(Drop)]
pub struct Desk {
    heap: Global,
    builder: Option<ZeroBuilder>,
}

impl Desk {
    pub(crate) fn new(heap: Global) -> Desk {
        Desk {
            heap,
            builder: None,
        }
    }

    pub(crate) fn filled(&self, room: usize) -> Result<Vec<u8>, AllocError> {
        vec![in self.heap; OLD; room]
    }

    pub(crate) fn digits(&self, bytes: &[u8]) -> Result<Digits, AllocError> {
        Ok(Digits(bytes.to_vec(self.heap)?))
    }

    // A builder over a new buffer.
    pub(crate) fn open(&mut self, room: usize) -> Result<Vec<u8>, Trouble> {
        let buffer = self.filled(room)?;
        self.builder = Some(ZeroBuilder::new(buffer.as_slice())?);
        Ok(buffer)
    }

    pub(crate) fn opened(&self) -> Result<(), Unread> {
        if self.builder.is_none() {
            return Err(Unread::NoBuilder);
        }
        Ok(())
    }

    // A number of a call on the open builder: that none is open is told first.
    pub(crate) fn number(&self, words: Words, i: usize) -> Result<usize, Unread> {
        self.opened()?;
        words.number(i)
    }

    pub(crate) fn builder(&mut self) -> Result<&mut ZeroBuilder, Unread> {
        self.builder.as_mut().ok_or(Unread::NoBuilder)
    }

    pub(crate) fn finish(&mut self, buffer: &[u8]) -> Result<Said, Trouble> {
        let finished = self.builder.take().ok_or(Unread::NoBuilder)?.finish();
        let end = finished.length.min(buffer.len());
        let archive = self.digits(&buffer[..end])?;
        Ok(Said::Archive(finished.length, finished.alignment, archive))
    }
}
