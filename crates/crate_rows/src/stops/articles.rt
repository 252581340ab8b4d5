//! The articles of a buffer. The text of an article is computed from its class and its octets.
use crate::row_text::{Cells, Sheet};
use crate::runs::{number, octet};
use crate::stops::bench::Bench;
use cyc_block::{BlockStore, CHUNK_OCTETS};
use cyc_buffer::{BufError, Buffer, Found, Open};
use cyc_token::Token;
use line_words::is;

/// How an article that was begun ends.
#[derive(Clone, Copy)]
pub(crate) enum End {
    /// It is finished.
    Finished,
    /// It is abandoned.
    Abandoned,
    /// Its write stays open.
    Unfinished,
}

/// What is stored: an article of a class and of so many octets.
#[derive(Clone, Copy)]
struct Stored {
    class: u8,
    octets: u32,
    /// It begins a cycle.
    is_fresh: bool,
    /// So many of its blocks are written.
    blocks: u64,
    end: End,
}

impl Bench {
    /// Writes the token under which an article is stored, or why it isn't. Of one that isn't
    /// finished so many blocks are written as the last cell says; one that is may begin a cycle.
    pub(crate) fn store(&mut self, end: End, cells: &Cells, sheet: &Sheet) {
        let class = octet(cells, sheet);
        let octets = number(cells, sheet);
        let mut blocks = u64::from(octets).div_ceil(CHUNK_OCTETS as u64);
        let mut is_fresh = false;
        if !matches!(end, End::Finished) {
            blocks = sheet.read(cells.next());
        } else if cells.has_more() {
            is_fresh = is(cells.next(), b"fresh");
        }
        let stored = Stored {
            class,
            octets,
            is_fresh,
            blocks,
            end,
        };
        self.put_article(stored, sheet);
    }

    /// Stores an article in the buffer that runs, and writes its token.
    fn put_article(&mut self, stored: Stored, sheet: &Sheet) {
        match self {
            Bench::Running(buffer) => begin_article(buffer, stored, sheet),
            _ => sheet.refuse(),
        }
    }

    /// Writes what is read of the article under a token.
    pub(crate) fn read(&mut self, cells: &Cells, sheet: &Sheet) {
        match Token::parse(cells.next()) {
            Ok(token) => {
                let text = text_of(token.class, token.length, sheet);
                self.compare(&token, &text, sheet);
            }
            Err(_) => sheet.refuse(),
        }
    }

    /// Reads the article under a token, block by block, and writes how it is beside its text.
    fn compare(&mut self, token: &Token, text: &[u8], sheet: &Sheet) {
        let mut chunk = [0; CHUNK_OCTETS];
        let mut block = 0u32;
        for expected in text.chunks(CHUNK_OCTETS) {
            match self.block(token, block, &mut chunk) {
                Ok(Found::Chunk(octets)) => {
                    if !is(chunk.get(..octets).unwrap_or(b""), expected) {
                        return sheet.put(b"other");
                    }
                }
                other => return put_other(&other, sheet),
            }
            block = block.saturating_add(1);
        }
        sheet.put(b"whole");
    }

    /// Block k of the article under a token.
    fn block(
        &mut self,
        token: &Token,
        k: u32,
        chunk: &mut [u8; CHUNK_OCTETS],
    ) -> Result<Found, BufError> {
        match self {
            Bench::Running(buffer) => buffer.read_block(token, k, chunk),
            Bench::Unopened(buffer) => buffer.read_block(token, k, chunk),
            _ => Ok(Found::Unknown),
        }
    }

    /// Writes the numbers of a buffer.
    pub(crate) fn put_numbers(&self, sheet: &Sheet) {
        match self {
            Bench::Running(buffer) => put_numbers_of(buffer, sheet),
            Bench::Unopened(buffer) => put_numbers_of(buffer.buffer(), sheet),
            _ => sheet.refuse(),
        }
    }
}

/// Writes the numbers of a buffer.
fn put_numbers_of<S: BlockStore>(buffer: &Buffer<S>, sheet: &Sheet) {
    let numbers = [
        u64::from(buffer.blocks()),
        u64::from(buffer.cycle()),
        buffer.front(),
        buffer.begun(),
        buffer.stored(),
    ];
    sheet.filled(b"blocks # cycle # front # begun # stored #", &numbers);
}

/// Begins an article, writes so many of its blocks, ends it so, and writes its token.
fn begin_article<S: BlockStore>(buffer: &mut Buffer<S>, stored: Stored, sheet: &Sheet) {
    if stored.octets == 0 {
        return sheet.refuse();
    }
    match buffer.begin(stored.class, stored.octets, stored.is_fresh) {
        Ok(open) => write_article(buffer, open, stored, sheet),
        Err(error) => sheet.debug(&error),
    }
}

/// Writes so many blocks of an article that was begun, ends it so, and writes its token.
fn write_article<S: BlockStore>(buffer: &mut Buffer<S>, open: Open, stored: Stored, sheet: &Sheet) {
    let text = text_of(stored.class, stored.octets, sheet);
    if !write_blocks(buffer, &open, &text, stored.blocks, sheet) {
        return buffer.abandon(open);
    }
    match stored.end {
        End::Finished => put_finished(buffer, open, sheet),
        End::Abandoned => {
            sheet.put(&open.token().to_text());
            buffer.abandon(open);
        }
        End::Unfinished => sheet.put(&open.into_token().to_text()),
    }
}

/// Writes so many blocks of an article; where one fails, or there is none to be written, that is
/// written, and the answer is `false`.
fn write_blocks<S: BlockStore>(
    buffer: &mut Buffer<S>,
    open: &Open,
    text: &[u8],
    blocks: u64,
    sheet: &Sheet,
) -> bool {
    for _block in 0..blocks {
        if !buffer.can_write(open, text) {
            sheet.put(b"not open");
            return false;
        }
        if let Err(error) = buffer.write_next(open, text) {
            sheet.debug(&error);
            return false;
        }
    }
    true
}

/// Finishes an article, and writes its token; where that can't be, it is written, and the article
/// abandoned.
fn put_finished<S: BlockStore>(buffer: &mut Buffer<S>, open: Open, sheet: &Sheet) {
    if buffer.can_finish(&open) {
        sheet.put(&buffer.finish(open).to_text());
    } else {
        sheet.put(b"not written");
        buffer.abandon(open);
    }
}

/// The octet at a place of the text of an article of a class.
fn octet_at(class: u8, place: usize) -> u8 {
    (place.saturating_add(place / CHUNK_OCTETS) % 251) as u8 ^ class
}

/// The text of an article of a class and of so many octets.
fn text_of(class: u8, octets: u32, sheet: &Sheet) -> Vec<u8> {
    let mut text = Vec::new(sheet.alloc);
    for place in 0..octets as usize {
        if text.push(octet_at(class, place)).is_err() {
            sheet.lack();
            return text;
        }
    }
    text
}

/// Writes what was found that is no block.
fn put_other(found: &Result<Found, BufError>, sheet: &Sheet) {
    match found {
        Ok(Found::Gone(front)) => sheet.numbered(b"gone ", front.front()),
        Ok(_) => sheet.put(b"unknown"),
        Err(error) => sheet.debug(error),
    }
}
