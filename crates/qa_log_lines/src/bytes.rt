//! The bytes of a log, which is read three times, each time from its beginning on.

ghost use Rattle.std.specs.Prelude.{◌≡◌, ◌≤◌, IfOk, IsSome, length};

use crate::failure::LogFailure;
use qa_check::{Metered, Source};
use qa_logs::is_log;
use std::alloc::{AllocError, Global};
use std::fs;
use std::io::Read;
use std::rt::Files;

/// How many bytes are read at once.
const PIECE: usize = 65_536;

/// How many pieces are kept of a log that can be read only once: 1 GiB.
const MOST_PIECES: usize = 16_384;

/// The bytes of a log, to be read any number of times.
#[derive(Drop)]
pub enum Bytes<'a> {
    /// Those of the file of this name.
    File(&'a str),
    /// Those of a log that can be read only once, in pieces.
    Kept(Vec<Vec<u8>>),
}

impl<'a> Bytes<'a> {
    /// Those of the file of this name, or of the input if there is none. What can be read only once
    /// is read here, and kept.
    pub fn of<R: Files, I: Source>(
        rt: &R,
        alloc: Global,
        name: Option<&'a str>,
        input: &mut I,
    ) -> Result<Bytes<'a>, LogFailure>
        ensures { IsSome name.entry → input.new ≡ input.old }
    {
        let Some(name) = name else {
            return Ok(Bytes::Kept(keep(alloc, input)?));
        };
        if is_regular(rt, name)? {
            return Ok(Bytes::File(name));
        }
        let mut file = Metered::new(open(rt, name)?);
        Ok(Bytes::Kept(keep(alloc, &mut file)?))
    }

    /// The parts of these bytes, before the first of them.
    pub fn parts<R: Files>(&self, rt: &R, alloc: Global) -> Result<Parts<'_, R::File>, LogFailure> {
        match self {
            Bytes::File(name) => Ok(Parts::File {
                file: Metered::new(open(rt, name)?),
                piece: empty_piece(alloc)?,
                length: 0,
            }),
            Bytes::Kept(pieces) => Ok(Parts::Kept {
                pieces: pieces.as_slice(),
                passed: 0,
            }),
        }
    }
}

/// Whether the file of this name is a log, by its first 65,536 bytes, which can be read again from
/// its beginning on. If it cannot be opened or read it is none: whoever reads it sees why.
pub fn is_log_file<R: Files>(rt: &R, alloc: Global, name: &str) -> Result<bool, AllocError> {
    let Ok(true) = is_regular(rt, name) else {
        return Ok(false);
    };
    let Ok(file) = open(rt, name) else {
        return Ok(false);
    };
    match next_piece(alloc, &mut Metered::new(file)) {
        Ok(beginning) => is_log(alloc, beginning.as_slice()),
        Err(LogFailure::OutOfMemory) => Err(AllocError),
        Err(_) => Ok(false),
    }
}

/// Whether a file can be opened again and read again from its beginning on.
fn is_regular<R: Files>(rt: &R, name: &str) -> Result<bool, LogFailure> {
    match fs::metadata(rt, name) {
        Ok(metadata) => Ok(metadata.is_file()),
        Err(error) => Err(LogFailure::Open(error)),
    }
}

fn open<R: Files>(rt: &R, name: &str) -> Result<R::File, LogFailure> {
    match fs::open(rt, name) {
        Ok(file) => Ok(file),
        Err(error) => Err(LogFailure::Open(error)),
    }
}

fn empty_piece(alloc: Global) -> Result<Vec<u8>, LogFailure> {
    Ok(vec![in alloc; 0; PIECE]?)
}

/// Keeps all that a source has, in pieces that are full but for the last one.
///
/// `TooLong` comes if it has more than `MOST_PIECES` of them.
fn keep<S: Source>(alloc: Global, source: &mut S) -> Result<Vec<Vec<u8>>, LogFailure> {
    let mut pieces = Vec::new(alloc);
    for _ in 0..=MOST_PIECES {
        let piece = next_piece(alloc, source)?;
        if piece.is_empty() {
            return Ok(pieces);
        }
        pieces.push(piece)?;
    }
    Err(LogFailure::TooLong)
}

/// The next bytes of a source: as many as a piece has, or fewer at its end.
fn next_piece<S: Source>(alloc: Global, source: &mut S) -> Result<Vec<u8>, LogFailure> {
    let mut piece = empty_piece(alloc)?;
    let mut length = 0;
    while length < piece.len() {
        let count = read(source, &mut piece[length..])?;
        if count == 0 {
            break;
        }
        length += count;
    }
    piece.truncate(length);
    Ok(piece)
}

/// Reads into a piece, and returns how many bytes were read.
fn read<S: Source>(source: &mut S, piece: &mut [u8]) -> Result<usize, LogFailure>
    ensures { IfOk result (λ count. count ≤ length piece.new) }
{
    match source.read_piece(piece) {
        Ok(count) => Ok(count),
        Err(error) => Err(LogFailure::Read(error)),
    }
}

/// The parts of a log, one after another.
#[derive(Drop)]
pub enum Parts<'a, F> {
    /// Of a file: the piece that is read into, and how many of its bytes are the part.
    File {
        file: Metered<F>,
        piece: Vec<u8>,
        length: usize,
    },
    /// Of pieces: how many of them are passed, the last of which is the part.
    Kept {
        pieces: &'a [Vec<u8>],
        passed: usize,
    },
}

impl<'a, F: Read> Parts<'a, F> {
    /// Goes to the next part. Returns false at the end of the log.
    pub fn advance(&mut self) -> Result<bool, LogFailure> {
        match self {
            Parts::File {
                file,
                piece,
                length,
            } => {
                *length = read(file, piece.as_mut_slice())?;
                Ok(*length != 0)
            }
            Parts::Kept { pieces, passed } => {
                if *passed < pieces.len() {
                    *passed += 1;
                    return Ok(true);
                }
                Ok(false)
            }
        }
    }

    /// The bytes of this part. There are none before the first, and after the end.
    pub fn part(&self) -> &[u8] {
        match self {
            Parts::File { piece, length, .. } => piece.get(..*length).unwrap_or(&[]),
            Parts::Kept { pieces, passed } => match passed.checked_sub(1) {
                Some(at) => part_at(pieces, at),
                None => &[],
            },
        }
    }
}

fn part_at(pieces: &[Vec<u8>], at: usize) -> &[u8] {
    match pieces.get(at) {
        Some(piece) => piece.as_slice(),
        None => &[],
    }
}
