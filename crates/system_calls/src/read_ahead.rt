// An input that is read in pieces.
ghost use Rattle.std.specs.Prelude.{◌≡◌, ◌⊎◌, ◌++◌, ◌-◌, ◌≤◌, ◌<◌, false, [], length, take, min, vec_len, IfOk, OnOk, OnErr, IsTrue};
ghost use Rattle.system_calls.specs.Held.{held};

use crate::InputCalls;
use std::alloc::Global;
use std::io;

/// Reads pieces of an input, and hands out their bytes. What it holds was read, and is still to come.
#[derive(Drop)]
pub struct ReadAhead<I: InputCalls> {
    input: I,
    /// The piece. Its bytes from `start` to `end` are held.
    piece: Vec<u8>,
    start: usize,
    end: usize,
    ghost ordered: { start ≤ end },
    ghost inside: { end ≤ vec_len piece },
}

impl<I: InputCalls> ReadAhead<I> {
    /// Nothing was read. Pieces have this many bytes. Where that is 0, or memory does not suffice for one, no byte is read ahead.
    pub fn new(alloc: Global, size: usize, input: I) -> ReadAhead<I>
        ensures input { result.input ≡ input }
        ensures empty { held result.piece.items result.start result.end ≡ [] }
    {
        ReadAhead {
            input,
            piece: zeros(alloc, size),
            start: 0,
            end: 0,
        }
    }

    // Whether nothing is held, and no less is asked for than a piece: then it is read without one.
    fn passes_on(&self, asked: usize) -> bool
        ensures empty { IsTrue result → held self.now.piece.items self.now.start self.now.end ≡ [] }
        ensures piece { result ≡ false → (asked < vec_len self.now.piece) ⊎ (self.now.start < self.now.end) }
    {
        self.start == self.end && asked >= self.piece.len()
    }

    // Where nothing is held, a piece is read.
    fn refill(&mut self) -> io::Result<()>
        ensures size { vec_len self.new.piece ≡ vec_len self.old.piece }
        ensures told { IsTrue I.tells → held self.old.piece.items self.old.start self.old.end ++ I.left self.old.input
            ≡ held self.new.piece.items self.new.start self.new.end ++ I.left self.new.input }
        ensures end { OnOk result (IsTrue I.tells → self.new.end ≤ self.new.start
            → (vec_len self.old.piece ≡ 0) ⊎ (held self.old.piece.items self.old.start self.old.end ++ I.left self.old.input ≡ [])) }
    {
        if self.start < self.end {
            return Ok(());
        }
        self.start = 0;
        self.end = 0;
        self.end = self.input.read(&mut self.piece)?;
        Ok(())
    }

    // Moves as many bytes as are held and fit, and answers how many.
    fn hand_out(&mut self, buf: &mut [u8]) -> usize
        ensures count { result ≡ min (self.old.end - self.old.start) (length buf.old) }
        ensures input { self.new.input ≡ self.old.input }
        ensures told { held self.old.piece.items self.old.start self.old.end ≡ take result buf.new ++ held self.new.piece.items self.new.start self.new.end }
    {
        let count = (self.end - self.start).min(buf.len());
        buf[..count].copy_from_slice(&self.piece[self.start..self.start + count]);
        self.start += count;
        count
    }
}

impl<I: InputCalls> InputCalls for ReadAhead<I> {
    ghost tells = { I.tells };

    ghost left = { λ r. held r.piece.items r.start r.end ++ I.left r.input };

    fn read(&mut self, buf: &mut [u8]) -> io::Result<usize> {
        if self.passes_on(buf.len()) {
            return self.input.read(buf);
        }
        self.refill()?;
        Ok(self.hand_out(buf))
    }
}

// So many zeros, or none where memory does not suffice.
fn zeros(alloc: Global, size: usize) -> Vec<u8> {
    let Ok(mut piece) = Vec::with_capacity(alloc, size) else {
        return Vec::new(alloc);
    };
    match piece.resize(size, 0) {
        Ok(()) => piece,
        Err(_) => Vec::new(alloc),
    }
}
