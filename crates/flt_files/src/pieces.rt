//! Bytes in pieces, each of which is freed once it is read through.

ghost use Rattle.std.specs.Prelude.{◌≡◌, ◌<◌, false, IsTrue, [], ◌++◌, length, IfSome, IfNone, OnOk, OnErr};

use flt_model::{ReadFault, Source};
use std::alloc::{AllocError, Global};
use std::collections::VecDeque;
use std::marker::Model;

/// Bytes in pieces, in order. An empty piece is none.
#[derive(Drop)]
pub struct Pieces {
    pieces: VecDeque<Vec<u8>>,
}

impl Model for Pieces {
    ghost use Rattle.std.specs.Prelude.{ℕ, List};
    ghost use Rattle.std.specs.List.{flat_map};

    ghost Value = { List ℕ };

    ghost view = { λ p. flat_map (λ piece. piece.items) p.pieces.items };
}

impl Pieces {
    /// No bytes.
    pub fn new(alloc: Global) -> Pieces
        ensures { result ≡ [] }
    {
        Pieces {
            pieces: VecDeque::new(alloc),
        }
    }

    /// Adds a piece after all others.
    pub fn push(&mut self, piece: Vec<u8>) -> Result<(), AllocError>
        ensures ok { OnOk result (self.new ≡ self.old ++ piece.items) }
        ensures err { OnErr result (self.new ≡ self.old) }
    {
        self.pieces.push_back(piece)?;
        Ok(())
    }

    /// Takes out the first piece that has bytes; none if no piece has any.
    pub fn pop(&mut self) -> Option<Vec<u8>>
        ensures first { IfSome result (λ piece. self.old ≡ piece.items ++ self.new) }
        ensures bytes { IfSome result (λ piece. 0 < length piece.items) }
        ensures none { IfNone result ((self.old ≡ []) × (self.new ≡ [])) }
    {
        while let Some(piece) = self.pieces.pop_front() {
            if !piece.is_empty() {
                return Some(piece);
            }
        }
        None
    }
}

/// Reads pieces in order, and frees each once it is read through. No read fails.
#[derive(Drop)]
pub struct PieceReader {
    /// The piece that is read.
    piece: Vec<u8>,
    /// The number of its bytes that were read.
    at: usize,
    /// The pieces after it.
    others: Pieces,
}

impl Model for PieceReader {
    ghost use Rattle.std.specs.Prelude.{ℕ, List, drop, length, ◌≤◌};

    // What is left of the piece, and what stands behind it.
    ghost Value = { List ℕ × List ℕ };

    ghost view = { λ r. (drop r.at r.piece.items, r.others) };

    ghost invariant = { λ r. r.at ≤ length r.piece.items };
}

impl PieceReader {
    /// A reader of these pieces.
    pub fn new(alloc: Global, pieces: Pieces) -> PieceReader
        ensures { result.0 ++ result.1 ≡ pieces }
    {
        PieceReader {
            piece: Vec::new(alloc),
            at: 0,
            others: pieces,
        }
    }

    /// Continues with the next piece, and frees the one before. Returns whether there is one.
    #[cold]
    #[inline(never)]
    fn go_on(&mut self) -> bool
        requires { self.old.0 ≡ [] }
        ensures coming { self.new.0 ++ self.new.1 ≡ self.old.1 }
        ensures some { IsTrue result → 0 < length self.new.0 }
        ensures none { result ≡ false → self.old.1 ≡ [] }
    {
        match self.others.pop() {
            Some(piece) => {
                self.piece = piece;
                self.at = 0;
                true
            }
            None => false,
        }
    }

    /// Whether a byte is left, which is then at hand.
    #[inline(always)]
    fn has_byte(&mut self) -> bool
        ensures coming { self.new.0 ++ self.new.1 ≡ self.old.0 ++ self.old.1 }
        ensures some { IsTrue result → 0 < length self.new.0 }
        ensures none { result ≡ false → self.old.0 ++ self.old.1 ≡ [] }
    {
        if self.at < self.piece.len() {
            return true;
        }
        self.go_on()
    }
}

impl Source for PieceReader {
    ghost use Rattle.std.specs.Prelude.{◌++◌};

    ghost coming = { λ s. s.0 ++ s.1 };

    ghost at_hand = { λ s. s.0 };

    ghost failures = { λ _. 0 };

    ghost reads = { λ _. 0 };

    fn next(&mut self) -> Result<Option<u8>, ReadFault> {
        if !self.has_byte() {
            return Ok(None);
        }
        let byte = self.piece[self.at];
        self.at += 1;
        Ok(Some(byte))
    }

    fn ready(&self) -> &[u8] {
        &self.piece[self.at..]
    }

    fn pass(&mut self, count: usize) {
        self.at += count;
    }
}
