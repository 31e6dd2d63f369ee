ghost use Rattle.std.specs.Prelude.{◌≡◌, ℕ, ◌≤◌, false, ◌&&◌, List, is_some, if◌then◌else◌};
ghost use Rattle.pool.specs.Made.{Left, all_here, answer, room, told, whole};
ghost use Rattle.pool.specs.Makings.{OnlyBytes};
ghost use Rattle.pool.specs.Pieces.{Gathered, Pushed, piece_bytes, present, row_of, text_of};
ghost use Rattle.pool.specs.Texts.{bytes_room};

use super::{Making, capacity};
use crate::piece::Piece;
use crate::row::TextRow;
use crate::texts::text_row;
use table::{Cause, TextId};

impl Making<'_> {
    // The row of a text, if it lies below the text that is made.
    fn row(&self, rows: &[TextRow], id: TextId) -> Option<TextRow>
        ensures { result ≡ row_of self.now.mark.now.rows self.now.start rows.now id.number }
    {
        let row = text_row(self.mark, rows, id)?;
        // not a filter, whose closure the proof would have to unfold
        (row.end() <= self.start as usize).then_some(row)
    }

    // Adds a text of the pool; nothing is done where there is none, or where it does not fit. (An Option as `push_part`'s.)
    #[tactic(auto, using(crate::proofs::Pushes::below_inside, crate::proofs::Pushes::part_pushed))]
    fn push_text(&mut self, pool: &mut [u8], rows: &[TextRow], id: TextId) -> Option<()>
        requires { self.old.start ≤ self.old.mark.now.bytes }
        ensures unchanged { OnlyBytes self.old self.new }
        ensures pushed { Pushed (text_of pool.old (row_of self.old.mark.now.rows self.old.start rows.now id.number)) self.old.mark.now.bytes pool.old result self.new.mark.now.bytes pool.new }
    {
        let row = self.row(rows, id)?;
        self.push_part(pool, row)
    }

    // Adds a piece; nothing is done where it is missing, or does not fit.
    fn push_piece(&mut self, pool: &mut [u8], rows: &[TextRow], piece: Option<Piece>) -> Option<()>
        requires { self.old.start ≤ self.old.mark.now.bytes }
        ensures unchanged { OnlyBytes self.old self.new }
        ensures pushed { Pushed (piece_bytes self.old.mark.now.rows self.old.start rows.now pool.old piece.entry) self.old.mark.now.bytes pool.old result self.new.mark.now.bytes pool.new }
    {
        match piece? {
            Piece::Text(id) => self.push_text(pool, rows, id),
            Piece::Bytes(bytes) => self.push(pool, bytes),
        }
    }

    fn has(&self, rows: &[TextRow], piece: Option<Piece>) -> bool
        ensures { (pool : List ℕ) → result ≡ is_some (piece_bytes self.now.mark.now.rows self.now.start rows.now pool piece.entry) }
    {
        match piece {
            Some(Piece::Text(id)) => self.row(rows, id).is_some(),
            Some(Piece::Bytes(_)) => true,
            None => false,
        }
    }

    // Whether every piece is there, be there room for them or not.
    pub fn has_all(&self, rows: &[TextRow], pieces: &[Option<Piece>]) -> bool
        ensures { (pool : List ℕ) → result ≡ present self.now.mark.now.rows self.now.start rows.now pool pieces.now }
    {
        pieces.iter().all(|piece| self.has(rows, *piece))
    }

    // Adds all pieces, up to the first that is missing or does not fit. That nothing is pushed yet is asked here and in
    // `assemble` alone.
    #[tactic(auto, using(crate::proofs::Gathering::none_yet, crate::proofs::Gathering::finished, crate::proofs::Gathering::only_bytes_trans))]
    fn push_all(
        &mut self,
        pool: &mut [u8],
        rows: &[TextRow],
        pieces: &[Option<Piece>],
    ) -> Option<()>
        requires { (self.old.start ≡ self.old.mark.now.bytes) × (self.old.start ≤ bytes_room pool.old) }
        ensures unchanged { OnlyBytes self.old self.new }
        ensures gathered { Gathered self.old.mark.now.rows self.old.start rows.now pool.old pieces.now result self.new.mark.now.bytes pool.new }
    {
        for piece in pieces {
            self.push_piece(pool, rows, *piece)?;
        }
        Some(())
    }

    // Puts all pieces together and keeps the text. A missing piece is asked for first.
    pub(crate) fn assemble(
        &mut self,
        pool: &mut [u8],
        rows: &mut [TextRow],
        pieces: &[Option<Piece>],
    ) -> Result<Option<TextId>, Cause>
        requires { (self.old.start ≡ self.old.mark.now.bytes) × (self.old.kept ≡ false) }
        ensures lent { self.new.mark.ghost_name ≡ self.old.mark.ghost_name }
        ensures start { self.new.start ≡ self.old.start }
        ensures answer { told result ≡ answer (all_here self.old.mark.now rows.old pool.old pieces.now) (room self.old.mark.now rows.old pool.old pieces.now) self.old.mark.now.rows }
        ensures kept { self.new.kept ≡ (all_here self.old.mark.now rows.old pool.old pieces.now && room self.old.mark.now rows.old pool.old pieces.now) }
        ensures left { Left self.new.kept self.old.mark.now rows.old pool.old (whole self.old.mark.now rows.old pool.old pieces.now) (record { bytes = (if self.new.kept then self.new.mark.now.bytes else self.new.start); rows = self.new.mark.now.rows }) rows.new pool.new }
    {
        if !self.has_all(rows, pieces) {
            return Ok(None);
        }
        if self.start as usize > capacity(pool) || self.push_all(pool, rows, pieces).is_none() {
            return Err(Cause::TextDoesNotFit);
        }
        self.keep(rows).map(Some).ok_or(Cause::TextDoesNotFit)
    }
}
