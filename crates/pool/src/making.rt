ghost use Rattle.std.specs.Prelude.{◌≡◌, ◌+◌, ◌-◌, ◌≤◌, false, ◌&&◌, ◌||◌, length, take, drop, set, is_some, if◌then◌else◌, Some, None, nat_le, nat_lt};
ghost use Rattle.pool.specs.Texts.{bytes_room, rows_room};
ghost use Rattle.std.specs.Option.{option_map};
ghost use Rattle.std.proofs.Math.Seq.{paste};

use crate::mark::Mark;
use crate::row::TextRow;
use table::{Id, IdKind, TextId, write};

mod pieces;

// The kind of a place in the pool's bytes.
struct Places;

impl IdKind for Places {
    ghost LIMIT = { 65536 };

    const LIMIT: u32 = 65536;
}

// How many bytes of the pool may be used.
pub fn capacity(pool: &[u8]) -> usize
    ensures { result ≡ bytes_room pool.now }
{
    table::capacity::<Places, u8>(pool)
}

fn overwrite(pool: &mut [u8], at: usize, piece: &[u8])
    requires { at + length piece.now ≤ length pool.old }
    ensures { pool.new ≡ paste pool.old at piece.now (length piece.now) }
{
    pool[at..at + piece.len()].copy_from_slice(piece);
}

// Writes a part of the pool again further on.
fn repeat(pool: &mut [u8], from: usize, len: usize, at: usize)
    requires { (from + len ≤ at) × (at + len ≤ length pool.old) }
    ensures { pool.new ≡ paste pool.old at (take len (drop from pool.old)) len }
{
    let (below, above) = pool.split_at_mut(at);
    above[..len].copy_from_slice(&below[from..from + len]);
}

// A text that is being put together at the end of the used bytes. The mark rises with its bytes, and
// goes back when this is dropped, unless the finished text was kept.
// Bytes and rows are passed beside it, since it guards the mark alone: what lies past the mark need not be restored.
// That the text begins at or before the mark is no invariant: the borrow checker does not cover a function that has such a
// value with an invariant as a parameter and moves it in a branch.
pub struct Making<'m> {
    mark: &'m mut Mark,
    start: u32,
    // Not an Option of the start: push_part and keep read the start also after a text is kept.
    kept: bool,
}

impl Drop for Making<'_> {
    fn drop(self)
        ensures bytes { self.exit.0.now.bytes ≡ (if self.entry.kept then self.entry.mark.now.bytes else self.entry.start) }
        ensures rows { self.exit.0.now.rows ≡ self.entry.mark.now.rows }
    {
        let Making { mark, start, kept } = self;
        if !kept {
            mark.bytes = start;
        }
    }
}

impl<'m> Making<'m> {
    ghost use Rattle.pool.specs.Makings.{OnlyBytes};

    pub fn begin(mark: &'m mut Mark) -> Self
        ensures lent { result.mark.ghost_name ≡ mark.entry.ghost_name }
        ensures mark { result.mark.now ≡ mark.old }
        ensures start { result.start ≡ mark.old.bytes }
        ensures kept { result.kept ≡ false }
    {
        let start = mark.bytes;
        Making {
            mark,
            start,
            kept: false,
        }
    }

    // Adds bytes; nothing is done where they do not fit. Here and in the methods like it an Option and no Result: none of
    // the refusals' causes says that a part is not below the text, or that a piece is missing.
    pub fn push(&mut self, pool: &mut [u8], piece: &[u8]) -> Option<()>
        ensures unchanged { OnlyBytes self.old self.new }
        ensures test { is_some result ≡ nat_le (self.old.mark.now.bytes + length piece.now) (bytes_room pool.old) }
        ensures bytes { self.new.mark.now.bytes ≡ (if is_some result then self.old.mark.now.bytes + length piece.now else self.old.mark.now.bytes) }
        ensures pool { pool.new ≡ (if is_some result then paste pool.old self.old.mark.now.bytes piece.now (length piece.now) else pool.old) }
    {
        let used = self.mark.bytes as usize;
        let room = capacity(pool);
        if used + piece.len() > room {
            return None;
        }
        overwrite(pool, used, piece);
        self.mark.bytes = (used + piece.len()) as u32;
        Some(())
    }

    // Adds a part of the pool; nothing is done where it is not below the text that is made, or does
    // not fit.
    pub fn push_part(&mut self, pool: &mut [u8], part: TextRow) -> Option<()>
        ensures unchanged { OnlyBytes self.old self.new }
        ensures test { is_some result ≡ (nat_le (part.start + part.len) self.old.start && (nat_le self.old.start self.old.mark.now.bytes && nat_le (self.old.mark.now.bytes + part.len) (bytes_room pool.old))) }
        ensures bytes { self.new.mark.now.bytes ≡ (if is_some result then self.old.mark.now.bytes + part.len else self.old.mark.now.bytes) }
        ensures pool { pool.new ≡ (if is_some result then paste pool.old self.old.mark.now.bytes (take part.len (drop part.start pool.old)) part.len else pool.old) }
    {
        let used = self.mark.bytes as usize;
        let len = part.len as usize;
        let room = capacity(pool);
        let start = self.start as usize;
        if part.end() > start || start > used || used + len > room {
            return None;
        }
        repeat(pool, part.start as usize, len, used);
        self.mark.bytes = (used + len) as u32;
        Some(())
    }

    // The text that was put together, kept with a row of its own; nothing is done where no row is free.
    pub fn keep(&mut self, rows: &mut [TextRow]) -> Option<TextId>
        ensures lent { self.new.mark.ghost_name ≡ self.old.mark.ghost_name }
        ensures start { self.new.start ≡ self.old.start }
        ensures kept { self.new.kept ≡ (is_some result || self.old.kept) }
        ensures bytes { self.new.mark.now.bytes ≡ self.old.mark.now.bytes }
        ensures value { option_map (λ i. i.number) result ≡ (if nat_lt self.old.mark.now.rows (rows_room rows.old) then Some self.old.mark.now.rows else None) }
        ensures count { self.new.mark.now.rows ≡ (if is_some result then self.old.mark.now.rows + 1 else self.old.mark.now.rows) }
        ensures rows { rows.new ≡ (if is_some result then set rows.old self.old.mark.now.rows (record { start = self.old.start; len = self.old.mark.now.bytes - self.old.start }) else rows.old) }
    {
        let id = Id::new(self.mark.rows);
        let row = TextRow {
            start: self.start,
            len: self.mark.bytes.saturating_sub(self.start),
        };
        if !write(rows, id, row) {
            return None;
        }
        self.mark.rows += 1;
        self.kept = true;
        Some(id)
    }
}
