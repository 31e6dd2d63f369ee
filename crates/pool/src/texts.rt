// Texts by their numbers.
ghost use Rattle.pool.specs.Adding.{Added};
ghost use Rattle.pool.specs.Memory.{SameMemory};
ghost use Rattle.pool.specs.Texts.{Holds, bytes_room, rows_room, text_at};
ghost use Rattle.std.specs.Prelude.{◌≡◌, ℕ, ◌+◌, true, false, ◌&&◌, nat_lt, nat_le, List, [], ◌∷◌, ◌++◌, length, set, is_some, is_ok, if◌then◌else◌, Some, None};
ghost use Rattle.std.specs.Option.{option_map};
ghost use Rattle.std.proofs.Math.Seq.{paste};
ghost use Rattle.std.specs.List.{slice_get};
ghost use Rattle.table.specs.Tables.{entry};

use crate::making::Making;
use crate::mark::Mark;
use crate::memory::Pool;
use crate::row::TextRow;
use table::{Cause, Layer, Refusal, Site, TextId, Texts, capacity, read};
use text::is_utf8;

// The row of a text, if the number names one. No methods of Pool, which cannot be made of
// shared slices; and a struct of those would serve `text_bytes` alone, as `Making` asks for rows and holds no bytes.
pub fn text_row(mark: &Mark, rows: &[TextRow], id: TextId) -> Option<TextRow>
    ensures { result ≡ (if nat_lt id.number mark.now.rows then entry 4096 rows.now id.number else None) }
{
    if id.number() < mark.rows {
        read(rows, id)
    } else {
        None
    }
}

// The part of the pool that a row names, if it lies in the pool.
fn part(pool: &[u8], row: TextRow) -> Option<&[u8]>
    ensures { option_map (λ t. t.now) result ≡ (if nat_le (row.start + row.len) (length pool.now) then Some (text_at pool.now row) else None) }
{
    pool.get(row.start as usize..row.end())
}

// The bytes of a text, if the number names one.
#[tactic(auto, using(crate::proofs::Held::no_row, crate::proofs::Held::row_in_pool, crate::proofs::Held::row_text))]
pub fn text_bytes<'p>(mark: &Mark, pool: &'p [u8], rows: &[TextRow], id: TextId) -> Option<&'p [u8]>
    ensures { (ts : List (List ℕ)) → Holds mark.now rows.now pool.now ts → option_map (λ t. t.now) result ≡ slice_get ts id.number }
{
    let row = text_row(mark, rows, id)?;
    part(pool, row)
}

fn refused(cause: Cause, number: u32) -> Refusal
    ensures { result ≡ record { cause = cause; layer = Layer.Text; site = Site.Text number } }
{
    Refusal {
        cause,
        layer: Layer::Text,
        site: Site::Text(number),
    }
}

impl Pool<'_> {
    // Whether no row is free.
    fn is_full(&self) -> bool
        ensures { result ≡ nat_le (rows_room self.now.rows.now) self.now.mark.now.rows }
    {
        self.mark.rows as usize >= capacity::<Texts, TextRow>(self.rows)
    }

    // Puts a text behind the others, if there is room for it. Without room the bytes past the mark may
    // have changed, and nothing else.
    fn append(&mut self, text: &[u8]) -> Option<TextId>
        ensures lent { SameMemory self.old self.new }
        ensures test { is_some result ≡ (nat_le (self.old.mark.now.bytes + length text.now) (bytes_room self.old.bytes.now) && nat_lt self.old.mark.now.rows (rows_room self.old.rows.now)) }
        ensures value { option_map (λ i. i.number) result ≡ (if is_some result then Some self.old.mark.now.rows else None) }
        ensures bytes { self.new.mark.now.bytes ≡ (if is_some result then self.old.mark.now.bytes + length text.now else self.old.mark.now.bytes) }
        ensures count { self.new.mark.now.rows ≡ (if is_some result then self.old.mark.now.rows + 1 else self.old.mark.now.rows) }
        ensures rows { self.new.rows.now ≡ (if is_some result then set self.old.rows.now self.old.mark.now.rows (record { start = self.old.mark.now.bytes; len = length text.now }) else self.old.rows.now) }
        ensures pool { self.new.bytes.now ≡ (if nat_le (self.old.mark.now.bytes + length text.now) (bytes_room self.old.bytes.now) then paste self.old.bytes.now self.old.mark.now.bytes text.now (length text.now) else self.old.bytes.now) }
    {
        let mut making = Making::begin(self.mark);
        making.push(self.bytes, text)?;
        making.keep(self.rows)
    }

    // Adds a text behind the others.
    pub fn add_text(&mut self, text: &[u8]) -> Result<TextId, Refusal>
        ensures lent { SameMemory self.old self.new }
        ensures answer { Added self.old.mark.now.rows (rows_room self.old.rows.now) self.old.mark.now.bytes (bytes_room self.old.bytes.now) text.now result }
        ensures unchanged { is_ok result ≡ false → (self.new.mark.now ≡ self.old.mark.now) × (self.new.rows.now ≡ self.old.rows.now) × (self.new.bytes.now ≡ self.old.bytes.now) }
        ensures held { (ts : List (List ℕ)) → Holds self.old.mark.now self.old.rows.now self.old.bytes.now ts → is_ok result ≡ true → Holds self.new.mark.now self.new.rows.now self.new.bytes.now (ts ++ text.now ∷ []) }
    {
        let number = self.mark.rows;
        if self.is_full() {
            return Err(refused(Cause::TableFull, number));
        }
        if !is_utf8(text) {
            return Err(refused(Cause::NotUtf8, number));
        }
        self.append(text)
            .ok_or(refused(Cause::TextDoesNotFit, number))
    }
}
