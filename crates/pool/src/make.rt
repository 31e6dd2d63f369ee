// Texts that are put together out of pieces.
ghost use Rattle.pool.specs.Made.{Left, MadeOf, Valid, all_here, answer, room, told, whole};
ghost use Rattle.pool.specs.Memory.{SameMemory};
ghost use Rattle.pool.specs.Texts.{Holds};
ghost use Rattle.std.specs.List.{AllByRecursion};
ghost use Rattle.std.specs.Prelude.{◌≡◌, ℕ, ◌&&◌, List};

use crate::making::Making;
use crate::memory::Pool;
use crate::piece::Piece;
use table::{Cause, TextId};

impl Pool<'_> {
    // Makes one text of the pieces, behind the others: none where a piece is missing, which is asked first.
    pub fn make_text(&mut self, pieces: &[Option<Piece>]) -> Result<Option<TextId>, Cause>
        ensures lent { SameMemory self.old self.new }
        ensures answer { told result ≡ answer (all_here self.old.mark.now self.old.rows.now self.old.bytes.now pieces.now) (room self.old.mark.now self.old.rows.now self.old.bytes.now pieces.now) self.old.mark.now.rows }
        ensures left { Left (all_here self.old.mark.now self.old.rows.now self.old.bytes.now pieces.now && room self.old.mark.now self.old.rows.now self.old.bytes.now pieces.now) self.old.mark.now self.old.rows.now self.old.bytes.now (whole self.old.mark.now self.old.rows.now self.old.bytes.now pieces.now) self.new.mark.now self.new.rows.now self.new.bytes.now }
        ensures held { (ts : List (List ℕ)) → Holds self.old.mark.now self.old.rows.now self.old.bytes.now ts → AllByRecursion Valid pieces.now → MadeOf ts self.old.rows.now self.old.bytes.now pieces.now result self.new.mark.now self.new.rows.now self.new.bytes.now }
    {
        let mut making = Making::begin(self.mark);
        making.assemble(self.bytes, self.rows, pieces)
    }
}
