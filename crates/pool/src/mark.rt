ghost use Rattle.std.specs.Prelude.{ℕ, List, []};
ghost use Rattle.pool.specs.Texts.{Holds};
ghost use Rattle.pool.specs.declared.row.TextRow.{TextRow};

// How much of a pool is used: its bytes, and its rows. Numbers, since the memory is lent for each call anew.
#[derive(Clone, Copy, PartialEq, Eq, Debug)]
pub struct Mark {
    pub bytes: u32,
    pub rows: u32,
}

impl Mark {
    // That of a pool without texts, whatever the memory has.
    pub fn empty() -> Mark
        ensures { (rows : List TextRow) (pool : List ℕ) → Holds result rows pool [] }
    {
        Mark { bytes: 0, rows: 0 }
    }
}
