// A text's length in UTF-16 code units.
ghost use Rattle.std.specs.Prelude.{◌≡◌, ◌≤◌, IsUtf8};
ghost use Rattle.std.specs.Str.{chars};
ghost use Rattle.text.specs.Units.{JoinAdds, units, units_of_byte, units_of_chars};

fn units_of_byte(byte: u8) -> usize
    ensures value { result ≡ units_of_byte byte }
    ensures small { result ≤ 2 }
{
    match byte {
        0x00..=0x7F => 1,
        // of a sequence, but not its first byte
        0x80..=0xBF => 0,
        // The first byte of a sequence of two or three, or of four. C0, C1 and F5 to FF, which begin none, count as these.
        0xC0..=0xEF => 1,
        0xF0..=0xFF => 2,
    }
}

pub fn utf16_length(bytes: &[u8]) -> usize
    ensures units { result ≡ units bytes.now }
    ensures chars { IsUtf8 bytes.now → result ≡ units_of_chars (chars bytes.now) }
{
    bytes.iter().map(|byte| units_of_byte(*byte)).sum()
}

// Its contract is the law that the length of a join is the sum.
#[tactic(auto, using(crate::proofs::Counts::join_adds))]
pub fn join_adds()
    ensures { JoinAdds }
{}
