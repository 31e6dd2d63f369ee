ghost use Rattle.std.specs.Prelude.{◌≡◌, ◌≤◌, length};

use arrayvec::ArrayString;

// No text of a number is longer.
pub(crate) const LONGEST: usize = 32;

// The text of a number.
pub type NumberText = ArrayString<LONGEST>;

// A text by value, where it is short enough.
pub(crate) fn owned(text: &str) -> NumberText
    requires { length text.now ≤ 32 }
    ensures { result.bytes ≡ text.now }
{
    let mut owned = NumberText::new();
    owned.push_str(text);
    owned
}
