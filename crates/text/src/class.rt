// What a byte is.
ghost use Rattle.std.specs.Prelude.{◌≡◌};
ghost use Rattle.text.specs.ClassTests.{digit_class, name_part_class, name_start_class, sequence_length};
ghost use Rattle.text.specs.Classes.{class_of};

use ByteClass::{
    Ascii as As, Continuation as Co, Digit as Di, Lead2 as L2, Lead3 as L3, Lead4 as L4,
    NameStart as Na, Never as No,
};

#[derive(Clone, Copy, PartialEq, Eq, Debug)]
pub enum ByteClass {
    Digit,
    NameStart,
    // any other byte below 80
    Ascii,
    // of a UTF-8 sequence, but not its first byte
    Continuation,
    // the first byte of a sequence of two, three or four
    Lead2,
    Lead3,
    Lead4,
    // in no UTF-8 text
    Never,
}

// By the byte, sixteen to a row. Behind a reference, since a `const` array is built again at each use.
#[rattlefmt::skip]
const CLASSES: &[ByteClass; 256] = &[
    As, As, As, As, As, As, As, As, As, As, As, As, As, As, As, As, // 00
    As, As, As, As, As, As, As, As, As, As, As, As, As, As, As, As, // 10
    As, As, As, As, Na, As, As, As, As, As, As, As, As, As, As, As, // 20
    Di, Di, Di, Di, Di, Di, Di, Di, Di, Di, As, As, As, As, As, As, // 30
    As, Na, Na, Na, Na, Na, Na, Na, Na, Na, Na, Na, Na, Na, Na, Na, // 40
    Na, Na, Na, Na, Na, Na, Na, Na, Na, Na, Na, As, As, As, As, Na, // 50
    As, Na, Na, Na, Na, Na, Na, Na, Na, Na, Na, Na, Na, Na, Na, Na, // 60
    Na, Na, Na, Na, Na, Na, Na, Na, Na, Na, Na, As, As, As, As, As, // 70
    Co, Co, Co, Co, Co, Co, Co, Co, Co, Co, Co, Co, Co, Co, Co, Co, // 80
    Co, Co, Co, Co, Co, Co, Co, Co, Co, Co, Co, Co, Co, Co, Co, Co, // 90
    Co, Co, Co, Co, Co, Co, Co, Co, Co, Co, Co, Co, Co, Co, Co, Co, // A0
    Co, Co, Co, Co, Co, Co, Co, Co, Co, Co, Co, Co, Co, Co, Co, Co, // B0
    No, No, L2, L2, L2, L2, L2, L2, L2, L2, L2, L2, L2, L2, L2, L2, // C0
    L2, L2, L2, L2, L2, L2, L2, L2, L2, L2, L2, L2, L2, L2, L2, L2, // D0
    L3, L3, L3, L3, L3, L3, L3, L3, L3, L3, L3, L3, L3, L3, L3, L3, // E0
    L4, L4, L4, L4, L4, No, No, No, No, No, No, No, No, No, No, No, // F0
];

impl From<u8> for ByteClass {
    ghost from_gives = { λ b c. c ≡ class_of b };

    fn from(byte: u8) -> ByteClass {
        CLASSES[byte as usize]
    }
}

impl ByteClass {
    pub fn is_digit(self) -> bool
        ensures { result ≡ digit_class self }
    {
        matches!(self, ByteClass::Digit)
    }

    pub fn is_name_start(self) -> bool
        ensures { result ≡ name_start_class self }
    {
        matches!(self, ByteClass::NameStart)
    }

    pub fn is_name_part(self) -> bool
        ensures { result ≡ name_part_class self }
    {
        matches!(self, ByteClass::Digit | ByteClass::NameStart)
    }

    // How many bytes the sequence has that such a byte begins, if it begins one.
    pub fn sequence_length(self) -> Option<usize>
        ensures { result ≡ sequence_length self }
    {
        match self {
            ByteClass::Digit | ByteClass::NameStart | ByteClass::Ascii => Some(1),
            ByteClass::Lead2 => Some(2),
            ByteClass::Lead3 => Some(3),
            ByteClass::Lead4 => Some(4),
            ByteClass::Continuation | ByteClass::Never => None,
        }
    }
}
