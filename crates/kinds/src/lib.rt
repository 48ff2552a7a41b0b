// The kinds of a list: what a kind byte means, in every convention.
#![tactic(auto)]

ghost use Rattle.std.specs.Prelude.{◌≡◌};
ghost use Rattle.kinds.specs.Kinds.{is, kind_of};

// The classes of kinds, by how they are treated.
#[derive(Clone, Copy, PartialEq, Eq)]
pub enum Class {
    Unknown,
    Marker,
    Pointer,
    Signed,
    Unsigned,
    Float,
    Plain,
    Structure,
}

// What a kind byte means: the bytes of its body, its alignment, its class.
#[derive(Clone, Copy, PartialEq, Eq)]
pub struct Kind {
    pub size: usize,
    pub alignment: usize,
    pub class: Class,
}

// What a kind byte means, for every byte.
impl From<u8> for Kind {
    ghost from_gives = { λ byte kind. kind ≡ kind_of byte };

    fn from(byte: u8) -> Kind {
        let (size, alignment, class) = match byte {
            0x01 => (1, 4, Class::Signed),
            0x02 => (1, 4, Class::Unsigned),
            0x03 => (2, 4, Class::Signed),
            0x04 => (2, 4, Class::Unsigned),
            0x05 => (4, 4, Class::Plain),
            0x06 => (8, 8, Class::Plain),
            0x07 => (4, 4, Class::Float),
            0x08 => (8, 8, Class::Float),
            0x0A => (0, 0, Class::Marker),
            0x0B => (4, 4, Class::Pointer),
            0x40..=0x7F => (byte as usize - 0x3F, 4, Class::Structure),
            0x80..=0xBF => (64 + 4 * (byte as usize - 0x7F), 4, Class::Structure),
            0xC0..=0xFF => (8 * (byte as usize - 0xBF), 8, Class::Structure),
            _ => (0, 0, Class::Unknown),
        };
        Kind {
            size,
            alignment,
            class,
        }
    }
}

impl Kind {
    // Whether a kind is of a class.
    pub fn is_class(self, class: Class) -> bool
        ensures { result ≡ is class self }
    {
        self.class == class
    }
}
