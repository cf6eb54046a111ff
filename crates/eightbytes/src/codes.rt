// Classes as numbers, for whoever has them so: each one's code is its place in the enum, and a number that is no code counts as Memory
// (docs/REFERENCE.md, 8). What is known of one class, by its code; and eight classes, from which slots are written, as they are or as codes.
ghost use Rattle.std.specs.Prelude.{◌≡◌, List, map};
ghost use Rattle.eightbytes.specs.declared.Class.{Class};
ghost use Rattle.eightbytes.specs.Class.{class_of, kept, later as later·, mended as mended·};

use crate::Class;

pub const SSE: u8 = 2;

pub const SSE_UP: u8 = 3;

#[tactic(auto, unfolding(crate::specs::Class::class_of))]
impl From<u8> for Class {
    ghost from_gives = { λ number class. class ≡ class_of number };

    fn from(code: u8) -> Class {
        match code {
            0 => Class::None,
            1 => Class::Integer,
            SSE => Class::Sse,
            SSE_UP => Class::SseUp,
            4 => Class::X87,
            _ => Class::Memory,
        }
    }
}

// The code of the class of a piece's next eightbyte; a number that is no code is answered as it is.
#[tactic(auto, using(crate::proofs::ByCode::later_sse, crate::proofs::ByCode::later_other))]
pub fn later(class: u8) -> u8
    ensures { result ≡ kept class (later· (class_of class)) }
{
    if class == SSE {
        return SSE_UP;
    }
    class
}

// The code of a class by the rule after the merge, likewise.
#[tactic(auto, using(crate::proofs::ByCode::mended_alone, crate::proofs::ByCode::mended_other))]
pub fn mended(below: u8, class: u8) -> u8
    ensures { result ≡ kept class (mended· (class_of below) (class_of class)) }
{
    if (class == SSE_UP) & !((below == SSE) | (below == SSE_UP)) {
        return SSE;
    }
    class
}

// Eight classes, one for each eightbyte that a shape may have.
pub trait Eight: Copy {
    ghost eight: { Self → List Class };

    fn classes(self) -> [Class; 8]
        ensures { result ≡ eight self };
}

impl Eight for [Class; 8] {
    ghost eight = { λ classes. classes };

    fn classes(self) -> [Class; 8]
        ensures { result ≡ self }
    {
        self
    }
}

impl Eight for [u8; 8] {
    ghost eight = { map class_of };

    #[tactic(auto, using(crate::proofs::ByCode::eight_codes))]
    fn classes(self) -> [Class; 8]
        ensures { result ≡ map class_of self }
    {
        let [a, b, c, d, e, f, g, h] = self;
        [
            a.into(),
            b.into(),
            c.into(),
            d.into(),
            e.into(),
            f.into(),
            g.into(),
            h.into(),
        ]
    }
}
