//! The words of a width, as vectors need them.
ghost use Rattle.std.specs.Prelude.{◌≡◌, ◌-◌, ◌^◌};
ghost use Rattle.am_base.specs.Word.{bits_of};

use am_base::Width;

/// A width, with the number of its bits, its greatest word and the word of its least signed value.
#[derive(Drop)]
pub(crate) struct Words {
    pub(crate) width: Width,
    pub(crate) bits: u64,
    pub(crate) greatest: u64,
    pub(crate) half: u64,
    ghost bits_are: { bits ≡ bits_of width },
    ghost greatest_is: { greatest ≡ 2 ^ bits_of width - 1 },
    ghost half_is: { half ≡ 2 ^ (bits_of width - 1) },
}

impl Words {
    pub(crate) fn new(width: Width) -> Words
        ensures { result.width ≡ width }
    {
        let (bits, greatest, half) = match width {
            Width::W1 => (1, 1, 1),
            Width::W8 => (8, 0xff, 0x80),
            Width::W16 => (16, 0xffff, 0x8000),
            Width::W32 => (32, 0xffff_ffff, 0x8000_0000),
            Width::W64 => (64, u64::MAX, 0x8000_0000_0000_0000),
        };
        Words {
            width,
            bits,
            greatest,
            half,
        }
    }
}
