// A word and its operations.
ghost use Rattle.std.specs.Prelude.{◌≡◌, ◌+◌, ◌-◌, ◌^◌, ◌≤◌, ◌<◌, ◌↔◌, IsSome, IfSome, IsTrue, nat_lt, nat_le, nat_eq, int_lt, int_le};
ghost use Rattle.civl_bits.specs.Word.{IsWord, sum_at, difference_at, product_at, negative_at, quotient_at, remainder_at, bitwise_and_at, bitwise_or_at, bitwise_xor_at, complement_at, left_shift_at, right_shift_at, arithmetic_right_shift_at, signed_at, slice_of, concatenation_at};

use std::marker::Model;

/// A word: its width, 1 to 32 bits, and its value, below 2 to the width.
///
/// Contracts see it as the pair of the two. The operations are those of SMT-LIB's FixedSizeBitVectors.
#[derive(Clone, Copy, Debug, PartialEq, Eq, Hash)]
pub struct Word {
    width: u32,
    value: u32,
}

impl Model for Word {
    ghost use Rattle.std.specs.Prelude.{ℕ};
    ghost use Rattle.civl_bits.specs.Word.{IsWord};

    ghost Value = { ℕ × ℕ };

    ghost view = { λ w. (w.width, w.value) };

    ghost invariant = { λ w. IsWord w.width w.value };

    ghost inverse = { λ d. record { width = d.0; value = d.1 } };
}

impl Word {
    /// The word of this width and value; `None` where the width isn't 1 to 32 or the value doesn't fit.
    pub fn new(width: u32, value: u32) -> Option<Word>
        ensures exact { IsSome result ↔ IsWord width value }
        ensures word { IfSome result (λ a. a ≡ (width, value)) }
    {
        if width == 0 || width > 32 || u64::from(value) >= 1 << width {
            return None;
        }
        Some(Word { width, value })
    }

    /// The word of a width from 1 to 32 and a value that is known to fit.
    pub fn of(width: u32, value: u32) -> Word
        requires { IsWord width value }
        ensures { result ≡ (width, value) }
    {
        Word { width, value }
    }

    /// The number of bits, 1 to 32.
    pub fn width(self) -> u32
        ensures is { result ≡ self.0 }
        ensures word { IsWord self.0 self.1 }
    {
        self.width
    }

    /// The number that the bits are, below 2 to the width.
    pub fn value(self) -> u32
        ensures is { result ≡ self.1 }
        ensures word { IsWord self.0 self.1 }
    {
        self.value
    }

    /// The sum modulo 2 to the width, of two words of one width (bvadd).
    pub fn add(self, other: Word) -> Word
        requires { self.0 ≡ other.0 }
        ensures { result ≡ (self.0, sum_at self.0 self.1 other.1) }
    {
        let sum = (u64::from(self.value) + u64::from(other.value)) % (1 << self.width);
        Word {
            width: self.width,
            value: sum as u32,
        }
    }

    /// The difference modulo 2 to the width, of two words of one width (bvsub).
    pub fn sub(self, other: Word) -> Word
        requires { self.0 ≡ other.0 }
        ensures { result ≡ (self.0, difference_at self.0 self.1 other.1) }
    {
        let range = 1u64 << self.width;
        let difference = (u64::from(self.value) + (range - u64::from(other.value))) % range;
        Word {
            width: self.width,
            value: difference as u32,
        }
    }

    /// The product modulo 2 to the width, of two words of one width (bvmul).
    pub fn mul(self, other: Word) -> Word
        requires { self.0 ≡ other.0 }
        ensures { result ≡ (self.0, product_at self.0 self.1 other.1) }
    {
        let product = u64::from(self.value) * u64::from(other.value) % (1 << self.width);
        Word {
            width: self.width,
            value: product as u32,
        }
    }

    /// The negative modulo 2 to the width (bvneg).
    pub fn neg(self) -> Word
        ensures { result ≡ (self.0, negative_at self.0 self.1) }
    {
        let range = 1u64 << self.width;
        let negative = (range - u64::from(self.value)) % range;
        Word {
            width: self.width,
            value: negative as u32,
        }
    }

    /// Each bit turned (bvnot).
    pub fn not(self) -> Word
        ensures { result ≡ (self.0, complement_at self.0 self.1) }
    {
        let complement = (1u64 << self.width) - 1 - u64::from(self.value);
        Word {
            width: self.width,
            value: complement as u32,
        }
    }

    /// A bit is 1 where it is in both words, which have one width (bvand).
    pub fn and(self, other: Word) -> Word
        requires { self.0 ≡ other.0 }
        ensures { result ≡ (self.0, bitwise_and_at self.0 self.1 other.1) }
    {
        Word {
            width: self.width,
            value: self.value & other.value,
        }
    }

    /// A bit is 1 where it is in one of the words or both; they have one width (bvor).
    pub fn or(self, other: Word) -> Word
        requires { self.0 ≡ other.0 }
        ensures { result ≡ (self.0, bitwise_or_at self.0 self.1 other.1) }
    {
        Word {
            width: self.width,
            value: self.value | other.value,
        }
    }

    /// A bit is 1 where it is in exactly one of the words, which have one width (bvxor).
    pub fn xor(self, other: Word) -> Word
        requires { self.0 ≡ other.0 }
        ensures { result ≡ (self.0, bitwise_xor_at self.0 self.1 other.1) }
    {
        Word {
            width: self.width,
            value: self.value ^ other.value,
        }
    }

    /// The bits moved up by a word of the same width, with zeros below; 0 from the width on (bvshl).
    pub fn shl(self, other: Word) -> Word
        requires { self.0 ≡ other.0 }
        ensures { result ≡ (self.0, left_shift_at self.0 self.1 other.1) }
    {
        let amount = other.value.min(self.width);
        let value = (u64::from(self.value) << amount) % (1 << self.width);
        Word {
            width: self.width,
            value: value as u32,
        }
    }

    /// The bits moved down by a word of the same width, with zeros above; 0 from the width on (bvlshr).
    pub fn shr(self, other: Word) -> Word
        requires { self.0 ≡ other.0 }
        ensures { result ≡ (self.0, right_shift_at self.0 self.1 other.1) }
    {
        let value = u64::from(self.value) >> other.value.min(self.width);
        Word {
            width: self.width,
            value: value as u32,
        }
    }

    /// The bits moved down by a word of the same width, with copies of the top bit above; the top bit
    /// everywhere from the width on (bvashr).
    pub fn sar(self, other: Word) -> Word
        requires { self.0 ≡ other.0 }
        ensures { result ≡ (self.0, arithmetic_right_shift_at self.0 self.1 other.1) }
    {
        if self.is_top_clear() {
            self.shr(other)
        } else {
            self.not().shr(other).not()
        }
    }

    /// The quotient of two words of one width, rounded down; all ones by 0 (bvudiv).
    pub fn udiv(self, other: Word) -> Word
        requires { self.0 ≡ other.0 }
        ensures { result ≡ (self.0, quotient_at self.0 self.1 other.1) }
    {
        if other.value == 0 {
            let ones = (1u64 << self.width) - 1;
            return Word {
                width: self.width,
                value: ones as u32,
            };
        }
        Word {
            width: self.width,
            value: self.value / other.value,
        }
    }

    /// The remainder of two words of one width; the first word by 0 (bvurem).
    pub fn urem(self, other: Word) -> Word
        requires { self.0 ≡ other.0 }
        ensures { result ≡ (self.0, remainder_at self.0 self.1 other.1) }
    {
        if other.value == 0 {
            return self;
        }
        Word {
            width: self.width,
            value: self.value % other.value,
        }
    }

    /// Whether the first of two words of one width is less (bvult).
    pub fn ult(self, other: Word) -> bool
        requires { self.0 ≡ other.0 }
        ensures { result ≡ nat_lt self.1 other.1 }
    {
        self.value < other.value
    }

    /// Whether the first of two words of one width is less or the same (bvule).
    pub fn ule(self, other: Word) -> bool
        requires { self.0 ≡ other.0 }
        ensures { result ≡ nat_le self.1 other.1 }
    {
        self.value <= other.value
    }

    /// Whether the first of two words of one width is less by two's complement (bvslt).
    pub fn slt(self, other: Word) -> bool
        requires { self.0 ≡ other.0 }
        ensures { result ≡ int_lt (signed_at self.0 self.1) (signed_at other.0 other.1) }
    {
        self.signed() < other.signed()
    }

    /// Whether the first of two words of one width is less or the same by two's complement (bvsle).
    pub fn sle(self, other: Word) -> bool
        requires { self.0 ≡ other.0 }
        ensures { result ≡ int_le (signed_at self.0 self.1) (signed_at other.0 other.1) }
    {
        self.signed() <= other.signed()
    }

    /// Whether two words of one width are the same.
    pub fn eq(self, other: Word) -> bool
        requires { self.0 ≡ other.0 }
        ensures is { result ≡ nat_eq self.1 other.1 }
        ensures exact { IsTrue result ↔ (self ≡ other) }
    {
        self.value == other.value
    }

    /// The bits `high` down to `low`, a word of `high - low + 1` bits; `high` is below the width (extract).
    pub fn slice(self, high: u32, low: u32) -> Word
        requires order { low ≤ high }
        requires within { high < self.0 }
        ensures { result ≡ (high - low + 1, slice_of self.1 high low) }
    {
        let width = high - low + 1;
        let value = (u64::from(self.value) >> low) % (1 << width);
        Word {
            width,
            value: value as u32,
        }
    }

    /// The word with zeros above, up to `width` bits, at most 32 (zero_extend).
    pub fn widen(self, width: u32) -> Word
        requires more { self.0 ≤ width }
        requires fits { width ≤ 32 }
        ensures { result ≡ (width, self.1) }
    {
        Word {
            width,
            value: self.value,
        }
    }

    /// The bits of this word above those of `low`; the widths sum to at most 32 (concat).
    pub fn join(self, low: Word) -> Word
        requires { self.0 + low.0 ≤ 32 }
        ensures { result ≡ (self.0 + low.0, concatenation_at low.0 self.1 low.1) }
    {
        let value = (u64::from(self.value) << low.width) + u64::from(low.value);
        Word {
            width: self.width + low.width,
            value: value as u32,
        }
    }

    fn is_top_clear(self) -> bool
        ensures { result ≡ nat_lt self.1 (2 ^ (self.0 - 1)) }
    {
        u64::from(self.value) < 1 << (self.width - 1)
    }

    fn signed(self) -> i64
        ensures { result ≡ signed_at self.0 self.1 }
    {
        if self.is_top_clear() {
            i64::from(self.value)
        } else {
            i64::from(self.value) - (1i64 << self.width)
        }
    }
}
