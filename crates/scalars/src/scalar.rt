// What tells scalars apart: their width, their mark, and which numbers are one.
ghost use Rattle.std.specs.Prelude.{◌≡◌, ℕ, Bool, true, false, T, List, length};
ghost use Rattle.format.specs.Sheets.{number_mark, truth_mark, character_mark, any, is_truth, is_character};
ghost use Rattle.std.proofs.Common.{rules};

use endian::width::{Primitive, Width1, Width4};
use sheet::marks;
use std::marker::PhantomData;

pub trait Scalar {
    type Width: Primitive;

    // Whether it is known that every number of this width is one.
    const ALL_VALID: bool;

    ghost ALL_VALID: { Bool };

    ghost passes: { ℕ → Bool };

    // The mark in a sheet. A constant without parameters may not be read through `marks::BO` yet, so some are written by their letters.
    const MARK: [u8; 2];

    ghost MARK: { List ℕ };

    // Whether a number of this width is such a scalar. By its ranges: `char::from_u32` would take a conversion first.
    fn valid(n: u64) -> bool
        ensures { result ≡ passes n };

    ghost two: { length MARK ≡ 2 };

    ghost all: { T ALL_VALID → (n : ℕ) → passes n ≡ true };
}

// Any number of a width: no sign, no fraction, only bits.
pub struct Number<P: Primitive>(PhantomData<P>);

pub struct Truth;

// A Unicode scalar value.
pub struct Character;

impl<P: Primitive> Scalar for Number<P> {
    type Width = P;

    const MARK: [u8; 2] = match P::SIZE {
        1 => *marks::N1,
        2 => *marks::N2,
        4 => *marks::N4,
        _ => *marks::N8,
    };

    ghost MARK = { number_mark P.Primitive.SIZE };

    const ALL_VALID: bool = true;

    ghost ALL_VALID = { true };

    ghost passes = { any };

    ghost two = { Prim.search rules };

    ghost all = { Prim.search rules };

    fn valid(_n: u64) -> bool {
        true
    }
}

impl Scalar for Truth {
    type Width = Width1;

    const MARK: [u8; 2] = [b'B', b'O'];

    ghost MARK = { truth_mark };

    const ALL_VALID: bool = false;

    ghost ALL_VALID = { false };

    ghost passes = { is_truth };

    ghost two = { Prim.search rules };

    ghost all = { Prim.search rules };

    fn valid(n: u64) -> bool {
        n < 2
    }
}

impl Scalar for Character {
    type Width = Width4;

    const MARK: [u8; 2] = [b'C', b'H'];

    ghost MARK = { character_mark };

    const ALL_VALID: bool = false;

    ghost ALL_VALID = { false };

    ghost passes = { is_character };

    ghost two = { Prim.search rules };

    ghost all = { Prim.search rules };

    fn valid(n: u64) -> bool {
        matches!(n, 0..=0xd7ff | 0xe000..=0x10_ffff)
    }
}
