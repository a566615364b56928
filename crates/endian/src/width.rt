ghost use Rattle.std.specs.Prelude.{◌≡◌, ℕ, ◌+◌, ◌^◌, ◌<◌, ◌≤◌, length};
ghost use Rattle.format.specs.Orders.{Width};
ghost use Rattle.format.specs.Places.{part, put};
ghost use Rattle.std.proofs.Common.{rules};
ghost use Rattle.format.proofs.OrderLaws.{width_2, width_4, width_8};

use crate::order::Endian;
use buffer::put_at;

// The numbers of one width, laid in bytes and taken back in any byte order.
pub trait Primitive {
    type Number: Copy;

    // How many bytes a number has.
    const SIZE: usize;

    ghost SIZE: { ℕ };

    ghost value: { Self.Number → ℕ };

    // The number whose bytes stand at `at`.
    fn take_back<E: Endian>(bytes: &[u8], at: usize) -> Self::Number
        requires { at + SIZE ≤ length bytes.now }
        ensures value { value result ≡ E.Endian.order.take_back (part at SIZE bytes.now) }
        ensures small { value result < 256 ^ SIZE };

    // Puts the bytes of a number over those at `at`.
    fn lay<E: Endian>(n: Self::Number, out: &mut [u8], at: usize)
        requires { at + SIZE ≤ length out.old }
        ensures bytes { out.new ≡ put out.old at (E.Endian.order.lay SIZE (value n)) }
        ensures small { value n < 256 ^ SIZE };

    // No bound `Into<u64>` in its place: that would ask of each width a law, where this asks a line.
    fn widen(n: Self::Number) -> u64
        ensures same { result ≡ value n }
        ensures small { result < 256 ^ SIZE };

    ghost sized: { Width SIZE };

    ghost told: { (m n : Self.Number) → value m ≡ value n → m ≡ n };
}

#[derive(Clone, Copy)]
pub struct Width1;

#[derive(Clone, Copy)]
pub struct Width2;

#[derive(Clone, Copy)]
pub struct Width4;

#[derive(Clone, Copy)]
pub struct Width8;

// Four impls of a line for each function: each width has a number type of its own, and no `impl` may come from a macro of the repository.
impl Primitive for Width1 {
    type Number = u8;

    const SIZE: usize = 1;

    ghost SIZE = { 1 };

    ghost value = { λ n. n };

    ghost sized = { Prim.search rules };

    ghost told = { Prim.search rules };

    fn take_back<E: Endian>(bytes: &[u8], at: usize) -> u8 {
        E::to_native_u8(array_at(bytes, at))
    }

    fn lay<E: Endian>(n: u8, out: &mut [u8], at: usize) {
        put_at(out, at, &E::from_native_u8(n));
    }

    fn widen(n: u8) -> u64 {
        u64::from(n)
    }
}

impl Primitive for Width2 {
    type Number = u16;

    const SIZE: usize = 2;

    ghost SIZE = { 2 };

    ghost value = { λ n. n };

    ghost sized = { width_2 };

    ghost told = { Prim.search rules };

    fn take_back<E: Endian>(bytes: &[u8], at: usize) -> u16 {
        E::to_native_u16(array_at(bytes, at))
    }

    fn lay<E: Endian>(n: u16, out: &mut [u8], at: usize) {
        put_at(out, at, &E::from_native_u16(n));
    }

    fn widen(n: u16) -> u64 {
        u64::from(n)
    }
}

impl Primitive for Width4 {
    type Number = u32;

    const SIZE: usize = 4;

    ghost SIZE = { 4 };

    ghost value = { λ n. n };

    ghost sized = { width_4 };

    ghost told = { Prim.search rules };

    fn take_back<E: Endian>(bytes: &[u8], at: usize) -> u32 {
        E::to_native_u32(array_at(bytes, at))
    }

    fn lay<E: Endian>(n: u32, out: &mut [u8], at: usize) {
        put_at(out, at, &E::from_native_u32(n));
    }

    fn widen(n: u32) -> u64 {
        u64::from(n)
    }
}

impl Primitive for Width8 {
    type Number = u64;

    const SIZE: usize = 8;

    ghost SIZE = { 8 };

    ghost value = { λ n. n };

    ghost sized = { width_8 };

    ghost told = { Prim.search rules };

    fn take_back<E: Endian>(bytes: &[u8], at: usize) -> u64 {
        E::to_native_u64(array_at(bytes, at))
    }

    fn lay<E: Endian>(n: u64, out: &mut [u8], at: usize) {
        put_at(out, at, &E::from_native_u64(n));
    }

    fn widen(n: u64) -> u64 {
        n
    }
}

// The `N` bytes at `at`.
fn array_at<const N: usize>(bytes: &[u8], at: usize) -> [u8; N]
    requires { at + N ≤ length bytes.now }
    ensures { result ≡ part at N bytes.now }
{
    <[u8; N]>::try_from(&bytes[at..at + N]).unwrap()
}
