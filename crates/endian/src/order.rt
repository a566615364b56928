ghost use Rattle.std.specs.Prelude.{◌≡◌, length};
ghost use Rattle.format.specs.Orders.{Width, Order, Undoes, number, little, big};
ghost use Rattle.format.proofs.OrderLaws.{little_undoes, big_undoes};

// A byte order: how numbers of 1, 2, 4 and 8 bytes are laid in bytes, and taken back.
pub trait Endian {
    ghost order: { Order };

    // Two functions, since an order of one's own need not undo itself.
    // Turns the bytes of a number from the lowest first into this order.
    fn arrange(bytes: &mut [u8])
        requires { Width (length bytes.old) }
        ensures { bytes.new ≡ order.lay (length bytes.old) (number bytes.old) };

    // Turns them back.
    fn restore(bytes: &mut [u8])
        requires { Width (length bytes.old) }
        ensures { number bytes.new ≡ order.take_back bytes.old };

    // The bytes of a number, in this order. One function for each width, since the check cannot state a trait's function with a const parameter yet.
    fn from_native_u8(v: u8) -> [u8; 1]
        ensures { result ≡ order.lay 1 v }
    {
        let mut bytes = v.to_le_bytes();
        Self::arrange(&mut bytes);
        bytes
    }

    fn from_native_u16(v: u16) -> [u8; 2]
        ensures { result ≡ order.lay 2 v }
    {
        let mut bytes = v.to_le_bytes();
        Self::arrange(&mut bytes);
        bytes
    }

    fn from_native_u32(v: u32) -> [u8; 4]
        ensures { result ≡ order.lay 4 v }
    {
        let mut bytes = v.to_le_bytes();
        Self::arrange(&mut bytes);
        bytes
    }

    fn from_native_u64(v: u64) -> [u8; 8]
        ensures { result ≡ order.lay 8 v }
    {
        let mut bytes = v.to_le_bytes();
        Self::arrange(&mut bytes);
        bytes
    }

    // The number that bytes in this order write.
    fn to_native_u8(mut bytes: [u8; 1]) -> u8
        ensures { result ≡ order.take_back bytes }
    {
        Self::restore(&mut bytes);
        u8::from_le_bytes(bytes)
    }

    fn to_native_u16(mut bytes: [u8; 2]) -> u16
        ensures { result ≡ order.take_back bytes }
    {
        Self::restore(&mut bytes);
        u16::from_le_bytes(bytes)
    }

    fn to_native_u32(mut bytes: [u8; 4]) -> u32
        ensures { result ≡ order.take_back bytes }
    {
        Self::restore(&mut bytes);
        u32::from_le_bytes(bytes)
    }

    fn to_native_u64(mut bytes: [u8; 8]) -> u64
        ensures { result ≡ order.take_back bytes }
    {
        Self::restore(&mut bytes);
        u64::from_le_bytes(bytes)
    }

    ghost undoes: { Undoes order };
}

// The lowest byte first.
#[derive(Clone, Copy, PartialEq, Eq, Debug)]
pub struct LittleEndian;

// The highest byte first.
#[derive(Clone, Copy, PartialEq, Eq, Debug)]
pub struct BigEndian;

// The order of the machine that programs are built for, x86-64: the lowest byte first. A type of its own, as in the Rust.
#[derive(Clone, Copy, PartialEq, Eq, Debug)]
pub struct NativeEndian;

impl Endian for LittleEndian {
    ghost order = { little };

    ghost undoes = { little_undoes };

    fn arrange(bytes: &mut [u8]) {}

    fn restore(bytes: &mut [u8]) {}
}

impl Endian for BigEndian {
    ghost order = { big };

    ghost undoes = { big_undoes };

    // A reversal undoes itself.
    fn arrange(bytes: &mut [u8]) {
        bytes.reverse();
    }

    fn restore(bytes: &mut [u8]) {
        bytes.reverse();
    }
}

impl Endian for NativeEndian {
    ghost order = { little };

    ghost undoes = { little_undoes };

    fn arrange(bytes: &mut [u8]) {
        LittleEndian::arrange(bytes);
    }

    fn restore(bytes: &mut [u8]) {
        LittleEndian::restore(bytes);
    }
}
