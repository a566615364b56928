// Byte orders, over buffers.
use endian::order::{BigEndian, Endian, LittleEndian, NativeEndian};
use endian::width::{Primitive, Width2, Width4};

#[test]
fn lays_in_either_order(rt: HostRuntime) {
    assert_eq!(rt;
        LittleEndian::from_native_u32(0x1234_5678),
        [0x78, 0x56, 0x34, 0x12]
    );
    assert_eq!(rt;
        NativeEndian::from_native_u32(0x1234_5678),
        [0x78, 0x56, 0x34, 0x12]
    );
    assert_eq!(rt;
        BigEndian::from_native_u32(0x1234_5678),
        [0x12, 0x34, 0x56, 0x78]
    );
}

#[test]
fn lays_over_a_buffer_and_takes_back(rt: HostRuntime) {
    let mut out = [9; 6];
    Width4::lay::<BigEndian>(0x1234_5678, &mut out, 1);
    assert_eq!(rt; out, [9, 0x12, 0x34, 0x56, 0x78, 9]);
    assert_eq!(rt; Width2::take_back::<LittleEndian>(&out, 2), 0x5634);
    assert_eq!(rt; Width2::widen(0x5634), 0x5634);
}
