use super::*;

#[test]
fn the_powers_of_two_begin_with_the_eight_bits(rt: HostRuntime) {
    let first = [
        0x01, 0x02, 0x04, 0x08, 0x10, 0x20, 0x40, 0x80, 0x1d, 0x3a, 0x74, 0xe8, 0xcd, 0x87, 0x13,
        0x26,
    ];
    for (i, power) in first.iter().enumerate() {
        assert_eq!(rt; EXP[i], *power);
        assert_eq!(rt; pow(2, i as u32), *power);
        assert_eq!(rt; LOG[*power as usize] as usize, i);
    }
}

#[test]
fn products_and_quotients_of_known_bytes(rt: HostRuntime) {
    assert_eq!(rt; add(0x41, 0x42), 0x03);
    assert_eq!(rt; mul(0x80, 2), 0x1d);
    assert_eq!(rt; mul(0xf4, 3), 0x01);
    assert_eq!(rt; inv(2), 0x8e);
    assert_eq!(rt; inv(3), 0xf4);
    assert_eq!(rt; div(2, 3), 0xf5);
    assert_eq!(rt; pow(0, 0), 1);
    assert_eq!(rt; pow(0, 3), 0);
}

#[test]
fn a_parity_row_of_two_blocks_decodes(rt: HostRuntime) {
    let parity = add(mul(3, 0x41), mul(2, 0x42));
    assert_eq!(rt; parity, 0x47);
    assert_eq!(rt; add(mul(3, 0x47), mul(2, 0x44)), 0x41);
}
