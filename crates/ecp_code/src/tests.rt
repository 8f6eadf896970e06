use super::*;
use std::test::Fail;

#[test]
fn a_code_has_a_shape_in_range(rt: HostRuntime) {
    for (n, k) in [(2, 1), (3, 2), (16, 1), (16, 15)] {
        let code = Code::new(n, k).map(|code| (u32::from(code.n()), u32::from(code.k())));
        assert_eq!(rt; code, Ok((n, k)));
    }
    for (n, k) in [
        (0, 0),
        (1, 0),
        (1, 1),
        (2, 2),
        (2, 3),
        (17, 1),
        (256, 255),
        (257, 256),
        (u32::MAX, 1),
    ] {
        assert_eq!(rt; Code::new(n, k), Err(BadShape { n, k }));
    }
}

#[test]
fn a_bad_shape_names_both_numbers(rt: HostRuntime) -> Result<(), Fail> {
    let text = format!(in rt.alloc(); "{}", BadShape { n: 3, k: 4 })?;
    assert_eq!(rt;
        text.as_str(),
        "no code has n = 3 and k = 4: 1 <= k < n <= 16"
    );
    Ok(())
}

#[test]
fn weights_interpolate_through_the_rows(rt: HostRuntime) -> Result<(), Fail> {
    let five = Code::new(5, 3)?.weights(&[0, 1, 2], 4);
    assert_eq!(rt; five.len, 3);
    assert_eq!(rt;
        five.w,
        [0x0F, 0x08, 0x06, 0, 0, 0, 0, 0, 0, 0, 0, 0, 0, 0, 0, 0]
    );
    let four = Code::new(4, 2)?.weights(&[2, 3], 0);
    assert_eq!(rt; four.len, 2);
    assert_eq!(rt; four.w, [3, 2, 0, 0, 0, 0, 0, 0, 0, 0, 0, 0, 0, 0, 0, 0]);
    Ok(())
}

#[test]
fn a_row_of_the_bytes_is_their_weighted_sum(rt: HostRuntime) -> Result<(), Fail> {
    let three = Code::new(3, 2)?.row_of(rt.alloc(), b"AB", 2)?;
    assert_eq!(rt; three.bytes(), b"G".as_slice());
    let four = Code::new(4, 2)?.row_of(rt.alloc(), b"AB", 3)?;
    assert_eq!(rt; four.bytes(), b"D".as_slice());
    let five = Code::new(5, 3)?.row_of(rt.alloc(), &[1, 2, 3], 4)?;
    assert_eq!(rt; five.bytes(), [0x15].as_slice());
    let copy = Code::new(2, 1)?.row_of(rt.alloc(), b"xyz", 1)?;
    assert_eq!(rt; copy.bytes(), b"xyz".as_slice());
    let none = Code::new(3, 2)?.row_of(rt.alloc(), b"", 2)?;
    assert_eq!(rt; none.len(), 0);
    Ok(())
}

#[test]
fn a_file_is_cut_into_stripes(rt: HostRuntime) -> Result<(), Fail> {
    let code = Code::new(3, 2)?;
    for (len, block, count) in [
        (0, 2, 0),
        (1, 2, 1),
        (4, 2, 1),
        (5, 2, 2),
        (u32::MAX, 1, 1 << 31),
        (5, u32::MAX, 1),
    ] {
        assert_eq!(rt;
            code.stripe_count(len, block),
            count,
            "of {len} in blocks of {block}"
        );
    }
    let first = code.stripe_at(rt.alloc(), b"ABCDE", 2, 0)?;
    let last = code.stripe_at(rt.alloc(), b"ABCDE", 2, 1)?;
    assert_eq!(rt; (first.rows(), first.block_len()), (2, 2));
    assert_eq!(rt; (last.rows(), last.block_len()), (2, 2));
    assert_eq!(rt; first.block(0), b"AB".as_slice());
    assert_eq!(rt; first.block(1), b"CD".as_slice());
    assert_eq!(rt; last.block(0), b"E\0".as_slice());
    assert_eq!(rt; last.block(1), b"\0\0".as_slice());
    Ok(())
}

#[test]
fn a_stripe_is_encoded_row_by_row(rt: HostRuntime) -> Result<(), Fail> {
    let code = Code::new(3, 2)?;
    let stripe = code.stripe_at(rt.alloc(), b"AABB", 2, 0)?;
    let parity = code.encode(rt.alloc(), &stripe, 2)?;
    assert_eq!(rt; parity.bytes(), b"GG".as_slice());
    let data = code.encode(rt.alloc(), &stripe, 1)?;
    assert_eq!(rt; data.bytes(), b"BB".as_slice());
    Ok(())
}

#[test]
fn each_row_is_rebuilt_from_the_others(rt: HostRuntime) -> Result<(), Fail> {
    let code = Code::new(3, 2)?;
    for (row, want) in [(0, "AA"), (1, "BB"), (2, "GG")] {
        let rebuilt = code.rebuild(rt.alloc(), b"AABB", row)?;
        assert_eq!(rt; rebuilt.bytes(), want.as_bytes());
    }
    Ok(())
}
