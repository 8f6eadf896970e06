ghost use Rattle.std.specs.Prelude.{◌≡◌};

use super::*;
use ecp_field::{add, inv, mul};
use std::process::Abort;

fn two_rows(rows: [[u8; 2]; 2]) -> Matrix
    ensures { result.size ≡ 2 }
{
    let mut m = Matrix::zero(2);
    m.set(0, 0, rows[0][0]);
    m.set(0, 1, rows[0][1]);
    m.set(1, 0, rows[1][0]);
    m.set(1, 1, rows[1][1]);
    m
}

#[test]
fn a_matrix_with_a_zero_corner_is_inverted(rt: HostRuntime) {
    let m = two_rows([[0x00, 0x01], [0x03, 0x02]]);
    match invert(&m) {
        Ok(inverse) => {
            assert_eq!(rt; [inverse.at(0, 0), inverse.at(0, 1)], [0xf5, 0xf4]);
            assert_eq!(rt; [inverse.at(1, 0), inverse.at(1, 1)], [0x01, 0x00]);
        }
        Err(_) => assert!(rt; false, "the matrix has an inverse"),
    }
}

#[test]
fn two_equal_rows_have_a_kernel_column(rt: HostRuntime) {
    match invert(&two_rows([[0x01, 0x02], [0x01, 0x02]])) {
        Ok(_) => assert!(rt; false, "the rows are equal"),
        Err(singular) => {
            let column = singular.column;
            assert!(rt; column[1] != 0);
            assert_eq!(rt; column[0], mul(2, column[1]));
        }
    }
}

#[test]
fn the_zero_of_size_one_has_a_kernel_column(rt: HostRuntime) {
    match invert(&Matrix::zero(1)) {
        Ok(_) => assert!(rt; false, "zero has no inverse"),
        Err(singular) => assert!(rt; singular.column[0] != 0),
    }
}

/// The matrix of size 16 with the inverse of `i ^ (16 + j)` in row i and column j.
fn cauchy() -> Matrix
    ensures { result.size ≡ 16 }
{
    let mut m = Matrix::zero(16);
    for i in 0..16 {
        for j in 0..16 {
            let sum = add(i, 16 + j);
            if sum != 0 {
                m.set(i, j, inv(sum));
            }
        }
    }
    m
}

fn product_is_identity(rt: &impl Abort, a: &Matrix, b: &Matrix)
    requires first { a.now.size ≡ 16 }
    requires second { b.now.size ≡ 16 }
{
    for i in 0..16 {
        for j in 0..16 {
            let mut sum = 0;
            for k in 0..16 {
                sum = add(sum, mul(a.at(i, k), b.at(k, j)));
            }
            assert_eq!(rt; sum, (i == j) as u8);
        }
    }
}

#[test]
fn a_matrix_of_size_sixteen_is_inverted_on_both_sides(rt: HostRuntime) {
    let m = cauchy();
    match invert(&m) {
        Ok(inverse) => {
            product_is_identity(&rt, &m, &inverse);
            product_is_identity(&rt, &inverse, &m);
        }
        Err(_) => assert!(rt; false, "the matrix has an inverse"),
    }
}
