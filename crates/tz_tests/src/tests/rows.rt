//! Rows of the table as data.

use tz_table::{Width, limits_hold, row_at, row_count};

#[test]
fn rows(rt: HostRuntime) {
    assert!(rt; row_count() == 189);
    assert!(rt; row_at(189).is_none() && row_at(usize::MAX).is_none());
    match row_at(30) {
        Some(bx) => {
            assert!(rt;
                bx.width == Width::Narrow && bx.first_mask == 0xff83 && bx.first_value == 0x4700
            );
            assert!(rt; limits_hold(&bx, 0x4770, 0));
            assert!(rt; !limits_hold(&bx, 0x4778, 0));
            assert!(rt; !limits_hold(&bx, 0x476c, 0));
        }
        None => panic!(rt; "bx has no row"),
    }
}
