//! The values of bit-fields.

ghost use Rattle.std.specs.Prelude.{◌≡◌, ◌≤◌, ◌^◌, pos};
ghost use Rattle.c_types.specs.BitFields.{field_least, field_greatest, InFieldRange, field_wrapped, field_promoted};

use crate::convert::{is_signed, promote, range, residue};
use crate::types::IntKind;

fn power(width: u32) -> i128
    requires { width ≤ 64 }
    ensures value { result ≡ pos (2 ^ width) }
    ensures bounded { 2 ^ width ≤ 2 ^ 64 }
    ensures some { 1 ≤ 2 ^ width }
{
    1 << width
}

/// The least and the greatest value of a bit-field of this declared type and width (C11 6.7.2.1).
pub fn field_range(kind: IntKind, width: u32) -> (i128, i128)
    requires some { 1 ≤ width }
    requires most { width ≤ 64 }
    ensures least { result.0 ≡ field_least kind width }
    ensures greatest { result.1 ≡ field_greatest kind width }
{
    if is_signed(kind) {
        let half = power(width - 1);
        (-half, half - 1)
    } else {
        (0, power(width) - 1)
    }
}

/// The conversion of a value to a bit-field (C11 6.3.1.2, 6.3.1.3): 0 or 1 for `_Bool`, else the value of its range that
/// is congruent to it modulo 2^width.
pub fn field_wrap(kind: IntKind, width: u32, v: i128) -> i128
    requires some { 1 ≤ width }
    requires most { width ≤ 64 }
    ensures value { result ≡ field_wrapped kind width v }
    ensures in_range { InFieldRange kind width result }
{
    match kind {
        IntKind::Bool => { if v == 0 { 0 } else { 1 } }
        _ => {
            let (least, greatest) = field_range(kind, width);
            residue(v, least, greatest - least + 1)
        }
    }
}

/// The integer promotion of a bit-field (C11 6.3.1.1).
pub fn field_promote(kind: IntKind, width: u32) -> IntKind
    requires some { 1 ≤ width }
    requires most { width ≤ 64 }
    ensures { result ≡ field_promoted kind width }
{
    let (least, greatest) = field_range(kind, width);
    let (least_int, greatest_int) = range(IntKind::Int);
    if least_int <= least && greatest <= greatest_int {
        IntKind::Int
    } else {
        promote(kind)
    }
}
