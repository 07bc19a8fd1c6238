// Arithmetic, conversions and comparisons over edge values, with the results that ECMA-335 gives.
use crate::texts::check_rows;
use std::test::Fail;

// Each leaves an int32.
#[rattlefmt::skip]
pub(crate) const NARROW: [(&str, i64); 31] = [
    ("ldc.i4 2147483647 ldc.i4 1 add", -2147483648),
    ("ldc.i4 -2147483648 ldc.i4 -1 add", 2147483647),
    ("ldc.i4 -2147483648 ldc.i4 1 sub", 2147483647),
    ("ldc.i4 5 ldc.i4 7 sub", -2),
    ("ldc.i4 65536 ldc.i4 65536 mul", 0),
    ("ldc.i4 46341 ldc.i4 46341 mul", -2147479015),
    ("ldc.i4 -1 ldc.i4 255 and", 255),
    ("ldc.i4 -256 ldc.i4 15 or", -241),
    ("ldc.i4 -1 ldc.i4 1 xor", -2),
    ("ldc.i4 1 ldc.i4 31 shl", -2147483648),
    ("ldc.i4 3 ldc.i4 0 shl", 3),
    ("ldc.i4 -2147483648 ldc.i4 31 shr", -1),
    ("ldc.i4 -5 ldc.i4 1 shr", -3),
    ("ldc.i4 -2147483648 ldc.i4 31 shr.un", 1),
    ("ldc.i4 -1 ldc.i4 28 shr.un", 15),
    ("ldc.i4 -2147483648 neg", -2147483648),
    ("ldc.i4 5 neg", -5),
    ("ldc.i4 0 not", -1),
    ("ldc.i4 2147483647 not", -2147483648),
    ("ldc.i8 4294967295 conv.i4", -1),
    ("ldc.i8 2147483648 conv.i4", -2147483648),
    ("ldc.i8 4294967297 conv.i4", 1),
    ("ldc.i4 -5 conv.i4", -5),
    ("ldc.i4 2048", 2048),
    ("ldc.i4 -2049", -2049),
    ("ldc.i4 2147481599", 2147481599),
    ("ldc.i4 2147483647", 2147483647),
    ("ldc.i4 7 dup mul", 49),
    ("ldc.i4 1 ldc.i4 2 pop", 1),
    ("nop ldc.i4 9 nop", 9),
    ("ldnull ldnull ceq", 1),
];

// Each leaves an int64.
#[rattlefmt::skip]
pub(crate) const WIDE: [(&str, i64); 25] = [
    ("ldc.i8 9223372036854775807 ldc.i8 1 add", -9223372036854775808),
    ("ldc.i8 -9223372036854775808 ldc.i8 1 sub", 9223372036854775807),
    ("ldc.i8 4294967296 ldc.i8 4294967296 mul", 0),
    ("ldc.i8 3037000500 ldc.i8 3037000500 mul", -9223372036709301616),
    ("ldc.i8 -1 ldc.i8 4294967295 and", 4294967295),
    ("ldc.i8 4294967296 ldc.i8 1 or", 4294967297),
    ("ldc.i8 -1 ldc.i8 4294967295 xor", -4294967296),
    ("ldc.i8 1 ldc.i4 63 shl", -9223372036854775808),
    ("ldc.i8 1 ldc.i4 32 shl", 4294967296),
    ("ldc.i8 -9223372036854775808 ldc.i4 63 shr", -1),
    ("ldc.i8 -9223372036854775808 ldc.i4 63 shr.un", 1),
    ("ldc.i8 4294967296 ldc.i4 32 shr.un", 1),
    ("ldc.i8 -9223372036854775808 neg", -9223372036854775808),
    ("ldc.i8 4294967296 neg", -4294967296),
    ("ldc.i8 0 not", -1),
    ("ldc.i4 -1 conv.i8", -1),
    ("ldc.i4 2147483647 conv.i8", 2147483647),
    ("ldc.i4 -1 conv.u8", 4294967295),
    ("ldc.i4 -2147483648 conv.u8", 2147483648),
    ("ldc.i8 -1 conv.u8", -1),
    ("ldc.i8 -1 conv.i8", -1),
    ("ldc.i8 81985529216486895", 81985529216486895),
    ("ldc.i8 -81985529216486896", -81985529216486896),
    ("ldc.i8 2147483648", 2147483648),
    ("ldc.i8 -2147483649", -2147483649),
];

// Whether two numbers compare, as 0 or 1.
#[rattlefmt::skip]
pub(crate) const COMPARISONS: [(&str, i64); 35] = [
    ("ldc.i4 -1 ldc.i4 1 ceq", 0),
    ("ldc.i4 -1 ldc.i4 1 cgt", 0),
    ("ldc.i4 -1 ldc.i4 1 cgt.un", 1),
    ("ldc.i4 -1 ldc.i4 1 clt", 1),
    ("ldc.i4 -1 ldc.i4 1 clt.un", 0),
    ("ldc.i4 1 ldc.i4 -1 ceq", 0),
    ("ldc.i4 1 ldc.i4 -1 cgt", 1),
    ("ldc.i4 1 ldc.i4 -1 cgt.un", 0),
    ("ldc.i4 1 ldc.i4 -1 clt", 0),
    ("ldc.i4 1 ldc.i4 -1 clt.un", 1),
    ("ldc.i4 7 ldc.i4 7 ceq", 1),
    ("ldc.i4 7 ldc.i4 7 cgt", 0),
    ("ldc.i4 7 ldc.i4 7 cgt.un", 0),
    ("ldc.i4 7 ldc.i4 7 clt", 0),
    ("ldc.i4 7 ldc.i4 7 clt.un", 0),
    ("ldc.i4 -2147483648 ldc.i4 2147483647 ceq", 0),
    ("ldc.i4 -2147483648 ldc.i4 2147483647 cgt", 0),
    ("ldc.i4 -2147483648 ldc.i4 2147483647 cgt.un", 1),
    ("ldc.i4 -2147483648 ldc.i4 2147483647 clt", 1),
    ("ldc.i4 -2147483648 ldc.i4 2147483647 clt.un", 0),
    ("ldc.i8 -1 ldc.i8 1 ceq", 0),
    ("ldc.i8 -1 ldc.i8 1 cgt", 0),
    ("ldc.i8 -1 ldc.i8 1 cgt.un", 1),
    ("ldc.i8 -1 ldc.i8 1 clt", 1),
    ("ldc.i8 -1 ldc.i8 1 clt.un", 0),
    ("ldc.i8 4294967296 ldc.i8 0 ceq", 0),
    ("ldc.i8 4294967296 ldc.i8 0 cgt", 1),
    ("ldc.i8 4294967296 ldc.i8 0 cgt.un", 1),
    ("ldc.i8 4294967296 ldc.i8 0 clt", 0),
    ("ldc.i8 4294967296 ldc.i8 0 clt.un", 0),
    ("ldc.i8 -9223372036854775808 ldc.i8 -9223372036854775808 ceq", 1),
    ("ldc.i8 -9223372036854775808 ldc.i8 -9223372036854775808 cgt", 0),
    ("ldc.i8 -9223372036854775808 ldc.i8 -9223372036854775808 cgt.un", 0),
    ("ldc.i8 -9223372036854775808 ldc.i8 -9223372036854775808 clt", 0),
    ("ldc.i8 -9223372036854775808 ldc.i8 -9223372036854775808 clt.un", 0),
];

#[test]
fn numbers_of_32_bits_are_calculated(rt: HostRuntime) -> Result<(), Fail> {
    check_rows(&rt, rt.alloc(), &NARROW, "int32")
}

#[test]
fn numbers_of_64_bits_are_calculated(rt: HostRuntime) -> Result<(), Fail> {
    check_rows(&rt, rt.alloc(), &WIDE, "int64")
}

#[test]
fn numbers_are_compared(rt: HostRuntime) -> Result<(), Fail> {
    check_rows(&rt, rt.alloc(), &COMPARISONS, "int32")
}
