// Arithmetic on words of 64 bits, one function an operation.
ghost use Rattle.std.specs.Prelude.{◌≡◌, ◌≢◌, ◌<◌, int_div};
ghost use Rattle.std.specs.Int.{w32, cast_signed};
ghost use Rattle.rv_machine.specs.Arithmetic.{extended, sum_of, difference_of, left_shift_of, right_shift_of, signed_right_shift_of, signed_less_of, less_of, product_of, signed_high_product_of, mixed_high_product_of, high_product_of, signed_quotient_of, quotient_of, signed_remainder_of, remainder_of, sum_32_of, difference_32_of, left_shift_32_of, right_shift_32_of, signed_right_shift_32_of, product_32_of, signed_quotient_32_of, quotient_32_of, signed_remainder_32_of, remainder_32_of};

const TWO_32: u64 = 4294967296;

const TWO_64: u128 = 18446744073709551616;

#[inline]
pub(crate) fn extended_8(n: u64) -> u64
    ensures { result ≡ extended 8 n }
{
    ((n % 256 + 128) % 256).wrapping_sub(128)
}

#[inline]
pub(crate) fn extended_12(n: u64) -> u64
    ensures { result ≡ extended 12 n }
{
    ((n % 4096 + 2048) % 4096).wrapping_sub(2048)
}

#[inline]
pub(crate) fn extended_13(n: u64) -> u64
    ensures { result ≡ extended 13 n }
{
    ((n % 8192 + 4096) % 8192).wrapping_sub(4096)
}

#[inline]
pub(crate) fn extended_16(n: u64) -> u64
    ensures { result ≡ extended 16 n }
{
    ((n % 65536 + 32768) % 65536).wrapping_sub(32768)
}

#[inline]
pub(crate) fn extended_21(n: u64) -> u64
    ensures { result ≡ extended 21 n }
{
    ((n % 2097152 + 1048576) % 2097152).wrapping_sub(1048576)
}

#[inline]
pub(crate) fn extended_32(n: u64) -> u64
    ensures { result ≡ extended 32 n }
{
    ((n % TWO_32 + 2147483648) % TWO_32).wrapping_sub(2147483648)
}

#[inline]
pub(crate) fn add(a: u64, b: u64) -> u64
    ensures { result ≡ sum_of a b }
{
    a.wrapping_add(b)
}

#[inline]
pub(crate) fn sub(a: u64, b: u64) -> u64
    ensures { result ≡ difference_of a b }
{
    a.wrapping_sub(b)
}

#[inline]
pub(crate) fn sll(a: u64, b: u64) -> u64
    ensures { result ≡ left_shift_of a b }
{
    a.wrapping_shl((b % 64) as u32)
}

#[inline]
pub(crate) fn srl(a: u64, b: u64) -> u64
    ensures { result ≡ right_shift_of a b }
{
    a.wrapping_shr((b % 64) as u32)
}

#[inline]
pub(crate) fn sra(a: u64, b: u64) -> u64
    ensures { result ≡ signed_right_shift_of a b }
{
    a.cast_signed()
        .wrapping_shr((b % 64) as u32)
        .cast_unsigned()
}

#[inline]
pub(crate) fn slt(a: u64, b: u64) -> u64
    ensures { result ≡ signed_less_of a b }
{
    u64::from(a.cast_signed() < b.cast_signed())
}

#[inline]
pub(crate) fn sltu(a: u64, b: u64) -> u64
    ensures { result ≡ less_of a b }
{
    u64::from(a < b)
}

#[inline]
pub(crate) fn mul(a: u64, b: u64) -> u64
    ensures { result ≡ product_of a b }
{
    a.wrapping_mul(b)
}

#[inline]
pub(crate) fn mulh(a: u64, b: u64) -> u64
    ensures { result ≡ signed_high_product_of a b }
{
    let product = i128::from(a.cast_signed()) * i128::from(b.cast_signed());
    (product.cast_unsigned() / TWO_64) as u64
}

#[inline]
pub(crate) fn mulhsu(a: u64, b: u64) -> u64
    ensures { result ≡ mixed_high_product_of a b }
{
    let product = i128::from(a.cast_signed()) * i128::from(b);
    (product.cast_unsigned() / TWO_64) as u64
}

#[inline]
pub(crate) fn mulhu(a: u64, b: u64) -> u64
    ensures { result ≡ high_product_of a b }
{
    (u128::from(a) * u128::from(b) / TWO_64) as u64
}

#[inline]
pub(crate) fn div(a: u64, b: u64) -> u64
    ensures { result ≡ signed_quotient_of a b }
{
    if b == 0 {
        return u64::MAX;
    }
    if a == 9223372036854775808 && b == u64::MAX {
        return a;
    }
    (a.cast_signed() / b.cast_signed()).cast_unsigned()
}

#[inline]
pub(crate) fn divu(a: u64, b: u64) -> u64
    ensures { result ≡ quotient_of a b }
{
    if b == 0 { u64::MAX } else { a / b }
}

#[inline]
pub(crate) fn rem(a: u64, b: u64) -> u64
    ensures { result ≡ signed_remainder_of a b }
{
    if b == 0 {
        return a;
    }
    if a == 9223372036854775808 && b == u64::MAX {
        return 0;
    }
    a.cast_signed()
        .wrapping_rem(b.cast_signed())
        .cast_unsigned()
}

#[inline]
pub(crate) fn remu(a: u64, b: u64) -> u64
    ensures { result ≡ remainder_of a b }
{
    if b == 0 { a } else { a % b }
}

#[inline]
pub(crate) fn addw(a: u64, b: u64) -> u64
    ensures { result ≡ sum_32_of a b }
{
    extended_32(a.wrapping_add(b))
}

#[inline]
pub(crate) fn subw(a: u64, b: u64) -> u64
    ensures { result ≡ difference_32_of a b }
{
    extended_32(a.wrapping_sub(b))
}

#[inline]
pub(crate) fn sllw(a: u64, b: u64) -> u64
    ensures { result ≡ left_shift_32_of a b }
{
    extended_32(a.wrapping_shl((b % 32) as u32))
}

#[inline]
pub(crate) fn srlw(a: u64, b: u64) -> u64
    ensures { result ≡ right_shift_32_of a b }
{
    extended_32((a % TWO_32).wrapping_shr((b % 32) as u32))
}

#[inline]
pub(crate) fn sraw(a: u64, b: u64) -> u64
    ensures { result ≡ signed_right_shift_32_of a b }
{
    let low = ((a % TWO_32) as u32).cast_signed();
    i64::from(low.wrapping_shr((b % 32) as u32)).cast_unsigned()
}

#[inline]
pub(crate) fn mulw(a: u64, b: u64) -> u64
    ensures { result ≡ product_32_of a b }
{
    extended_32(a.wrapping_mul(b))
}

// The quotient of two numbers of 32 bits in two's complement, where it fits them.
#[inline]
fn quotient_32(a: u32, b: u32) -> i32
    requires nonzero { 0 < b }
    requires fits { a ≡ 2147483648 → b ≢ 4294967295 }
    ensures { result ≡ int_div (cast_signed w32 a) (cast_signed w32 b) }
{
    a.cast_signed() / b.cast_signed()
}

#[inline]
pub(crate) fn divw(a: u64, b: u64) -> u64
    ensures { result ≡ signed_quotient_32_of a b }
{
    let (low_a, low_b) = (a % TWO_32, b % TWO_32);
    if low_b == 0 {
        return u64::MAX;
    }
    if low_a == 2147483648 && low_b == 4294967295 {
        return extended_32(low_a);
    }
    i64::from(quotient_32(low_a as u32, low_b as u32)).cast_unsigned()
}

#[inline]
pub(crate) fn divuw(a: u64, b: u64) -> u64
    ensures { result ≡ quotient_32_of a b }
{
    let (low_a, low_b) = (a % TWO_32, b % TWO_32);
    if low_b == 0 {
        u64::MAX
    } else {
        extended_32(low_a / low_b)
    }
}

#[inline]
pub(crate) fn remw(a: u64, b: u64) -> u64
    ensures { result ≡ signed_remainder_32_of a b }
{
    let (low_a, low_b) = (a % TWO_32, b % TWO_32);
    if low_b == 0 {
        return extended_32(a);
    }
    if low_a == 2147483648 && low_b == 4294967295 {
        return 0;
    }
    let remainder = (low_a as u32)
        .cast_signed()
        .wrapping_rem((low_b as u32).cast_signed());
    i64::from(remainder).cast_unsigned()
}

#[inline]
pub(crate) fn remuw(a: u64, b: u64) -> u64
    ensures { result ≡ remainder_32_of a b }
{
    let (low_a, low_b) = (a % TWO_32, b % TWO_32);
    if low_b == 0 {
        extended_32(a)
    } else {
        extended_32(low_a % low_b)
    }
}
