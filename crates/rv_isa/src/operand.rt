// What instructions are written with: registers, immediates, counts and distances, each with its range.
ghost use Rattle.std.specs.Prelude.{◌≡◌, ◌<◌, ◌%◌, ℕ};

use std::marker::Model;

/// A register, x0 to x31. Contracts see its number.
#[derive(Clone, Copy, Debug, PartialEq, Eq)]
pub struct Reg {
    number: u8,
}

impl Model for Reg {
    ghost Value = { ℕ };

    ghost view = { λ v. v.number };

    ghost invariant = { λ v. v.number < 32 };

    ghost inverse = { λ n. record { number = n } };
}

impl Reg {
    /// The register of a number.
    pub fn of(number: u8) -> Self
        requires { number < 32 }
        ensures { result ≡ number }
    {
        Reg { number }
    }

    /// Its number.
    pub fn number(self) -> u8
        ensures value { result ≡ self }
        ensures range { self < 32 }
    {
        self.number
    }
}

/// The twelve bits of an immediate of the formats I and S, a number in two's complement.
/// Contracts see the bits as a number below 4096.
#[derive(Clone, Copy, Debug, PartialEq, Eq)]
pub struct Imm12 {
    bits: u16,
}

impl Model for Imm12 {
    ghost Value = { ℕ };

    ghost view = { λ v. v.bits };

    ghost invariant = { λ v. v.bits < 4096 };

    ghost inverse = { λ n. record { bits = n } };
}

impl Imm12 {
    /// The immediate of these bits.
    pub fn of(bits: u16) -> Self
        requires { bits < 4096 }
        ensures { result ≡ bits }
    {
        Imm12 { bits }
    }

    /// Its bits.
    pub fn bits(self) -> u16
        ensures value { result ≡ self }
        ensures range { self < 4096 }
    {
        self.bits
    }
}

/// The twenty bits of an immediate of the format U. Contracts see them as a number below 2^20.
#[derive(Clone, Copy, Debug, PartialEq, Eq)]
pub struct Imm20 {
    bits: u32,
}

impl Model for Imm20 {
    ghost Value = { ℕ };

    ghost view = { λ v. v.bits };

    ghost invariant = { λ v. v.bits < 1048576 };

    ghost inverse = { λ n. record { bits = n } };
}

impl Imm20 {
    /// The immediate of these bits.
    pub fn of(bits: u32) -> Self
        requires { bits < 1048576 }
        ensures { result ≡ bits }
    {
        Imm20 { bits }
    }

    /// Its bits.
    pub fn bits(self) -> u32
        ensures value { result ≡ self }
        ensures range { self < 1048576 }
    {
        self.bits
    }
}

/// A shift's count on 64 bits, 0 to 63. Contracts see the count.
#[derive(Clone, Copy, Debug, PartialEq, Eq)]
pub struct Shift6 {
    count: u8,
}

impl Model for Shift6 {
    ghost Value = { ℕ };

    ghost view = { λ v. v.count };

    ghost invariant = { λ v. v.count < 64 };

    ghost inverse = { λ n. record { count = n } };
}

impl Shift6 {
    /// The shift by a count.
    pub fn of(count: u8) -> Self
        requires { count < 64 }
        ensures { result ≡ count }
    {
        Shift6 { count }
    }

    /// Its count.
    pub fn count(self) -> u8
        ensures value { result ≡ self }
        ensures range { self < 64 }
    {
        self.count
    }
}

/// A shift's count on 32 bits, 0 to 31. Contracts see the count.
#[derive(Clone, Copy, Debug, PartialEq, Eq)]
pub struct Shift5 {
    count: u8,
}

impl Model for Shift5 {
    ghost Value = { ℕ };

    ghost view = { λ v. v.count };

    ghost invariant = { λ v. v.count < 32 };

    ghost inverse = { λ n. record { count = n } };
}

impl Shift5 {
    /// The shift by a count.
    pub fn of(count: u8) -> Self
        requires { count < 32 }
        ensures { result ≡ count }
    {
        Shift5 { count }
    }

    /// Its count.
    pub fn count(self) -> u8
        ensures value { result ≡ self }
        ensures range { self < 32 }
    {
        self.count
    }
}

/// The distance of a branch in bytes, from the branch itself: an even number from -4096 to 4094.
/// Contracts see its thirteen bits in two's complement, an even number below 8192.
#[derive(Clone, Copy, Debug, PartialEq, Eq)]
pub struct BranchOffset {
    bits: u16,
}

impl Model for BranchOffset {
    ghost Value = { ℕ };

    ghost view = { λ v. v.bits };

    ghost invariant = { λ v. (v.bits < 8192) × (v.bits % 2 ≡ 0) };

    ghost inverse = { λ n. record { bits = n } };
}

impl BranchOffset {
    /// The distance of these thirteen bits.
    pub fn of(bits: u16) -> Self
        requires range { bits < 8192 }
        requires even { bits % 2 ≡ 0 }
        ensures { result ≡ bits }
    {
        BranchOffset { bits }
    }

    /// Its thirteen bits.
    pub fn bits(self) -> u16
        ensures value { result ≡ self }
        ensures range { self < 8192 }
        ensures even { self % 2 ≡ 0 }
    {
        self.bits
    }
}

/// The distance of a jump in bytes, from the jump itself: an even number from -1048576 to 1048574.
/// Contracts see its twenty-one bits in two's complement, an even number below 2^21.
#[derive(Clone, Copy, Debug, PartialEq, Eq)]
pub struct JumpOffset {
    bits: u32,
}

impl Model for JumpOffset {
    ghost Value = { ℕ };

    ghost view = { λ v. v.bits };

    ghost invariant = { λ v. (v.bits < 2097152) × (v.bits % 2 ≡ 0) };

    ghost inverse = { λ n. record { bits = n } };
}

impl JumpOffset {
    /// The distance of these twenty-one bits.
    pub fn of(bits: u32) -> Self
        requires range { bits < 2097152 }
        requires even { bits % 2 ≡ 0 }
        ensures { result ≡ bits }
    {
        JumpOffset { bits }
    }

    /// Its twenty-one bits.
    pub fn bits(self) -> u32
        ensures value { result ≡ self }
        ensures range { self < 2097152 }
        ensures even { self % 2 ≡ 0 }
    {
        self.bits
    }
}
