// Programs that print what plain instructions give for edge values.
ghost use Rattle.std.specs.Prelude.{◌<◌};

use crate::texts::{put, with_main};
use std::alloc::Global;
use std::test::Fail;

// Nine numbers, the instruction that pushes them, and the type as which they are printed.
struct Values {
    push: &'static str,
    all: [&'static str; 9],
    kind: &'static str,
}

#[rattlefmt::skip]
const NARROW: Values = Values {
    push: "ldc.i4",
    all: ["0", "1", "-1", "-2", "255", "46341", "65536", "2147483647", "-2147483648"],
    kind: "int32",
};

#[rattlefmt::skip]
const WIDE: Values = Values {
    push: "ldc.i8",
    all: ["0", "1", "-1", "2147483648", "4294967295", "4294967296", "3037000500", "9223372036854775807", "-9223372036854775808"],
    kind: "int64",
};

// How far numbers are shifted.
#[rattlefmt::skip]
const DISTANCES: Values = Values {
    push: "ldc.i4",
    all: ["0", "1", "16", "31", "32", "33", "63", "64", "-1"],
    kind: "int32",
};

// What is done with two numbers of one width, and gives a third.
const CALCULATIONS: [&str; 6] = ["add", "sub", "mul", "and", "or", "xor"];

const SHIFTS: [&str; 3] = ["shl", "shr", "shr.un"];

const COMPARISONS: [&str; 5] = ["ceq", "cgt", "cgt.un", "clt", "clt.un"];

const BRANCHES: [&str; 10] = [
    "beq", "bne.un", "bge", "bgt", "ble", "blt", "bge.un", "bgt.un", "ble.un", "blt.un",
];

// What is done with one int32, and the type of what it leaves. There are three locals: int32, int64 and bool.
const ON_NARROW: [(&str, &str); 13] = [
    ("nop", "int32"),
    ("neg", "int32"),
    ("not", "int32"),
    ("conv.i4", "int32"),
    ("conv.i8", "int64"),
    ("conv.u8", "int64"),
    ("dup sub", "int32"),
    ("dup mul", "int32"),
    ("ldc.i4 3 pop", "int32"),
    ("stloc.0 ldloc.0", "int32"),
    ("stloc.2 ldloc.2", "int32"),
    ("stloc.2 ldloca 2 pop ldloc.0", "int32"),
    ("ldloca 0 pop", "int32"),
];

const ON_WIDE: [(&str, &str); 8] = [
    ("nop", "int64"),
    ("neg", "int64"),
    ("not", "int64"),
    ("conv.i4", "int32"),
    ("conv.i8", "int64"),
    ("conv.u8", "int64"),
    ("dup mul", "int64"),
    ("stloc.1 ldloc.1", "int64"),
];

const LOCALS: &str = ".locals init (int32, int64, bool) ";

fn put_word(body: &mut Vec<u8>, word: &str) -> Result<(), Fail> {
    put(body, word)?;
    put(body, " ")
}

fn put_push(body: &mut Vec<u8>, values: &Values, at: usize) -> Result<(), Fail>
    requires { at < 9 }
{
    put_word(body, values.push)?;
    put_word(body, values.all[at])
}

fn put_print(body: &mut Vec<u8>, kind: &str) -> Result<(), Fail> {
    put(body, "call void System.Console::WriteLine(")?;
    put(body, kind)?;
    put(body, ") ")
}

// What an instruction gives for each pair of values.
fn put_pairs(
    body: &mut Vec<u8>,
    first: &Values,
    second: &Values,
    instr: &str,
    kind: &str,
) -> Result<(), Fail> {
    for at in 0..81_usize {
        put_push(body, first, at / 9)?;
        put_push(body, second, at % 9)?;
        put_word(body, instr)?;
        put_print(body, kind)?;
    }
    Ok(())
}

fn put_calculations(body: &mut Vec<u8>, values: &Values) -> Result<(), Fail> {
    for instr in CALCULATIONS {
        put_pairs(body, values, values, instr, values.kind)?;
    }
    Ok(())
}

fn put_shifts(body: &mut Vec<u8>, values: &Values) -> Result<(), Fail> {
    for instr in SHIFTS {
        put_pairs(body, values, &DISTANCES, instr, values.kind)?;
    }
    Ok(())
}

fn put_comparisons(body: &mut Vec<u8>, values: &Values) -> Result<(), Fail> {
    for instr in COMPARISONS {
        put_pairs(body, values, values, instr, "int32")?;
    }
    Ok(())
}

// What some instructions leave for each value.
fn put_each(body: &mut Vec<u8>, values: &Values, code: &str, kind: &str) -> Result<(), Fail> {
    for at in 0..9_usize {
        put_push(body, values, at)?;
        put_word(body, code)?;
        put_print(body, kind)?;
    }
    Ok(())
}

fn put_singles(body: &mut Vec<u8>, values: &Values, codes: &[(&str, &str)]) -> Result<(), Fail> {
    for (code, kind) in codes {
        put_each(body, values, code, kind)?;
    }
    Ok(())
}

fn calculations(alloc: Global, values: &Values, codes: &[(&str, &str)]) -> Result<Vec<u8>, Fail> {
    let mut body: Vec<u8> = Vec::new(alloc);
    put(&mut body, LOCALS)?;
    put_calculations(&mut body, values)?;
    put_shifts(&mut body, values)?;
    put_comparisons(&mut body, values)?;
    put_singles(&mut body, values, codes)?;
    with_main(alloc, body.as_slice())
}

/// Arithmetic, shifts, comparisons, conversions and locals, over edge values of int32.
pub(crate) fn calculations_of_32_bits(alloc: Global) -> Result<Vec<u8>, Fail> {
    calculations(alloc, &NARROW, &ON_NARROW)
}

/// The same of int64.
pub(crate) fn calculations_of_64_bits(alloc: Global) -> Result<Vec<u8>, Fail> {
    calculations(alloc, &WIDE, &ON_WIDE)
}

// Puts 1 where the branch is taken, and else 0. No two branches stand after as many bytes.
fn put_branch(alloc: Global, body: &mut Vec<u8>, branch: &str) -> Result<(), Fail> {
    let number = body.len();
    let code = format!(in alloc;
        "{branch} t{number} ldc.i4 0 br e{number} t{number}: ldc.i4 1 e{number}: "
    )?;
    put(body, code.as_str())?;
    put_print(body, "int32")
}

fn put_branches(
    alloc: Global,
    body: &mut Vec<u8>,
    values: &Values,
    branch: &str,
) -> Result<(), Fail> {
    for at in 0..81_usize {
        put_push(body, values, at / 9)?;
        put_push(body, values, at % 9)?;
        put_branch(alloc, body, branch)?;
    }
    Ok(())
}

// The branches that test one value.
fn put_tests(alloc: Global, body: &mut Vec<u8>, values: &Values, branch: &str) -> Result<(), Fail> {
    for at in 0..9_usize {
        put_push(body, values, at)?;
        put_branch(alloc, body, branch)?;
    }
    Ok(())
}

fn branches(alloc: Global, values: &Values) -> Result<Vec<u8>, Fail> {
    let mut body: Vec<u8> = Vec::new(alloc);
    for branch in BRANCHES {
        put_branches(alloc, &mut body, values, branch)?;
    }
    put_tests(alloc, &mut body, values, "brtrue")?;
    put_tests(alloc, &mut body, values, "brfalse")?;
    with_main(alloc, body.as_slice())
}

/// The branches, over edge values of int32.
pub(crate) fn branches_of_32_bits(alloc: Global) -> Result<Vec<u8>, Fail> {
    branches(alloc, &NARROW)
}

/// The same of int64.
pub(crate) fn branches_of_64_bits(alloc: Global) -> Result<Vec<u8>, Fail> {
    branches(alloc, &WIDE)
}
