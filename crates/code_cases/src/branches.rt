// Branches over edge values, far ones, and switches.
use crate::running::run;
use crate::texts::{FIRST, check_printed, check_rows, put, with_main};
use std::alloc::Global;
use std::test::Fail;

// Each leaves 1 where the branch is taken, and else 0.
#[rattlefmt::skip]
pub(crate) const BRANCHES: [(&str, i64); 82] = [
    ("ldc.i4 -1 ldc.i4 1 beq t0 ldc.i4 0 br e0 t0: ldc.i4 1 e0:", 0),
    ("ldc.i4 -1 ldc.i4 1 bne.un t1 ldc.i4 0 br e1 t1: ldc.i4 1 e1:", 1),
    ("ldc.i4 -1 ldc.i4 1 bge t2 ldc.i4 0 br e2 t2: ldc.i4 1 e2:", 0),
    ("ldc.i4 -1 ldc.i4 1 bgt t3 ldc.i4 0 br e3 t3: ldc.i4 1 e3:", 0),
    ("ldc.i4 -1 ldc.i4 1 ble t4 ldc.i4 0 br e4 t4: ldc.i4 1 e4:", 1),
    ("ldc.i4 -1 ldc.i4 1 blt t5 ldc.i4 0 br e5 t5: ldc.i4 1 e5:", 1),
    ("ldc.i4 -1 ldc.i4 1 bge.un t6 ldc.i4 0 br e6 t6: ldc.i4 1 e6:", 1),
    ("ldc.i4 -1 ldc.i4 1 bgt.un t7 ldc.i4 0 br e7 t7: ldc.i4 1 e7:", 1),
    ("ldc.i4 -1 ldc.i4 1 ble.un t8 ldc.i4 0 br e8 t8: ldc.i4 1 e8:", 0),
    ("ldc.i4 -1 ldc.i4 1 blt.un t9 ldc.i4 0 br e9 t9: ldc.i4 1 e9:", 0),
    ("ldc.i4 1 ldc.i4 -1 beq t10 ldc.i4 0 br e10 t10: ldc.i4 1 e10:", 0),
    ("ldc.i4 1 ldc.i4 -1 bne.un t11 ldc.i4 0 br e11 t11: ldc.i4 1 e11:", 1),
    ("ldc.i4 1 ldc.i4 -1 bge t12 ldc.i4 0 br e12 t12: ldc.i4 1 e12:", 1),
    ("ldc.i4 1 ldc.i4 -1 bgt t13 ldc.i4 0 br e13 t13: ldc.i4 1 e13:", 1),
    ("ldc.i4 1 ldc.i4 -1 ble t14 ldc.i4 0 br e14 t14: ldc.i4 1 e14:", 0),
    ("ldc.i4 1 ldc.i4 -1 blt t15 ldc.i4 0 br e15 t15: ldc.i4 1 e15:", 0),
    ("ldc.i4 1 ldc.i4 -1 bge.un t16 ldc.i4 0 br e16 t16: ldc.i4 1 e16:", 0),
    ("ldc.i4 1 ldc.i4 -1 bgt.un t17 ldc.i4 0 br e17 t17: ldc.i4 1 e17:", 0),
    ("ldc.i4 1 ldc.i4 -1 ble.un t18 ldc.i4 0 br e18 t18: ldc.i4 1 e18:", 1),
    ("ldc.i4 1 ldc.i4 -1 blt.un t19 ldc.i4 0 br e19 t19: ldc.i4 1 e19:", 1),
    ("ldc.i4 7 ldc.i4 7 beq t20 ldc.i4 0 br e20 t20: ldc.i4 1 e20:", 1),
    ("ldc.i4 7 ldc.i4 7 bne.un t21 ldc.i4 0 br e21 t21: ldc.i4 1 e21:", 0),
    ("ldc.i4 7 ldc.i4 7 bge t22 ldc.i4 0 br e22 t22: ldc.i4 1 e22:", 1),
    ("ldc.i4 7 ldc.i4 7 bgt t23 ldc.i4 0 br e23 t23: ldc.i4 1 e23:", 0),
    ("ldc.i4 7 ldc.i4 7 ble t24 ldc.i4 0 br e24 t24: ldc.i4 1 e24:", 1),
    ("ldc.i4 7 ldc.i4 7 blt t25 ldc.i4 0 br e25 t25: ldc.i4 1 e25:", 0),
    ("ldc.i4 7 ldc.i4 7 bge.un t26 ldc.i4 0 br e26 t26: ldc.i4 1 e26:", 1),
    ("ldc.i4 7 ldc.i4 7 bgt.un t27 ldc.i4 0 br e27 t27: ldc.i4 1 e27:", 0),
    ("ldc.i4 7 ldc.i4 7 ble.un t28 ldc.i4 0 br e28 t28: ldc.i4 1 e28:", 1),
    ("ldc.i4 7 ldc.i4 7 blt.un t29 ldc.i4 0 br e29 t29: ldc.i4 1 e29:", 0),
    ("ldc.i4 -2147483648 ldc.i4 2147483647 beq t30 ldc.i4 0 br e30 t30: ldc.i4 1 e30:", 0),
    ("ldc.i4 -2147483648 ldc.i4 2147483647 bne.un t31 ldc.i4 0 br e31 t31: ldc.i4 1 e31:", 1),
    ("ldc.i4 -2147483648 ldc.i4 2147483647 bge t32 ldc.i4 0 br e32 t32: ldc.i4 1 e32:", 0),
    ("ldc.i4 -2147483648 ldc.i4 2147483647 bgt t33 ldc.i4 0 br e33 t33: ldc.i4 1 e33:", 0),
    ("ldc.i4 -2147483648 ldc.i4 2147483647 ble t34 ldc.i4 0 br e34 t34: ldc.i4 1 e34:", 1),
    ("ldc.i4 -2147483648 ldc.i4 2147483647 blt t35 ldc.i4 0 br e35 t35: ldc.i4 1 e35:", 1),
    ("ldc.i4 -2147483648 ldc.i4 2147483647 bge.un t36 ldc.i4 0 br e36 t36: ldc.i4 1 e36:", 1),
    ("ldc.i4 -2147483648 ldc.i4 2147483647 bgt.un t37 ldc.i4 0 br e37 t37: ldc.i4 1 e37:", 1),
    ("ldc.i4 -2147483648 ldc.i4 2147483647 ble.un t38 ldc.i4 0 br e38 t38: ldc.i4 1 e38:", 0),
    ("ldc.i4 -2147483648 ldc.i4 2147483647 blt.un t39 ldc.i4 0 br e39 t39: ldc.i4 1 e39:", 0),
    ("ldc.i8 -1 ldc.i8 1 beq t40 ldc.i4 0 br e40 t40: ldc.i4 1 e40:", 0),
    ("ldc.i8 -1 ldc.i8 1 bne.un t41 ldc.i4 0 br e41 t41: ldc.i4 1 e41:", 1),
    ("ldc.i8 -1 ldc.i8 1 bge t42 ldc.i4 0 br e42 t42: ldc.i4 1 e42:", 0),
    ("ldc.i8 -1 ldc.i8 1 bgt t43 ldc.i4 0 br e43 t43: ldc.i4 1 e43:", 0),
    ("ldc.i8 -1 ldc.i8 1 ble t44 ldc.i4 0 br e44 t44: ldc.i4 1 e44:", 1),
    ("ldc.i8 -1 ldc.i8 1 blt t45 ldc.i4 0 br e45 t45: ldc.i4 1 e45:", 1),
    ("ldc.i8 -1 ldc.i8 1 bge.un t46 ldc.i4 0 br e46 t46: ldc.i4 1 e46:", 1),
    ("ldc.i8 -1 ldc.i8 1 bgt.un t47 ldc.i4 0 br e47 t47: ldc.i4 1 e47:", 1),
    ("ldc.i8 -1 ldc.i8 1 ble.un t48 ldc.i4 0 br e48 t48: ldc.i4 1 e48:", 0),
    ("ldc.i8 -1 ldc.i8 1 blt.un t49 ldc.i4 0 br e49 t49: ldc.i4 1 e49:", 0),
    ("ldc.i8 4294967296 ldc.i8 0 beq t50 ldc.i4 0 br e50 t50: ldc.i4 1 e50:", 0),
    ("ldc.i8 4294967296 ldc.i8 0 bne.un t51 ldc.i4 0 br e51 t51: ldc.i4 1 e51:", 1),
    ("ldc.i8 4294967296 ldc.i8 0 bge t52 ldc.i4 0 br e52 t52: ldc.i4 1 e52:", 1),
    ("ldc.i8 4294967296 ldc.i8 0 bgt t53 ldc.i4 0 br e53 t53: ldc.i4 1 e53:", 1),
    ("ldc.i8 4294967296 ldc.i8 0 ble t54 ldc.i4 0 br e54 t54: ldc.i4 1 e54:", 0),
    ("ldc.i8 4294967296 ldc.i8 0 blt t55 ldc.i4 0 br e55 t55: ldc.i4 1 e55:", 0),
    ("ldc.i8 4294967296 ldc.i8 0 bge.un t56 ldc.i4 0 br e56 t56: ldc.i4 1 e56:", 1),
    ("ldc.i8 4294967296 ldc.i8 0 bgt.un t57 ldc.i4 0 br e57 t57: ldc.i4 1 e57:", 1),
    ("ldc.i8 4294967296 ldc.i8 0 ble.un t58 ldc.i4 0 br e58 t58: ldc.i4 1 e58:", 0),
    ("ldc.i8 4294967296 ldc.i8 0 blt.un t59 ldc.i4 0 br e59 t59: ldc.i4 1 e59:", 0),
    ("ldc.i8 -9223372036854775808 ldc.i8 -9223372036854775808 beq t60 ldc.i4 0 br e60 t60: ldc.i4 1 e60:", 1),
    ("ldc.i8 -9223372036854775808 ldc.i8 -9223372036854775808 bne.un t61 ldc.i4 0 br e61 t61: ldc.i4 1 e61:", 0),
    ("ldc.i8 -9223372036854775808 ldc.i8 -9223372036854775808 bge t62 ldc.i4 0 br e62 t62: ldc.i4 1 e62:", 1),
    ("ldc.i8 -9223372036854775808 ldc.i8 -9223372036854775808 bgt t63 ldc.i4 0 br e63 t63: ldc.i4 1 e63:", 0),
    ("ldc.i8 -9223372036854775808 ldc.i8 -9223372036854775808 ble t64 ldc.i4 0 br e64 t64: ldc.i4 1 e64:", 1),
    ("ldc.i8 -9223372036854775808 ldc.i8 -9223372036854775808 blt t65 ldc.i4 0 br e65 t65: ldc.i4 1 e65:", 0),
    ("ldc.i8 -9223372036854775808 ldc.i8 -9223372036854775808 bge.un t66 ldc.i4 0 br e66 t66: ldc.i4 1 e66:", 1),
    ("ldc.i8 -9223372036854775808 ldc.i8 -9223372036854775808 bgt.un t67 ldc.i4 0 br e67 t67: ldc.i4 1 e67:", 0),
    ("ldc.i8 -9223372036854775808 ldc.i8 -9223372036854775808 ble.un t68 ldc.i4 0 br e68 t68: ldc.i4 1 e68:", 1),
    ("ldc.i8 -9223372036854775808 ldc.i8 -9223372036854775808 blt.un t69 ldc.i4 0 br e69 t69: ldc.i4 1 e69:", 0),
    ("ldc.i4 0 brtrue t70 ldc.i4 0 br e70 t70: ldc.i4 1 e70:", 0),
    ("ldc.i4 0 brfalse t71 ldc.i4 0 br e71 t71: ldc.i4 1 e71:", 1),
    ("ldc.i4 1 brtrue t72 ldc.i4 0 br e72 t72: ldc.i4 1 e72:", 1),
    ("ldc.i4 1 brfalse t73 ldc.i4 0 br e73 t73: ldc.i4 1 e73:", 0),
    ("ldc.i4 -2147483648 brtrue t74 ldc.i4 0 br e74 t74: ldc.i4 1 e74:", 1),
    ("ldc.i4 -2147483648 brfalse t75 ldc.i4 0 br e75 t75: ldc.i4 1 e75:", 0),
    ("ldc.i8 4294967296 brtrue t76 ldc.i4 0 br e76 t76: ldc.i4 1 e76:", 1),
    ("ldc.i8 4294967296 brfalse t77 ldc.i4 0 br e77 t77: ldc.i4 1 e77:", 0),
    ("ldc.i8 0 brtrue t78 ldc.i4 0 br e78 t78: ldc.i4 1 e78:", 0),
    ("ldc.i8 0 brfalse t79 ldc.i4 0 br e79 t79: ldc.i4 1 e79:", 1),
    ("ldnull brtrue t80 ldc.i4 0 br e80 t80: ldc.i4 1 e80:", 0),
    ("ldnull brfalse t81 ldc.i4 0 br e81 t81: ldc.i4 1 e81:", 1),
];

// The four targets of a switch leave 10 to 13.
#[rattlefmt::skip]
pub(crate) const CHOICES: [(&str, i64); 9] = [
    ("ldc.i4 0 switch (a82, b82, c82, d82) ldc.i4 -1 br e82 a82: ldc.i4 10 br e82 b82: ldc.i4 11 br e82 c82: ldc.i4 12 br e82 d82: ldc.i4 13 e82:", 10),
    ("ldc.i4 1 switch (a83, b83, c83, d83) ldc.i4 -1 br e83 a83: ldc.i4 10 br e83 b83: ldc.i4 11 br e83 c83: ldc.i4 12 br e83 d83: ldc.i4 13 e83:", 11),
    ("ldc.i4 2 switch (a84, b84, c84, d84) ldc.i4 -1 br e84 a84: ldc.i4 10 br e84 b84: ldc.i4 11 br e84 c84: ldc.i4 12 br e84 d84: ldc.i4 13 e84:", 12),
    ("ldc.i4 3 switch (a85, b85, c85, d85) ldc.i4 -1 br e85 a85: ldc.i4 10 br e85 b85: ldc.i4 11 br e85 c85: ldc.i4 12 br e85 d85: ldc.i4 13 e85:", 13),
    ("ldc.i4 4 switch (a86, b86, c86, d86) ldc.i4 -1 br e86 a86: ldc.i4 10 br e86 b86: ldc.i4 11 br e86 c86: ldc.i4 12 br e86 d86: ldc.i4 13 e86:", -1),
    ("ldc.i4 5 switch (a87, b87, c87, d87) ldc.i4 -1 br e87 a87: ldc.i4 10 br e87 b87: ldc.i4 11 br e87 c87: ldc.i4 12 br e87 d87: ldc.i4 13 e87:", -1),
    ("ldc.i4 -1 switch (a88, b88, c88, d88) ldc.i4 -1 br e88 a88: ldc.i4 10 br e88 b88: ldc.i4 11 br e88 c88: ldc.i4 12 br e88 d88: ldc.i4 13 e88:", -1),
    ("ldc.i4 2147483647 switch (a89, b89, c89, d89) ldc.i4 -1 br e89 a89: ldc.i4 10 br e89 b89: ldc.i4 11 br e89 c89: ldc.i4 12 br e89 d89: ldc.i4 13 e89:", -1),
    ("ldc.i4 -2147483648 switch (a90, b90, c90, d90) ldc.i4 -1 br e90 a90: ldc.i4 10 br e90 b90: ldc.i4 11 br e90 c90: ldc.i4 12 br e90 d90: ldc.i4 13 e90:", -1),
];

#[test]
fn branches_are_taken(rt: HostRuntime) -> Result<(), Fail> {
    check_rows(&rt, rt.alloc(), &BRANCHES, "int32")
}

#[test]
fn switches_choose(rt: HostRuntime) -> Result<(), Fail> {
    check_rows(&rt, rt.alloc(), &CHOICES, "int32")
}

fn put_nops(text: &mut Vec<u8>, count: u32) -> Result<(), Fail> {
    for _ in 0..count {
        put(text, "nop ")?;
    }
    Ok(())
}

// A body of 16,384 instructions. A branch goes to its end and one back, over more than 2^16 code words.
pub(crate) fn long_body(alloc: Global) -> Result<Vec<u8>, Fail> {
    let mut body: Vec<u8> = Vec::new(alloc);
    put(
        &mut body,
        "ldc.i4 0 brfalse last first: ldc.i4 7 call void System.Console::WriteLine(int32) ret ",
    )?;
    put_nops(&mut body, 16_375)?;
    put(
        &mut body,
        "last: ldc.i4 8 call void System.Console::WriteLine(int32) br first",
    )?;
    Ok(body)
}

#[test]
fn far_branches_are_taken(rt: HostRuntime) -> Result<(), Fail> {
    let alloc = rt.alloc();
    let body = long_body(alloc)?;
    let text = with_main(alloc, body.as_slice())?;
    let ran = run(alloc, text.as_slice(), FIRST, &[])?;
    assert_eq!(rt; ran.printed.len(), 2);
    check_printed(&rt, &ran, 0, 8);
    check_printed(&rt, &ran, 1, 7);
    Ok(())
}

// A switch of 400 targets, each of which is one of three instructions.
pub(crate) fn wide_switch(alloc: Global, number: &str) -> Result<Vec<u8>, Fail> {
    let mut body: Vec<u8> = Vec::new(alloc);
    put(&mut body, "ldc.i4 ")?;
    put(&mut body, number)?;
    put(&mut body, " switch (a")?;
    for _ in 0..398 {
        put(&mut body, ", b")?;
    }
    put(
        &mut body,
        ", c) ldc.i4 4 br e a: ldc.i4 1 br e b: ldc.i4 2 br e c: ldc.i4 3 e: call void System.Console::WriteLine(int32)",
    )?;
    Ok(body)
}

pub(crate) const NUMBERS: [(&str, i64); 6] = [
    ("0", 1),
    ("1", 2),
    ("398", 2),
    ("399", 3),
    ("400", 4),
    ("-1", 4),
];

#[test]
fn a_wide_switch_chooses(rt: HostRuntime) -> Result<(), Fail> {
    let alloc = rt.alloc();
    for (number, chosen) in NUMBERS {
        let body = wide_switch(alloc, number)?;
        let text = with_main(alloc, body.as_slice())?;
        let ran = run(alloc, text.as_slice(), FIRST, &[])?;
        assert_eq!(rt; ran.printed.len(), 1);
        check_printed(&rt, &ran, 0, chosen);
    }
    Ok(())
}
