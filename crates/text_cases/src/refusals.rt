// A text for each cause, with the line and the column of the first place that is refused.
use il_parse::ParseCause::{NoEntry, Repeated, Syntax, Text, UnknownName, Unsupported};
use il_parse::{ParseCause, ParseFault, Parsed, parse};
use il_text::{Spot, TextCause};
use mn_outside::Refused;
use std::alloc::Global;
use std::process::Abort;

type Row = (&'static [u8], u32, u32, ParseCause);

pub(crate) fn check_fault(
    rt: &impl Abort,
    got: Result<Parsed, Refused<ParseFault>>,
    line: u32,
    column: u32,
    cause: ParseCause,
) {
    match got {
        Err(Refused::Fault(fault)) => {
            assert_eq!(rt; fault.spot, Spot { line, column });
            assert_eq!(rt; fault.cause, cause);
        }
        Err(Refused::NoMemory) => assert!(rt; false, "no memory at {line}:{column}"),
        Ok(_) => assert!(rt; false, "a program at {line}:{column}"),
    }
}

fn check_all(rt: &impl Abort, alloc: Global, rows: &[Row]) {
    for (text, line, column, cause) in rows {
        check_fault(rt, parse(alloc, *text), *line, *column, *cause);
    }
}

const TEXTS: [Row; 7] = [
    (b"", 1, 1, NoEntry),
    (b"\n // none", 2, 9, NoEntry),
    (b".class P { }", 1, 13, NoEntry),
    (
        b".class P {\n .method static void Main() { ret } }\n",
        3,
        1,
        NoEntry,
    ),
    (b".class P {\n  #", 2, 3, Text(TextCause::BadByte)),
    (b".class P }\n \"", 2, 2, Text(TextCause::BadLiteral)),
    (
        b"x\n18446744073709551616",
        2,
        1,
        Text(TextCause::BadLiteral),
    ),
];

#[test]
fn refuses_text_and_missing_entries(rt: HostRuntime) {
    check_all(&rt, rt.alloc(), &TEXTS);
}

const SYNTAX: [Row; 22] = [
    (b".class P {", 1, 11, Syntax),
    (b"P", 1, 1, Syntax),
    (b".class { }", 1, 8, Syntax),
    (b".class object { }", 1, 8, Syntax),
    (b".class struct S extends P { }", 1, 17, Syntax),
    (b".class P<> { }", 1, 10, Syntax),
    (b".class P implements { }", 1, 21, Syntax),
    (b".class P { .field int32 }", 1, 25, Syntax),
    (b".class P { .method int32& f() { } }", 1, 25, Syntax),
    (b".class P { .method newslot void f() { } }", 1, 28, Syntax),
    (
        b".class P { .method void f() { .entrypoint } }",
        1,
        31,
        Syntax,
    ),
    (
        b".class P<T> { .method static void f() { .entrypoint } }",
        1,
        41,
        Syntax,
    ),
    (b".class P { .method void f() { foo ret } }", 1, 35, Syntax),
    (
        b".class P { .method void f() { ret .locals init (int32) } }",
        1,
        43,
        Syntax,
    ),
    (
        b".class P { .method void f() { ldc.i4 2147483648 } }",
        1,
        38,
        Syntax,
    ),
    (
        b".class P { .method void f() { ldc.i4 -2147483649 } }",
        1,
        38,
        Syntax,
    ),
    (
        b".class P { .method void f() { ldc.i8 9223372036854775808 } }",
        1,
        38,
        Syntax,
    ),
    (b".class P { .method void f() { ldarg -1 } }", 1, 37, Syntax),
    (
        b".class P { .method void f() { switch () } }",
        1,
        39,
        Syntax,
    ),
    (
        b".class P { .method void f() { constrained. int32 ret } }",
        1,
        50,
        Syntax,
    ),
    (
        b".class P { .method void f() { .try a to b handler c to d } }",
        1,
        43,
        Syntax,
    ),
    (
        b".class P { .method void f() { ldelem.ref } }",
        1,
        42,
        Syntax,
    ),
];

#[test]
fn refuses_syntax(rt: HostRuntime) {
    check_all(&rt, rt.alloc(), &SYNTAX);
}

const LEFT_OUT: [Row; 11] = [
    (b"finally", 1, 1, Unsupported),
    (b".class P { fault", 1, 12, Unsupported),
    (
        b".class P { .method virtual void f<T>() { } }",
        1,
        34,
        Unsupported,
    ),
    (
        b".class P { .method void .cctor() { } }",
        1,
        25,
        Unsupported,
    ),
    (
        b".class P { .method void f() { call void P::.cctor() } }",
        1,
        44,
        Unsupported,
    ),
    (
        b".class P { .method void f() { endfinally } }",
        1,
        31,
        Unsupported,
    ),
    (
        b".class P { .method void f() { rethrow } }",
        1,
        31,
        Unsupported,
    ),
    (
        b".class P { .method void f() { ldftn void P::f() } }",
        1,
        31,
        Unsupported,
    ),
    (
        b".class P { .method void f() { ldvirtftn void P::f() } }",
        1,
        31,
        Unsupported,
    ),
    (
        b".class P { .method void f() { .try a to b filter c } }",
        1,
        43,
        Unsupported,
    ),
    (
        b".class P { .method void f() { .try a to b finally c } }",
        1,
        43,
        Unsupported,
    ),
];

#[test]
fn refuses_what_is_left_out(rt: HostRuntime) {
    check_all(&rt, rt.alloc(), &LEFT_OUT);
}

const TWICE: [Row; 13] = [
    (b".class P { }\n.class P { }", 2, 8, Repeated),
    (b".class System.Object { }", 1, 8, Repeated),
    (b".class System.String { }", 1, 8, Repeated),
    (b".class Rt.IRun { }", 1, 8, Repeated),
    (b".class P<T, T> { }", 1, 13, Repeated),
    (b".class P { .method void f<A, A>() { } }", 1, 30, Repeated),
    (
        b".class P { .field int32 f .field int64 f }",
        1,
        40,
        Repeated,
    ),
    (
        b".class P { .method void f() { } .method static void f() { } }",
        1,
        53,
        Repeated,
    ),
    (
        b".class P { .method int32 f(int32, string) { }\n.method int32 f(int32, System.String) { } }",
        2,
        15,
        Repeated,
    ),
    (
        b".class P { .method void f<A>(!!0) { } .method void f<B>(!!0) { } }",
        1,
        52,
        Repeated,
    ),
    (
        b".class P { .method void f() { a: nop b: a: ret } }",
        1,
        41,
        Repeated,
    ),
    (
        b".class P { .method static void f() { .entrypoint }\n.method static void g() { .entrypoint } }",
        2,
        27,
        Repeated,
    ),
    (
        b".class P { .method static void f() { .entrypoint } }\n.class Q { .method static void f() { .entrypoint } }",
        2,
        38,
        Repeated,
    ),
];

#[test]
fn refuses_what_stands_twice(rt: HostRuntime) {
    check_all(&rt, rt.alloc(), &TWICE);
}

const UNKNOWN: [Row; 21] = [
    (b".class P extends Q { }", 1, 18, UnknownName),
    (b".class P { .field void f }", 1, 19, UnknownName),
    (b".class P implements object, Q { }", 1, 29, UnknownName),
    (b".class P<T : Q> { }", 1, 14, UnknownName),
    (b".class P<T : !1> { }", 1, 14, UnknownName),
    (b".class P { .field Q f }", 1, 19, UnknownName),
    (b".class P { .field !0 f }", 1, 19, UnknownName),
    (b".class P<T> { .field !1 f }", 1, 22, UnknownName),
    (b".class P<T> { .field !!0 f }", 1, 22, UnknownName),
    (
        b".class P { .method void f<T>(!!1) { } }",
        1,
        30,
        UnknownName,
    ),
    (b".class P { .method Q f(R) { } }", 1, 20, UnknownName),
    (b".class P { .field P<Q<int32>, R> f }", 1, 21, UnknownName),
    (
        b".class P { .method void f() { br a } .method void g() { a: ret } }",
        1,
        34,
        UnknownName,
    ),
    (
        b".class P { .method void f() { a: switch (a, b) } }",
        1,
        45,
        UnknownName,
    ),
    (
        b".class P { .method void f() { a: .try a to a catch object handler a to b } }",
        1,
        72,
        UnknownName,
    ),
    (
        b".class P { .method void f() { a: .try a to a catch Q handler b to b } }",
        1,
        52,
        UnknownName,
    ),
    (
        b".class P { .method void f() { .locals init (int32, Q&) } }",
        1,
        52,
        UnknownName,
    ),
    (
        b".class P { .method void f() { newobj instance void Q::g() } }",
        1,
        52,
        UnknownName,
    ),
    (
        b".class P { .method void f() { call !0 P::g(!0) } }",
        1,
        36,
        UnknownName,
    ),
    (
        b".class P<T> { .method void f() { call void P<!0>::g<int32>(!!1) } }",
        1,
        60,
        UnknownName,
    ),
    (
        b".class P { .method void f() { ldfld Q P::g } }",
        1,
        37,
        UnknownName,
    ),
];

#[test]
fn refuses_names_that_nothing_has(rt: HostRuntime) {
    check_all(&rt, rt.alloc(), &UNKNOWN);
}

const FIRST: [Row; 5] = [
    (b".class P extends Q { }\n}", 2, 1, Syntax),
    (b".class P }\n ?", 2, 2, Text(TextCause::BadByte)),
    (b".class P extends Q { }\n.class P { }", 1, 18, UnknownName),
    (b".class P { }\n.class P extends Q { }", 2, 8, Repeated),
    (
        b".class P { .method R f() { } .method R f() { } }",
        1,
        20,
        UnknownName,
    ),
];

#[test]
fn names_the_first_place_of_the_first_pass(rt: HostRuntime) {
    check_all(&rt, rt.alloc(), &FIRST);
}
