// Each limit of a text, and the first token past it.
use crate::refusals::check_fault;
use il_parse::{ParseCause, parse};
use il_text::TextCause;
use std::alloc::Global;
use std::test::Fail;

// A text of these parts, the middle one so many times.
fn repeated(
    alloc: Global,
    front: &[u8],
    middle: &[u8],
    times: u32,
    back: &[u8],
) -> Result<Vec<u8>, Fail> {
    let mut text = Vec::from_slice(alloc, front)?;
    for _turn in 0..times {
        text.extend_from_slice(middle)?;
    }
    text.extend_from_slice(back)?;
    Ok(text)
}

const MAIN: &[u8] = b".class P { .method static void Main() { .entrypoint\n";

#[test]
fn a_method_has_16384_instructions(rt: HostRuntime) -> Result<(), Fail> {
    let alloc = rt.alloc();
    let text = repeated(alloc, MAIN, b"nop ", 16384, b"} }")?;
    assert!(rt; parse(alloc, text.as_slice()).is_ok());
    let text = repeated(alloc, MAIN, b"nop\n", 16384, b"ret } }")?;
    check_fault(
        &rt,
        parse(alloc, text.as_slice()),
        16386,
        1,
        ParseCause::TooMany,
    );
    Ok(())
}

#[test]
fn a_text_has_4083_classes_of_its_own(rt: HostRuntime) -> Result<(), Fail> {
    let alloc = rt.alloc();
    let text = repeated(alloc, b"", b".class P { }\n", 4083, b"")?;
    check_fault(
        &rt,
        parse(alloc, text.as_slice()),
        2,
        8,
        ParseCause::Repeated,
    );
    let text = repeated(alloc, b"", b".class P { }\n", 4083, b" .class P { }")?;
    check_fault(
        &rt,
        parse(alloc, text.as_slice()),
        4084,
        2,
        ParseCause::TooMany,
    );
    Ok(())
}

#[test]
fn a_text_has_16372_methods_of_its_own(rt: HostRuntime) -> Result<(), Fail> {
    let alloc = rt.alloc();
    let one = b".method void f();\n";
    let text = repeated(alloc, b".class P {\n", one, 16372, b"}")?;
    check_fault(
        &rt,
        parse(alloc, text.as_slice()),
        3,
        14,
        ParseCause::Repeated,
    );
    let text = repeated(alloc, b".class P {\n", one, 16372, b"  .method")?;
    check_fault(
        &rt,
        parse(alloc, text.as_slice()),
        16374,
        3,
        ParseCause::TooMany,
    );
    Ok(())
}

#[test]
fn a_type_has_256_positions(rt: HostRuntime) -> Result<(), Fail> {
    let alloc = rt.alloc();
    let text = repeated(alloc, b".class P { .field int32", b"[]", 255, b" f }")?;
    check_fault(
        &rt,
        parse(alloc, text.as_slice()),
        1,
        538,
        ParseCause::NoEntry,
    );
    let text = repeated(alloc, b".class P { .field int32", b"[]", 256, b" f }")?;
    check_fault(
        &rt,
        parse(alloc, text.as_slice()),
        1,
        534,
        ParseCause::TooMany,
    );
    let text = repeated(alloc, b".class P { .field ", b"P<", 256, b"int32")?;
    check_fault(
        &rt,
        parse(alloc, text.as_slice()),
        1,
        531,
        ParseCause::TooMany,
    );
    Ok(())
}

#[test]
fn classes_have_three_variables_and_methods_two(rt: HostRuntime) {
    let alloc = rt.alloc();
    let text = b".class P<A, B, C, D> { }";
    check_fault(&rt, parse(alloc, text), 1, 19, ParseCause::TooMany);
    let text = b".class P { .method void f<A, B, C>() { } }";
    check_fault(&rt, parse(alloc, text), 1, 33, ParseCause::TooMany);
}

#[test]
fn words_have_255_bytes(rt: HostRuntime) -> Result<(), Fail> {
    let alloc = rt.alloc();
    let text = repeated(alloc, b".class ", b"n", 255, b" { }")?;
    check_fault(
        &rt,
        parse(alloc, text.as_slice()),
        1,
        267,
        ParseCause::NoEntry,
    );
    let text = repeated(alloc, b".class ", b"n", 256, b" { }")?;
    check_fault(
        &rt,
        parse(alloc, text.as_slice()),
        1,
        8,
        ParseCause::Text(TextCause::LongName),
    );
    Ok(())
}

#[test]
fn a_text_has_4194304_bytes(rt: HostRuntime) -> Result<(), Fail> {
    let alloc = rt.alloc();
    let blanks = b"                                                               \n";
    let text = repeated(alloc, b"", blanks, 65536, b"")?;
    assert_eq!(rt; text.len(), 4_194_304);
    check_fault(
        &rt,
        parse(alloc, text.as_slice()),
        65537,
        1,
        ParseCause::NoEntry,
    );
    let text = repeated(alloc, b"", blanks, 65536, b"\n")?;
    check_fault(
        &rt,
        parse(alloc, text.as_slice()),
        65537,
        1,
        ParseCause::Text(TextCause::TooLong),
    );
    Ok(())
}
