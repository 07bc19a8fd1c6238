// Texts of programs, and what their bodies print.
use crate::running::{Ran, run};
use std::alloc::Global;
use std::process::Abort;
use std::test::Fail;

/// The number of the first method of a text.
pub(crate) const FIRST: u16 = 12;

/// One text behind another.
pub(crate) fn put(text: &mut Vec<u8>, more: &str) -> Result<(), Fail> {
    text.extend_from_slice(more.as_bytes())?;
    Ok(())
}

/// Puts the method `Main` with this body, and ends its class.
pub(crate) fn put_main(text: &mut Vec<u8>, body: &[u8]) -> Result<(), Fail> {
    put(text, " .method static void Main() { .entrypoint ")?;
    text.extend_from_slice(body)?;
    put(text, " ret } }")
}

/// A program whose method `Main` has this body.
pub(crate) fn with_main(alloc: Global, body: &[u8]) -> Result<Vec<u8>, Fail> {
    let mut text: Vec<u8> = Vec::new(alloc);
    put(&mut text, ".class P {")?;
    put_main(&mut text, body)?;
    Ok(text)
}

/// That numbers were printed.
pub(crate) fn check_printed(rt: &impl Abort, ran: &Ran, at: usize, number: i64) {
    match ran.printed.get(at) {
        Some(printed) => assert_eq!(rt; *printed, (number.cast_unsigned(), 0), "number {at}"),
        None => assert!(rt; false, "too few numbers are printed"),
    }
}

/// A program whose method `Main` prints what each row leaves on the stack.
pub(crate) fn rows_text(alloc: Global, rows: &[(&str, i64)], kind: &str) -> Result<Vec<u8>, Fail> {
    let mut body: Vec<u8> = Vec::new(alloc);
    for (code, _) in rows {
        put(&mut body, code)?;
        put(&mut body, " call void System.Console::WriteLine(")?;
        put(&mut body, kind)?;
        put(&mut body, ") ")?;
    }
    with_main(alloc, body.as_slice())
}

/// That each row leaves its number on the stack, which is printed. They all stand in one body.
pub(crate) fn check_rows(
    rt: &impl Abort,
    alloc: Global,
    rows: &[(&str, i64)],
    kind: &str,
) -> Result<(), Fail> {
    let text = rows_text(alloc, rows, kind)?;
    let ran = run(alloc, text.as_slice(), FIRST, &[])?;
    assert_eq!(rt; ran.printed.len(), rows.len());
    for at in 0..rows.len() {
        check_printed(rt, &ran, at, rows[at].1);
    }
    Ok(())
}
