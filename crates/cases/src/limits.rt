// What `check` answers on programs at a limit and one past it.
use crate::checked::check_all;
use std::alloc::{AllocError, Global};
use std::test::Fail;

const MAIN: &str = " .class P { .method static void Main() { .entrypoint ret } }";

// A class with so many members of a kind, each with its number in its name.
fn members(alloc: Global, count: u32, before: &str, after: &str) -> Result<String, AllocError> {
    let mut text = String::from_str(alloc, ".class Q {")?;
    for i in 0..count {
        let member = format!(in alloc; " {before}{i}{after}")?;
        text.push_str(member.as_str())?;
    }
    text.push_str(" }")?;
    text.push_str(MAIN)?;
    Ok(text)
}

// A method that asks of null whether it is of each of so many classes.
fn casts(alloc: Global, count: u32) -> Result<String, AllocError> {
    let mut text = String::from_str(alloc, ".class P { .method static void Main() { .entrypoint")?;
    for i in 0..count {
        let cast = format!(in alloc; " ldnull castclass C{i} pop")?;
        text.push_str(cast.as_str())?;
    }
    text.push_str(" ret } }")?;
    for i in 0..count {
        let class = format!(in alloc; " .class C{i} {{ }}")?;
        text.push_str(class.as_str())?;
    }
    Ok(text)
}

#[test]
fn classes_have_224_slots(rt: HostRuntime) -> Result<(), Fail> {
    let alloc = rt.alloc();
    let most = members(alloc, 224, ".method virtual void v", "() { ret }")?;
    let more = members(alloc, 225, ".method virtual void v", "() { ret }")?;
    let rows = [
        (most.as_str(), "Accepted 2 classes 225 methods\n"),
        (more.as_str(), "Text 1:1 TooManySlots\n"),
    ];
    check_all(&rt, alloc, &rows)
}

#[test]
fn classes_have_4096_fields(rt: HostRuntime) -> Result<(), Fail> {
    let alloc = rt.alloc();
    let most = members(alloc, 4096, ".field int32 f", "")?;
    let more = members(alloc, 4097, ".field int32 f", "")?;
    let rows = [
        (most.as_str(), "Accepted 2 classes 1 methods\n"),
        (more.as_str(), "Text 1:1 BadLayout\n"),
    ];
    check_all(&rt, alloc, &rows)
}

#[test]
fn methods_have_224_entries(rt: HostRuntime) -> Result<(), Fail> {
    let alloc = rt.alloc();
    let most = casts(alloc, 224)?;
    let more = casts(alloc, 225)?;
    let rows = [
        (most.as_str(), "Accepted 225 classes 1 methods\n"),
        (more.as_str(), "Text 1:12 TooManyEntries\n"),
    ];
    check_all(&rt, alloc, &rows)
}
