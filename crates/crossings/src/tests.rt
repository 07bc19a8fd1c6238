// Calls between interpreted and compiled frames, and their returns.
ghost use Rattle.std.specs.Prelude.{IsTrue, IfSome};
ghost use Rattle.std.specs.Option.{option_copied};
ghost use Rattle.crossings.specs.Calls.{IsBodyFrame};

use crate::{
    BodyRow, CallWords, Entered, Left, Stack, are_listed, are_widths, enter, has_caller, leave,
    lies,
};
use il_model::{Key, KeyPart};
use sqlite_items::Items;
use std::alloc::Global;
use std::test::Fail;

// Main, which is interpreted, with three places and a list of two.
const MAIN: CallWords = CallWords {
    node: 20,
    result: 0,
    list: 0,
    back: 0,
};

// A call by Main: its list begins at word 72, and the result goes to word 40.
const CALL: CallWords = CallWords {
    node: 21,
    result: 0x4000_0140,
    list: 0x4000_0240,
    back: 0x1_0040,
};

// The words that Main has written: two arguments, of two words and of one, and their addresses.
const WRITTEN: [(u32, u64); 5] = [
    (8, 11),
    (9, 12),
    (24, 7),
    (72, 0x4000_0040),
    (73, 0x4000_00C0),
];

// Words of the interpreted callee's frame, which begins at word 74.
#[rattlefmt::skip]
const ARRIVED: [(u32, u64); 15] = [
    (74, 0x4000_0000), (75, 0x1_0040), (76, 21), (77, 0x4000_0140), (78, 0), (79, 56), (80, 0), (81, 0),
    (82, 11), (83, 12), (84, 0), (97, 0), (98, 7), (99, 0), (129, 0),
];

// A list's address, widths of two arguments, and whether they are listed.
#[rattlefmt::skip]
const LISTS: [(u64, [u32; 2], bool); 6] = [
    (0x4000_0240, [2, 1], true),
    (0x4000_0240, [66, 50], true),
    (0x4000_0240, [67, 50], false),
    (0x4000_0240, [66, 51], false),
    (0x4000_0248, [2, 1], false),
    (0x4000_0244, [2, 1], false),
];

// The row of a body at code word 5, with a frame of so many words.
fn row_of(alloc: Global, frame: u32) -> BodyRow {
    let parts: Items<KeyPart> = Items::new(alloc);
    let handlers: Items<u32> = Items::new(alloc);
    BodyRow {
        method: 12,
        key: Key { parts },
        entry: 5,
        frame,
        handlers,
    }
}

fn has_frame(row: Option<&BodyRow>) -> bool
    ensures { IsTrue result → IfSome (option_copied row.entry) (λ r. IsBodyFrame r.frame) }
{
    match row {
        Some(row) => 8 <= row.frame && row.frame <= 2_064,
        None => true,
    }
}

// The call, where its conditions are met.
fn called(
    stack: &mut Stack,
    call: &CallWords,
    row: Option<&BodyRow>,
    places: u32,
    list: u32,
    widths: &[u32],
) -> Result<Entered, Fail> {
    if places > 120 {
        return Err(Fail::new("places"));
    }
    if list > 120 {
        return Err(Fail::new("list"));
    }
    if !has_frame(row) {
        return Err(Fail::new("frame"));
    }
    if !are_widths(widths, places) {
        return Err(Fail::new("widths"));
    }
    if !are_listed(stack, call.list, widths) {
        return Err(Fail::new("not listed"));
    }
    let entered = enter(stack, call, row, places, list, widths)?;
    Ok(entered)
}

// The return, where its condition is met.
fn returned(stack: &mut Stack) -> Result<Left, Fail> {
    if !has_caller(stack) {
        return Err(Fail::new("no caller"));
    }
    Ok(leave(stack))
}

// The stack of Main when it makes its call.
fn main_stack(alloc: Global) -> Result<Stack, Fail> {
    let mut stack = Stack::new(alloc)?;
    called(&mut stack, &MAIN, None, 3, 2, &[])?;
    for (index, word) in WRITTEN {
        if index < stack.end() {
            stack.put(index, word);
        }
    }
    Ok(stack)
}

#[test]
fn arguments_arrive_in_an_interpreted_frame(rt: HostRuntime) -> Result<(), Fail> {
    let mut stack = main_stack(rt.alloc())?;
    assert_eq!(rt; [stack.depth(), stack.end()], [1, 74]);
    let entered = called(&mut stack, &CALL, None, 2, 0, &[2, 1])?;
    assert_eq!(rt; entered, Entered::Interp);
    assert_eq!(rt; [stack.depth(), stack.end()], [2, 130]);
    for (index, word) in ARRIVED {
        assert!(rt; index < stack.end());
        assert_eq!(rt; stack.word(index), word);
    }
    assert_eq!(rt; returned(&mut stack)?, Left::Machine(0x1_0040));
    assert_eq!(rt; [stack.depth(), stack.end()], [1, 74]);
    assert_eq!(rt; returned(&mut stack)?, Left::Last);
    assert_eq!(rt; stack.depth(), 1);
    Ok(())
}

#[test]
fn a_body_begins_with_a_header_and_zeros(rt: HostRuntime) -> Result<(), Fail> {
    let mut stack = main_stack(rt.alloc())?;
    let row = row_of(rt.alloc(), 24);
    let entered = called(&mut stack, &CALL, Some(&row), 2, 0, &[2, 1])?;
    assert_eq!(rt; entered, Entered::Machine(0x1_0014));
    for (index, word) in [(74, 0x4000_0000), (76, 21), (79, 24), (82, 0), (97, 0)] {
        assert!(rt; index < stack.end());
        assert_eq!(rt; stack.word(index), word);
    }
    let back = CallWords { back: 0, ..CALL };
    called(&mut stack, &back, Some(&row), 2, 0, &[2, 1])?;
    assert_eq!(rt; stack.end(), 122);
    assert_eq!(rt; returned(&mut stack)?, Left::Interp);
    assert_eq!(rt; returned(&mut stack)?, Left::Machine(0x1_0040));
    Ok(())
}

#[test]
fn the_frame_past_the_last_is_too_deep(rt: HostRuntime) -> Result<(), Fail> {
    let mut stack = Stack::new(rt.alloc())?;
    let row = row_of(rt.alloc(), 8);
    for _ in 0..1_024 {
        let entered = called(&mut stack, &MAIN, Some(&row), 0, 0, &[])?;
        assert_eq!(rt; entered, Entered::Machine(0x1_0014));
    }
    assert_eq!(rt;
        called(&mut stack, &MAIN, Some(&row), 0, 0, &[])?,
        Entered::Deep
    );
    assert_eq!(rt; [stack.depth(), stack.end()], [1_024, 8_192]);
    Ok(())
}

#[test]
fn words_lie_in_the_frames(rt: HostRuntime) -> Result<(), Fail> {
    let stack = main_stack(rt.alloc())?;
    for (list, widths, listed) in LISTS {
        assert_eq!(rt; are_listed(&stack, list, &widths), listed);
    }
    for (address, count, answer) in [
        (0x4000_0248, 1, true),
        (0x4000_0248, 2, false),
        (9, 0, true),
    ] {
        assert_eq!(rt; lies(&stack, address, count), answer);
    }
    for (widths, places, answer) in [([16, 1], 2, true), ([17, 1], 2, false), ([1, 1], 1, false)] {
        assert_eq!(rt; are_widths(&widths, places), answer);
    }
    assert!(rt; has_caller(&stack));
    Ok(())
}
