// Places of a frame: many and far ones, pointers to them, and what a body's entry copies to them.
use crate::running::{Ran, run};
use crate::texts::{FIRST, put, put_main};
use std::alloc::Global;
use std::process::Abort;
use std::test::Fail;

const TEXT: &[u8] = b".class struct Two { .field int64 a .field int64 b }
.class struct Three { .field int64 a .field int64 b .field int64 c }
.class struct Four { .field int64 a .field int64 b .field int64 c .field int64 d
  .method void Keep() { ret } }
.class P {
  .method static void Widths(int64, Two, Three, Four, bool) { .locals init (Four, int64) ret }
  .method static void Pointers(int64, int64, int64) {
    .locals init (int64, int64, int64) ldarga 1 ldloca 1 ldarga 2 pop pop pop ret }
  .method static int32 Stored(int32) { .locals init (bool) ldarg.0 stloc.0 ldloc.0 ret }
  .method static int32 Narrowed(bool, int32) { ldarg.1 starg 0 ldarg.0 ret }
  .method static void Main() { .entrypoint ret }
}
";

const KEEP: u16 = FIRST;

const WIDTHS: u16 = FIRST + 1;

const POINTERS: u16 = FIRST + 2;

const STORED: u16 = FIRST + 3;

const NARROWED: u16 = FIRST + 4;

// That the words of a frame behind its header are these, and 0 behind them.
fn check_frame(rt: &impl Abort, ran: &Ran, words: &[u64]) {
    assert!(rt; words.len() <= ran.frame.len());
    for at in 0..ran.frame.len() {
        let expected = words.get(at).copied().unwrap_or(0);
        assert_eq!(rt; ran.frame[at], expected, "word {at} behind the header");
    }
}

#[test]
fn values_of_each_width_are_copied_and_nothing_else(rt: HostRuntime) -> Result<(), Fail> {
    let arguments: [&[u64]; 5] = [&[1], &[21, 22], &[31, 32, 33], &[41, 42, 43, 44], &[511]];
    let ran = run(rt.alloc(), TEXT, WIDTHS, &arguments)?;
    check_frame(&rt, &ran, &[1, 21, 22, 31, 32, 33, 41, 42, 43, 44, 255]);
    Ok(())
}

// That the object of a struct's method is kept as this word.
fn check_object(rt: &impl Abort, alloc: Global, word: u64, kept: u64) -> Result<(), Fail> {
    let ran = run(alloc, TEXT, KEEP, &[&[word]])?;
    check_frame(rt, &ran, &[kept]);
    Ok(())
}

#[test]
fn the_object_of_a_struct_is_a_pointer_to_its_first_word(rt: HostRuntime) -> Result<(), Fail> {
    let alloc = rt.alloc();
    check_object(&rt, alloc, 5, 4_611_686_018_511_273_984)?;
    check_object(&rt, alloc, 1_073_741_823, 4_629_700_416_920_092_672)?;
    check_object(&rt, alloc, 1_073_741_824, 1_073_741_824)?;
    check_object(
        &rt,
        alloc,
        4_611_686_018_511_273_984,
        4_611_686_018_511_273_984,
    )?;
    check_object(&rt, alloc, 0, 0)
}

// Words 1 and 2 are the second and third argument, word 4 the second local, and the stack begins at word 6.
#[test]
fn pointers_lead_to_their_places(rt: HostRuntime) -> Result<(), Fail> {
    let ran = run(rt.alloc(), TEXT, POINTERS, &[&[1], &[2], &[3]])?;
    let first = ran.address.wrapping_add(64);
    check_frame(
        &rt,
        &ran,
        &[
            1,
            2,
            3,
            0,
            0,
            0,
            first.wrapping_add(8),
            first.wrapping_add(32),
            first.wrapping_add(16),
        ],
    );
    Ok(())
}

#[test]
fn stored_bools_keep_eight_bits(rt: HostRuntime) -> Result<(), Fail> {
    let alloc = rt.alloc();
    let stored = run(alloc, TEXT, STORED, &[&[511]])?;
    check_frame(&rt, &stored, &[511, 255, 255]);
    let narrowed = run(alloc, TEXT, NARROWED, &[&[1], &[263]])?;
    check_frame(&rt, &narrowed, &[7, 263, 7]);
    Ok(())
}

pub(crate) fn put_often(text: &mut Vec<u8>, word: &str, count: u32) -> Result<(), Fail> {
    put(text, word)?;
    for _ in 1..count {
        put(text, ", ")?;
        put(text, word)?;
    }
    Ok(())
}

// The class `P` up to its method `Main`. `Sum` has 118 arguments and a stack of two values, and adds three times the
// sum so far to each argument.
pub(crate) fn sum_class(alloc: Global) -> Result<Vec<u8>, Fail> {
    let mut text: Vec<u8> = Vec::new(alloc);
    put(&mut text, ".class P { .method static int64 Sum(")?;
    put_often(&mut text, "int64", 118)?;
    put(&mut text, ") { ldc.i8 0")?;
    for number in 0..118_u32 {
        let more = format!(in alloc; " ldc.i8 3 mul ldarg {number} add")?;
        put(&mut text, more.as_str())?;
    }
    put(&mut text, " ret }")?;
    Ok(text)
}

// The same of `Last`, which has 20 arguments of 16 words, 99 locals and a stack of one value.
pub(crate) fn far_class(alloc: Global) -> Result<Vec<u8>, Fail> {
    let mut text: Vec<u8> = Vec::new(alloc);
    put(&mut text, ".class struct Full {")?;
    for number in 0..16_u32 {
        let more = format!(in alloc; " .field int64 f{number}")?;
        put(&mut text, more.as_str())?;
    }
    put(&mut text, " } .class P { .method static Full Last(")?;
    put_often(&mut text, "Full", 20)?;
    put(&mut text, ") { .locals init (")?;
    put_often(&mut text, "int64", 99)?;
    put(
        &mut text,
        ") ldc.i8 3 stloc 97 ldc.i8 -7 stloc 98 ldloc 98 stloc 96 ldarg 19 ret }",
    )?;
    Ok(text)
}

pub(crate) fn numbers(alloc: Global, first: u64, count: usize) -> Result<Vec<u64>, Fail> {
    let mut words: Vec<u64> = Vec::new(alloc);
    let mut word = first;
    for _ in 0..count {
        words.push(word)?;
        word = word.wrapping_add(1);
    }
    Ok(words)
}

// The words as arguments of so many words each.
pub(crate) fn split(alloc: Global, words: &[u64], width: usize) -> Result<Vec<&[u64]>, Fail> {
    let mut arguments: Vec<&[u64]> = Vec::new(alloc);
    let mut rest = words;
    for _ in 0..words.len() {
        if rest.len() < width {
            return Ok(arguments);
        }
        let (argument, more) = rest.split_at(width);
        arguments.push(argument)?;
        rest = more;
    }
    Ok(arguments)
}

#[test]
fn a_hundred_and_twenty_near_places(rt: HostRuntime) -> Result<(), Fail> {
    let alloc = rt.alloc();
    let mut text = sum_class(alloc)?;
    put_main(&mut text, b"")?;
    let words = numbers(alloc, 1, 118)?;
    let arguments = split(alloc, words.as_slice(), 1)?;
    let ran = run(alloc, text.as_slice(), FIRST, arguments.as_slice())?;
    assert_eq!(rt; ran.result.get(0).copied(), Some(12879942808411997559));
    Ok(())
}

fn run_last(alloc: Global, words: &[u64]) -> Result<Ran, Fail> {
    let mut text = far_class(alloc)?;
    put_main(&mut text, b"")?;
    let arguments = split(alloc, words, 16)?;
    run(alloc, text.as_slice(), FIRST, arguments.as_slice())
}

// The arguments, 96 locals that are 0, three that are stored, and the stack. Word 320 is the first local, and word 419
// the first of the stack.
fn last_words(alloc: Global, arguments: &[u64], stack: &[u64]) -> Result<Vec<u64>, Fail> {
    let mut words = arguments.to_vec(alloc)?;
    for _ in 0..96 {
        words.push(0)?;
    }
    words.extend_from_slice(&[18_446_744_073_709_551_609, 3, 18_446_744_073_709_551_609])?;
    words.extend_from_slice(stack)?;
    Ok(words)
}

#[test]
fn a_hundred_and_twenty_far_places(rt: HostRuntime) -> Result<(), Fail> {
    let alloc = rt.alloc();
    let words = numbers(alloc, 1_000, 320)?;
    let ran = run_last(alloc, words.as_slice())?;
    let last = words.as_slice().get(304..320).ok_or("the last argument")?;
    assert_eq!(rt; ran.result.as_slice(), last);
    let expected = last_words(alloc, words.as_slice(), last)?;
    check_frame(&rt, &ran, expected.as_slice());
    Ok(())
}
