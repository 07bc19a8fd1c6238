// Arguments as a body takes them, and results.
use crate::running::{UNTOUCHED, run};
use crate::texts::FIRST;
use std::alloc::Global;
use std::process::Abort;
use std::test::Fail;

const TEXT: &[u8] = b".class struct None { } .class struct One { .field int64 a }
.class struct Full { .field int64 a .field int64 b .field int64 c .field int64 d .field int64 e .field int64 f
  .field int64 g .field int64 h .field int64 i .field int64 j .field int64 k .field int64 l .field int64 m
  .field int64 n .field int64 o .field int64 p
  .method void Keep() { ret } }
.class P {
  .method static int32 Sum(int32, int32) {
    again: ldarg.0 ldarg.1 add starg 1 ldarg.0 ldc.i4 1 sub starg 0 ldarg.0 brtrue again ldarg.1 ret }
  .method static int32 Kept(bool) { ldarg.0 ret }
  .method static bool Cut(int32) { ldarg.0 ret }
  .method static int64 Second(int64, int64, int64) { ldarg.1 ret }
  .method static None Nothing(None) { .locals init (None) ldarg.0 stloc.0 ldloc.0 dup stloc.0 ret }
  .method static One Single(One) { .locals init (One) ldarg.0 stloc.0 ldloc.0 dup stloc.0 ret }
  .method static Full Whole(int32, Full, int32) { .locals init (int32, Full) ldarg.1 stloc.1 ldloc.1 dup stloc.1 ret }
  .method static void Main() { .entrypoint ret }
}
";

// That the method so many behind the first of `P` gives these words for these arguments, and writes no word more.
fn check_result(
    rt: &impl Abort,
    alloc: Global,
    method: u16,
    arguments: &[&[u64]],
    words: &[u64],
) -> Result<(), Fail> {
    let ran = run(alloc, TEXT, method, arguments)?;
    assert_eq!(rt; ran.result.len(), 16);
    for at in 0..ran.result.len() {
        match words.get(at) {
            Some(word) => assert_eq!(rt; ran.result[at], *word, "word {at} of method {method}"),
            None => assert_eq!(rt; ran.result[at], UNTOUCHED, "word {at} of method {method}"),
        }
    }
    Ok(())
}

const FULL: [u64; 16] = [
    11,
    12,
    13,
    14,
    15,
    16,
    17,
    18,
    19,
    20,
    21,
    22,
    23,
    24,
    25,
    18_446_744_073_709_551_615,
];

const SUM: u16 = FIRST + 1;

#[test]
fn a_branch_to_the_first_instruction_copies_nothing(rt: HostRuntime) -> Result<(), Fail> {
    check_result(&rt, rt.alloc(), SUM, &[&[5], &[0]], &[15])
}

#[test]
fn bools_keep_eight_bits(rt: HostRuntime) -> Result<(), Fail> {
    let alloc = rt.alloc();
    check_result(&rt, alloc, SUM + 1, &[&[511]], &[255])?;
    check_result(&rt, alloc, SUM + 1, &[&[18_446_744_073_709_551_360]], &[0])?;
    check_result(&rt, alloc, SUM + 2, &[&[257]], &[1])?;
    check_result(&rt, alloc, SUM + 2, &[&[256]], &[0])
}

#[test]
fn each_argument_goes_to_its_place(rt: HostRuntime) -> Result<(), Fail> {
    check_result(
        &rt,
        rt.alloc(),
        SUM + 3,
        &[&[1], &[18_446_744_073_709_551_614], &[3]],
        &[18_446_744_073_709_551_614],
    )
}

#[test]
fn structs_are_copied_whole(rt: HostRuntime) -> Result<(), Fail> {
    let alloc = rt.alloc();
    check_result(&rt, alloc, SUM + 4, &[&[]], &[])?;
    check_result(&rt, alloc, SUM + 5, &[&[9]], &[9])?;
    check_result(&rt, alloc, SUM + 6, &[&[1], &FULL, &[2]], &FULL)
}
