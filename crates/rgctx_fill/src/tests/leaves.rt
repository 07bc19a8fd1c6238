// The words of the leaves, against words written by hand.
use crate::beginning::leaf_words;
use std::test::Fail;

// The entry point is method 12, of class 14.
#[rattlefmt::skip]
const LEAVES: [u64; 21] = [
    0, 0x000F_0000_0000_0000, 0x0001_0000_0000_0000, 0x0002_0000_0000_0000, 0x0003_0000_0000_0000,
    0x0010_0000_0000_0000, 0x0011_0000_0000_0000, 0x0012_0000_0000_0000, 0x0013_0000_0000_0000,
    0x0014_0000_0000_0000, 0x0015_0000_0000_0000, 0x0016_0000_0000_0000, 0x0017_0000_0000_0000,
    0x0018_0000_0000_0000, 0x0019_0000_0000_0000, 0x001A_0000_0000_0000, 0x001B_0000_0000_0000,
    0x001C_0000_0000_0000, 0x001E_0000_0000_0000, 0x8000_0011_0000_0000, 0x800C_0012_0000_0000,
];

#[test]
fn a_run_begins_with_the_leaves(rt: HostRuntime) -> Result<(), Fail> {
    assert_eq!(rt; leaf_words(12, 14), LEAVES);
    Ok(())
}
