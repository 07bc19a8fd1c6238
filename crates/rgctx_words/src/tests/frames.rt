// Frames are entered, written, found and left.
use crate::{NewFrame, Stack, frame_address, interpreted_length, place_offset};
use std::test::Fail;

const MAIN: NewFrame = NewFrame {
    back: 0,
    node: 20,
    target: 0,
    words: 24,
};

const CALLED: NewFrame = NewFrame {
    back: 0x1_0040,
    node: 21,
    target: 0x4000_0040,
    words: 32,
};

#[rattlefmt::skip]
const HEADERS: [(u32, u64); 18] = [
    (0, 0), (1, 0), (2, 20), (3, 0), (4, 0), (5, 24), (6, 0), (7, 0), (8, 0),
    (24, 0x4000_0000), (25, 0x1_0040), (26, 21), (27, 0x4000_0040), (28, 0), (29, 32), (30, 0), (31, 0), (55, 0),
];

#[rattlefmt::skip]
const LEVELS: [(u64, Option<u32>); 5] = [
    (0x4000_0000, Some(0)),
    (0x4000_00C0, Some(1)),
    (0x4000_00C8, None),
    (0x4000_01C0, None),
    (0, None),
];

#[rattlefmt::skip]
const INDEXES: [(u64, Option<u32>); 5] = [
    (0x4000_0000, Some(0)),
    (0x4000_01B8, Some(55)),
    (0x4000_01C0, None),
    (0x4000_0004, None),
    (0x3FFF_FFF8, None),
];

#[test]
fn frames_are_entered_and_left(rt: HostRuntime) -> Result<(), Fail> {
    let mut stack = Stack::new(rt.alloc())?;
    stack.enter(&MAIN)?;
    stack.enter(&CALLED)?;
    assert_eq!(rt; [stack.depth(), stack.end(), stack.base(1)], [2, 56, 24]);
    for (index, word) in HEADERS {
        assert!(rt; index < stack.end());
        assert_eq!(rt; stack.word(index), word);
    }
    for (address, level) in LEVELS {
        assert_eq!(rt; stack.level_at(address), level);
    }
    for (address, index) in INDEXES {
        assert_eq!(rt; stack.index_at(address), index);
    }
    stack.put(9, 77);
    stack.leave_to(0);
    assert_eq!(rt; [stack.depth(), stack.end()], [1, 24]);
    assert_eq!(rt; [stack.word(9), stack.current_address()], [77, 0x4000_0000]);
    Ok(())
}

#[test]
fn interpreted_frames_have_sixteen_words_a_place(rt: HostRuntime) -> Result<(), Fail> {
    let lengths = [
        place_offset(3),
        interpreted_length(2, 1),
        interpreted_length(120, 120),
    ];
    assert_eq!(rt; lengths, [56, 57, 2_064]);
    assert_eq!(rt; frame_address(24), 0x4000_00C0);
    Ok(())
}
