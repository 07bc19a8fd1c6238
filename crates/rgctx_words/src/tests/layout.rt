// Addresses, places, node words and directory words.
use crate::{
    ContextPlace, Definition, DirectoryWord, NodeWord, context_address, context_index, depth_of,
    row_address, row_at, slot_of,
};
use std::test::Fail;

#[rattlefmt::skip]
const NODE_WORDS: [(NodeWord, u64); 4] = [
    (NodeWord { definition: 4, first: 5, second: 0, third: 0 }, 0x0004_0005_0000_0000),
    (NodeWord { definition: 29, first: 6, second: 0, third: 0 }, 0x001D_0006_0000_0000),
    (NodeWord { definition: 0x8005, first: 18, second: 2, third: 21 }, 0x8005_0012_0002_0015),
    (NodeWord { definition: 1, first: 0, second: 0, third: 0 }, 0x0001_0000_0000_0000),
];

#[rattlefmt::skip]
const DEFINITIONS: [(u16, Option<Definition>); 14] = [
    (0, None),
    (1, Some(Definition::Int32)),
    (2, Some(Definition::Int64)),
    (3, Some(Definition::Bool)),
    (4, Some(Definition::Vector)),
    (5, None),
    (14, None),
    (15, Some(Definition::Image)),
    (16, Some(Definition::Class(0))),
    (29, Some(Definition::Class(13))),
    (0x7FFF, Some(Definition::Class(32_751))),
    (0x8000, Some(Definition::Method(0))),
    (0x8005, Some(Definition::Method(5))),
    (0xFFFF, Some(Definition::Method(32_767))),
];

#[rattlefmt::skip]
const PLACES: [(u32, ContextPlace, u64); 11] = [
    (0, ContextPlace::Node(0), 0x2000_0000),
    (4_095, ContextPlace::Node(4_095), 0x2000_7FF8),
    (4_096, ContextPlace::Directory(0), 0x2000_8000),
    (12_287, ContextPlace::Directory(8_191), 0x2001_7FF8),
    (12_288, ContextPlace::Root(0), 0x2001_8000),
    (16_383, ContextPlace::Root(4_095), 0x2001_FFF8),
    (16_384, ContextPlace::Link(0), 0x2002_0000),
    (16_385, ContextPlace::Entry(0, 1), 0x2002_0008),
    (16_391, ContextPlace::Entry(0, 7), 0x2002_0038),
    (16_392, ContextPlace::Link(1), 0x2002_0040),
    (81_919, ContextPlace::Entry(8_191, 7), 0x2009_FFF8),
];

#[test]
fn node_words_are_the_stated_ones(rt: HostRuntime) -> Result<(), Fail> {
    for (node, word) in NODE_WORDS {
        assert_eq!(rt; node.word(), word);
        assert_eq!(rt; NodeWord::of(word), node);
    }
    for (number, definition) in DEFINITIONS {
        assert_eq!(rt; Definition::of(number), definition);
    }
    assert_eq!(rt;
        [
            Definition::Class(13).number(),
            Definition::Method(5).number()
        ],
        [29, 0x8005]
    );
    Ok(())
}

#[test]
fn places_lie_at_the_stated_addresses(rt: HostRuntime) -> Result<(), Fail> {
    for (index, place, address) in PLACES {
        assert_eq!(rt; context_index(address), Some(index));
        assert!(rt; index < 81_920);
        assert_eq!(rt; context_address(index), address);
        assert_eq!(rt; ContextPlace::at(index), place);
    }
    for address in [0, 0x1FFF_FFF8, 0x2000_0004, 0x200A_0000, u64::MAX] {
        assert_eq!(rt; context_index(address), None);
    }
    Ok(())
}

#[test]
fn rows_and_entries_are_the_stated_ones(rt: HostRuntime) -> Result<(), Fail> {
    let second = DirectoryWord { node: 21, depth: 1 };
    assert_eq!(rt; second.word(), 5_377);
    assert_eq!(rt; DirectoryWord::of(5_377), second);
    assert_eq!(rt;
        [row_address(0), row_address(8_191)],
        [0x2002_0000, 0x2009_FFC0]
    );
    assert_eq!(rt; row_at(0x2002_0040), Some(1));
    for address in [0, 0x2001_FFC0, 0x2002_0008, 0x200A_0000] {
        assert_eq!(rt; row_at(address), None);
    }
    for (entry, depth, slot) in [(0, 0, 1), (6, 0, 7), (7, 1, 1), (8, 1, 2), (223, 31, 7)] {
        assert_eq!(rt; (depth_of(entry), slot_of(entry)), (depth, slot));
    }
    Ok(())
}
