// Images as bytes: what is read is written again, and the first fault of damaged ones.
use aot_image::ImageCause::{BadTable, BadText, Magic, Short, Trailing, Version};
use aot_image::{Image, ImageCause, ImageFault, decode, encode};
use il_parse::parse;
use il_print::print;
use mn_outside::Refused;
use std::alloc::Global;
use std::process::Abort;
use std::test::Fail;

// Classes 13 and 14, whose definitions have the numbers 29 and 30, and methods 12 (`Go`) and 13 (`Main`).
const PROGRAM: &[u8] =
    b".class Cell { .field int32 value .method static void Go() { ret } } .class P { .method static void Main() { .entrypoint ret } }";

// The code of each image: two words, whose second is 0x00100073.
const CODE: [u8; 8] = [0, 0, 0, 0, 0x73, 0, 0x10, 0];

// The canonical text of the program.
pub(crate) fn text_of(alloc: Global) -> Result<Vec<u8>, Fail> {
    let parsed = parse(alloc, PROGRAM).ok().ok_or("the text parses")?;
    let text = print(alloc, &parsed.program).ok().ok_or("memory")?;
    Ok(text)
}

// An image with this text and these rows, and where the rows begin.
pub(crate) fn image_of(
    alloc: Global,
    text: &[u8],
    bodies: u32,
    got: u32,
    rows: &[u8],
) -> Result<(Vec<u8>, usize), Fail> {
    let len = u32::try_from(text.len()).ok().ok_or("a short text")?;
    let mut out = Vec::new(alloc);
    out.extend_from_slice(b"MNAOTIMG")?;
    out.extend_from_slice(&[1, 0, 0, 0])?;
    out.extend_from_slice(&len.to_le_bytes())?;
    out.extend_from_slice(&bodies.to_le_bytes())?;
    out.extend_from_slice(&got.to_le_bytes())?;
    out.extend_from_slice(&[2, 0, 0, 0])?;
    out.extend_from_slice(text)?;
    let start = out.len();
    out.extend_from_slice(rows)?;
    out.extend_from_slice(&CODE)?;
    Ok((out, start))
}

// That this fault is the first one.
fn check_fault(
    rt: &impl Abort,
    alloc: Global,
    bytes: &[u8],
    offset: usize,
    cause: ImageCause,
) -> Result<(), Fail> {
    let offset = u64::try_from(offset).ok().ok_or("an offset")?;
    match decode(alloc, bytes) {
        Err(Refused::Fault(fault)) => assert_eq!(rt; fault, ImageFault { offset, cause }),
        Err(Refused::NoMemory) => assert!(rt; false, "no memory at {offset}"),
        Ok(_) => assert!(rt; false, "an image, without the fault at {offset}"),
    }
    Ok(())
}

// The rows of `Main` and of `Go`.
const BODIES: [u8; 24] = [
    13, 0, 0, 1, 0, 0, 0, 8, 0, 0, 0, 0, //
    12, 0, 0, 1, 0, 0, 0, 16, 8, 0, 0, 0, //
];

// Of each kind one entry: `int32[]`, `Cell::Go`, the size of `int64`, the words of `P`, the field of `Cell`.
pub(crate) const ENTRIES: [u8; 21] = [
    0, 4, 0, 1, 0, //
    1, 12, 0, 29, 0, //
    2, 2, 0, //
    3, 30, 0, //
    4, 29, 0, 0, 0, //
];

// That an image is read with as many rows, and written as the same bytes.
fn check_whole(
    rt: &impl Abort,
    alloc: Global,
    bodies: u32,
    got: u32,
    rows: &[u8],
) -> Result<(), Fail> {
    let text = text_of(alloc)?;
    let (bytes, _) = image_of(alloc, text.as_slice(), bodies, got, rows)?;
    match decode(alloc, bytes.as_slice()) {
        Ok(image) => {
            check_counts(rt, &image, bodies, got);
            let again = encode(alloc, &image).ok().ok_or("memory")?;
            assert_eq!(rt; again.as_slice(), bytes.as_slice());
        }
        Err(_) => assert!(rt; false, "an image"),
    }
    Ok(())
}

fn check_counts(rt: &impl Abort, image: &Image, bodies: u32, got: u32) {
    assert_eq!(rt; image.bodies.len(), bodies as usize);
    assert_eq!(rt; image.got.len(), got as usize);
    assert_eq!(rt; image.code.as_slice(), [0, 0x0010_0073].as_slice());
    for row in image.bodies.as_slice() {
        assert_eq!(rt; row.entry, 1);
        assert!(rt; row.frame == 8 || row.frame == 2064);
        assert_eq!(rt; row.handlers.len(), 0);
    }
}

#[test]
fn writes_what_it_read(rt: HostRuntime) -> Result<(), Fail> {
    let alloc = rt.alloc();
    check_whole(&rt, alloc, 0, 0, &[])?;
    check_whole(&rt, alloc, 2, 0, &BODIES)?;
    check_whole(&rt, alloc, 0, 5, &ENTRIES)
}

// So many vectors round a scalar, in a row of a closed entry.
fn nested(alloc: Global, levels: usize) -> Result<Vec<u8>, Fail> {
    let mut row = Vec::new(alloc);
    row.push(0)?;
    for _ in 1..levels {
        row.extend_from_slice(&[4, 0])?;
    }
    row.extend_from_slice(&[1, 0])?;
    Ok(row)
}

#[test]
fn takes_768_levels_and_refuses_769(rt: HostRuntime) -> Result<(), Fail> {
    let alloc = rt.alloc();
    let row = nested(alloc, 768)?;
    check_whole(&rt, alloc, 0, 1, row.as_slice())?;
    let text = text_of(alloc)?;
    let row = nested(alloc, 769)?;
    let (bytes, start) = image_of(alloc, text.as_slice(), 0, 1, row.as_slice())?;
    check_fault(&rt, alloc, bytes.as_slice(), start, BadTable)
}

// A row of a closed entry, another one for each number: a scalar or a class in so many vectors, by one of
// the kinds that name a type alone.
fn put_entry(rows: &mut Vec<u8>, number: usize) -> Result<(), Fail> {
    let kind = match number % 3 {
        0 => 0,
        1 => 2,
        _ => 3,
    };
    let definition = match number / 3 % 18 {
        0 => 1,
        1 => 2,
        2 => 3,
        class => u8::try_from(13 + class).ok().ok_or("a class")?,
    };
    rows.push(kind)?;
    for _ in 0..number / 54 {
        rows.extend_from_slice(&[4, 0])?;
    }
    rows.extend_from_slice(&[definition, 0])?;
    Ok(())
}

#[test]
fn takes_1792_entries_and_no_more(rt: HostRuntime) -> Result<(), Fail> {
    let alloc = rt.alloc();
    let text = text_of(alloc)?;
    let mut rows = Vec::new(alloc);
    for number in 0..1792 {
        put_entry(&mut rows, number)?;
    }
    let last = rows.len();
    put_entry(&mut rows, 1792)?;
    let (bytes, start) = image_of(alloc, text.as_slice(), 0, 1793, rows.as_slice())?;
    let offset = start.checked_add(last).ok_or("an offset")?;
    check_fault(&rt, alloc, bytes.as_slice(), offset, BadTable)
}

// Where the fields of an image with a body and an entry begin behind its text, and where it ends.
const FIELDS: [usize; 10] = [0, 2, 3, 7, 11, 12, 13, 15, 19, 23];

// The first field that is not whole in so many bytes, where the rows begin at `start`.
fn cut_field(length: usize, start: usize) -> usize {
    let mut first = 0;
    for field in [8, 12, 16, 20, 24, 28] {
        if field <= length {
            first = field;
        }
    }
    if start <= length {
        for field in FIELDS {
            if field <= length - start {
                first = start + field;
            }
        }
    }
    first
}

#[test]
fn refuses_each_prefix_and_one_byte_more(rt: HostRuntime) -> Result<(), Fail> {
    let alloc = rt.alloc();
    let text = text_of(alloc)?;
    let rows = [13, 0, 0, 1, 0, 0, 0, 8, 0, 0, 0, 0, 2, 1, 0];
    let (bytes, start) = image_of(alloc, text.as_slice(), 1, 1, &rows)?;
    for length in 0..bytes.len() {
        let (front, _) = bytes.as_slice().split_at(length);
        check_fault(&rt, alloc, front, cut_field(length, start), Short)?;
    }
    let mut longer = bytes.clone()?;
    longer.push(0)?;
    check_fault(&rt, alloc, longer.as_slice(), bytes.len(), Trailing)
}

#[test]
fn refuses_the_head_and_the_text(rt: HostRuntime) -> Result<(), Fail> {
    let alloc = rt.alloc();
    let text = text_of(alloc)?;
    let (bytes, _) = image_of(alloc, text.as_slice(), 0, 0, &[])?;
    for (place, byte, offset, cause) in [
        (0, 0x4e, 0, Magic),
        (7, 0x67, 0, Magic),
        (8, 3, 8, Version),
        (11, 1, 8, Version),
        (28, b' ', 28, BadText),
        (29, b' ', 28, BadText),
    ] {
        let mut changed = bytes.clone()?;
        if let Some(at) = changed.get_mut(place) {
            *at = byte;
        }
        check_fault(&rt, alloc, changed.as_slice(), offset, cause)?;
    }
    let mut spaced = text.clone()?;
    spaced.push(b' ')?;
    let (bytes, _) = image_of(alloc, spaced.as_slice(), 0, 0, &[])?;
    check_fault(&rt, alloc, bytes.as_slice(), 28, BadText)
}

// Counts far past the bytes.
#[test]
fn takes_counts_at_their_word_only_as_far_as_bytes_go(rt: HostRuntime) -> Result<(), Fail> {
    let alloc = rt.alloc();
    let text = text_of(alloc)?;
    let (bytes, start) = image_of(alloc, text.as_slice(), 4_294_967_295, 4_294_967_295, &[])?;
    check_fault(&rt, alloc, bytes.as_slice(), start, BadTable)
}

type Row = (u32, u32, &'static [u8], usize);

// That each of these images is refused at the row that begins so far behind the text.
fn check_rows(rt: &impl Abort, alloc: Global, rows: &[Row]) -> Result<(), Fail> {
    let text = text_of(alloc)?;
    for (bodies, got, bytes, at) in rows {
        let (image, start) = image_of(alloc, text.as_slice(), *bodies, *got, *bytes)?;
        let offset = start.checked_add(*at).ok_or("a small offset")?;
        check_fault(rt, alloc, image.as_slice(), offset, BadTable)?;
    }
    Ok(())
}

const BAD_BODIES: [Row; 14] = [
    // no method, no body, the method of started threads
    (1, 0, &[99, 0, 0, 1, 0, 0, 0, 8, 0, 0, 0, 0], 0),
    (1, 0, &[11, 0, 0, 1, 0, 0, 0, 8, 0, 0, 0, 0], 0),
    (1, 0, &[0, 0, 0, 1, 0, 0, 0, 8, 0, 0, 0, 0], 0),
    // a key too many
    (1, 0, &[13, 0, 1, 0, 1, 0, 0, 0, 8, 0, 0, 0, 0], 0),
    // the word of the code
    (1, 0, &[13, 0, 0, 0, 0, 0, 0, 8, 0, 0, 0, 0], 0),
    (1, 0, &[13, 0, 0, 2, 0, 0, 0, 8, 0, 0, 0, 0], 0),
    (1, 0, &[13, 0, 0, 0, 1, 0, 0, 8, 0, 0, 0, 0], 0),
    // the frame
    (1, 0, &[13, 0, 0, 1, 0, 0, 0, 7, 0, 0, 0, 0], 0),
    (1, 0, &[13, 0, 0, 1, 0, 0, 0, 17, 8, 0, 0, 0], 0),
    (1, 0, &[13, 0, 0, 1, 0, 0, 0, 0, 0, 0, 1, 0], 0),
    // a clause too many
    (1, 0, &[13, 0, 0, 1, 0, 0, 0, 8, 0, 0, 0, 1, 1, 0, 0, 0], 0),
    // a row twice, and bad rows behind a good one
    (
        2,
        0,
        &[
            12, 0, 0, 1, 0, 0, 0, 8, 0, 0, 0, 0, 12, 0, 0, 1, 0, 0, 0, 9, 0, 0, 0, 0,
        ],
        12,
    ),
    (
        2,
        0,
        &[
            13, 0, 0, 1, 0, 0, 0, 8, 0, 0, 0, 0, 99, 0, 0, 1, 0, 0, 0, 8, 0, 0, 0, 0,
        ],
        12,
    ),
    (
        2,
        0,
        &[
            13, 0, 0, 1, 0, 0, 0, 8, 0, 0, 0, 0, 12, 0, 0, 1, 0, 0, 0, 7, 0, 0, 0, 0,
        ],
        12,
    ),
];

const BAD_ENTRIES: [Row; 12] = [
    // kinds and definitions
    (0, 1, &[5, 1, 0], 0),
    (0, 1, &[255, 1, 0], 0),
    (0, 1, &[0, 0, 0], 0),
    (0, 1, &[2, 31, 0], 0),
    (0, 1, &[2, 15, 0], 0),
    (0, 1, &[3, 4, 0, 5, 0], 0),
    // methods and fields
    (0, 1, &[1, 99, 0, 30, 0], 0),
    (0, 1, &[1, 12, 0, 30, 0], 0),
    (0, 1, &[4, 29, 0, 1, 0], 0),
    (0, 1, &[4, 1, 0, 0, 0], 0),
    // an entry twice, and a bad one behind a good one
    (0, 2, &[0, 29, 0, 0, 29, 0], 3),
    (0, 2, &[0, 4, 0, 2, 0, 6, 2, 0], 5),
];

#[test]
fn refuses_rows_of_bodies(rt: HostRuntime) -> Result<(), Fail> {
    check_rows(&rt, rt.alloc(), &BAD_BODIES)
}

#[test]
fn refuses_closed_entries(rt: HostRuntime) -> Result<(), Fail> {
    check_rows(&rt, rt.alloc(), &BAD_ENTRIES)
}
