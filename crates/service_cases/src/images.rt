// The image that services are asked of.
ghost use Rattle.std.specs.Prelude.{◌≡◌, IfOk};
ghost use Rattle.std.specs.List.{list_all};
ghost use Rattle.rgctx_fill.specs.Serving.{IsServable};
ghost use Rattle.rgctx_fill.specs.ThreadStates.{image_of};
ghost use Rattle.aot_image.specs.ImageForm.{IsImage};
ghost use Rattle.aot_image.specs.ImageForm as form;
ghost use Rattle.service_cases.specs.Served.{has_frame, has_few, are_four, Meets};

use aot_image::laws::images_have_catalogues;
use aot_image::{Image, decode};
use il_model::{BodyRow, MethodDef};
use il_parse::parse;
use il_print::print;
use rgctx_fill::{FrameCount, ImageView, opening_words};
use rgctx_template::Catalogue;
use rgctx_words::PlainWords;
use std::alloc::Global;
use std::test::Fail;

// Classes 13 (`P`), 14 (`S`, of two words) and 15 (`W`, of 17 words), whose definitions have the numbers 29 to 31,
// and methods 12 (`Run`), 13 (`Main`), 14 (`Keep`) and 15 (`Set`).
pub(crate) const PROGRAM: &[u8] = b".class P implements Rt.IRun {
  .method virtual void Run() { ret }
  .method static void Main() { .entrypoint ldstr \"x\" pop ldc.i4 0 newarr int32 pop ret }
  .method static S Keep(S, bool) { ldarg 0 ret }
}
.class struct S {
  .field int32 a .field int64 b
  .method void Set(bool) { ret }
}
.class struct W {
  .field int64 a .field int64 b .field int64 c .field int64 d .field int64 e .field int64 f
  .field int64 g .field int64 h .field int64 i .field int64 j .field int64 k .field int64 l
  .field int64 m .field int64 n .field int64 o .field int64 p .field int64 q
}";

// The bodies of `Main` at code word 1, with a frame of 32 words, and of `Run` at code word 2, with one of 8.
const BODIES: [u8; 24] = [
    13, 0, 0, 1, 0, 0, 0, 32, 0, 0, 0, 0, //
    12, 0, 0, 2, 0, 0, 0, 8, 0, 0, 0, 0, //
];

// Closed entries: the type `int32[]`, the methods `Keep` and `Set`, the size of an `int64`, the type `W`.
const FIRST_ENTRIES: [u8; 21] = [
    0, 4, 0, 1, 0, //
    1, 14, 0, 29, 0, //
    1, 15, 0, 30, 0, //
    2, 2, 0, //
    0, 31, 0, //
];

// Behind them comes the type of some vectors round an `int32`, and then the words of a `P` and the place of the second
// field of `S`.
const LAST_ENTRIES: [u8; 8] = [
    3, 29, 0, //
    4, 30, 0, 1, 0, //
];

// The rows of the closed entries.
fn entries(alloc: Global, vectors: u32) -> Result<Vec<u8>, Fail> {
    let mut rows = Vec::new(alloc);
    rows.extend_from_slice(&FIRST_ENTRIES)?;
    rows.push(0)?;
    for _ in 0..vectors {
        rows.extend_from_slice(&[4, 0])?;
    }
    rows.extend_from_slice(&[1, 0])?;
    rows.extend_from_slice(&LAST_ENTRIES)?;
    Ok(rows)
}

// The bytes of the image: two bodies, eight closed entries, three code words.
fn bytes(alloc: Global, vectors: u32) -> Result<Vec<u8>, Fail> {
    let parsed = parse(alloc, PROGRAM).ok().ok_or("the text parses")?;
    let text = print(alloc, &parsed.program).ok().ok_or("memory")?;
    let len = u32::try_from(text.len()).ok().ok_or("a short text")?;
    let mut out = Vec::new(alloc);
    out.extend_from_slice(b"MNAOTIMG")?;
    out.extend_from_slice(&[1, 0, 0, 0])?;
    out.extend_from_slice(&len.to_le_bytes())?;
    out.extend_from_slice(&[2, 0, 0, 0, 8, 0, 0, 0, 3, 0, 0, 0])?;
    out.extend_from_slice(text.as_slice())?;
    out.extend_from_slice(&BODIES)?;
    out.extend_from_slice(entries(alloc, vectors)?.as_slice())?;
    out.extend_from_slice(&[0x73, 0, 0x10, 0, 0x73, 0, 0x10, 0, 0x73, 0, 0x10, 0])?;
    Ok(out)
}

/// The image, whose closed entry 5 is the type of so many vectors round an `int32`.
pub(crate) fn image(alloc: Global, vectors: u32) -> Result<Image, Fail>
    ensures { IfOk result (λ image. IsImage (form.data_of image)) }
{
    let bytes = bytes(alloc, vectors)?;
    match decode(alloc, bytes.as_slice()) {
        Ok(image) => Ok(image),
        Err(_) => Err(Fail::new("no image")),
    }
}

// Each method has four places and a list of four addresses, so an interpreted frame has 92 words.
const COUNT: FrameCount = FrameCount { places: 4, list: 4 };

/// The counts of the interpreted frames, for each method of the image.
pub(crate) fn counts(alloc: Global, image: &Image) -> Result<Vec<FrameCount>, Fail> {
    let count = image.program.program.methods.len();
    Ok(Vec::from_elem(alloc, COUNT, count)?)
}

// Whether each method has three parameters at most, so no more than four arguments.
fn have_few(methods: &[MethodDef]) -> bool
    ensures { result ≡ list_all has_few methods.now }
{
    methods.iter().all(|method| method.params.len() <= 3)
}

// Whether each frame has four places and a list of four addresses.
fn are_four(frames: &[FrameCount]) -> bool
    ensures { result ≡ list_all are_four frames.now }
{
    frames
        .iter()
        .all(|count| count.places == 4 && count.list == 4)
}

// Whether each body has a frame.
fn have_frames(rows: &[BodyRow]) -> bool
    ensures { result ≡ list_all has_frame rows.now }
{
    rows.iter().all(|row| 8 <= row.frame && row.frame <= 2_064)
}

/// What services are asked over.
pub(crate) fn view<'a>(image: &'a Image, frames: &'a [FrameCount]) -> Result<ImageView<'a>, Fail>
    requires { IsImage (form.data_of image.now) }
    ensures { IfOk result (λ view. IsServable (image_of view)) }
{
    images_have_catalogues();
    let cat = Catalogue {
        program: &image.program.program,
        bodies: &image.bodies,
        got: &image.got,
    };
    if !have_frames(image.bodies.as_slice()) {
        return Err(Fail::new("a body without a frame"));
    }
    let methods = image.program.program.methods.as_slice();
    if frames.len() != methods.len() {
        return Err(Fail::new("a method without counts"));
    }
    if !have_few(methods) {
        return Err(Fail::new("a method with many arguments"));
    }
    if !are_four(frames) {
        return Err(Fail::new("other counts"));
    }
    Ok(ImageView {
        cat,
        code: image.code.as_slice(),
        frames,
    })
}

/// The context words with which a run begins.
pub(crate) fn opened(alloc: Global, view: &ImageView) -> Result<PlainWords, Fail>
    requires { IsServable (image_of view.now) }
    ensures { IfOk result (λ words. Meets view.now.cat words) }
{
    let words = opening_words(alloc, view.cat.program)?;
    Ok(words)
}
