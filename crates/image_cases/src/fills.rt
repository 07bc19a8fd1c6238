// The closed entries of an image, filled one after the other.
ghost use Rattle.std.specs.Prelude.{IfOk, slice_index};
ghost use Rattle.rgctx_template.specs.Catalogue.{data_of};
ghost use Rattle.rgctx_fill.specs.ImageCatalogues.{IsImageCatalogue};
ghost use Rattle.rgctx_fill.specs.Ready.{IsReady, IsOn};
ghost use Rattle.aot_image.specs.ImageForm.{IsImage};
ghost use Rattle.aot_image.specs.ImageForm as form;
ghost use Rattle.image_cases.specs.Filling.{Meets};

use crate::images::{ENTRIES, image_of, text_of};
use aot_image::laws::images_have_catalogues;
use aot_image::{Image, decode};
use rgctx_fill::{Fill, FillStart, FillStep, opening_words};
use rgctx_template::Catalogue;
use rgctx_words::PlainWords;
use std::alloc::Global;
use std::process::Abort;
use std::test::Fail;

// What the entries hold: a new node for `int32[]`; a new node for `Cell` and one for `Cell::Go`, which no body
// serves; the size of an `int64`; the words of a `P` and one more; the place of the field and one more. Read
// again they hold the same.
#[rattlefmt::skip]
const VALUES: [(u16, u64); 10] = [
    (0, 21), (1, 23), (2, 4), (3, 1), (4, 1),
    (4, 1), (3, 1), (2, 4), (1, 23), (0, 21),
];

// No fill of these takes more turns.
const MOST_TURNS: u32 = 1_000;

// A fill of a closed entry, at its first turn.
fn begun(alloc: Global, cat: &Catalogue, words: &mut PlainWords, entry: u16) -> Result<Fill, Fail>
    requires image { IsImageCatalogue (data_of cat.now) }
    requires met { Meets cat.now words.old }
    ensures met { Meets cat.now words.new }
    ensures ready { IfOk result (λ fill. IsReady (data_of cat.now) (slice_index words.new) fill × IsOn fill.stage) }
{
    if entry as usize >= cat.got.len() {
        return Err(Fail::new("no such entry"));
    }
    match Fill::start(alloc, cat, words, 1, entry)? {
        FillStart::Ready(fill) => Ok(fill),
        FillStart::Refused(_) => Err(Fail::new("a limit is passed")),
    }
}

// The value that the fill of a closed entry answers.
fn filled(alloc: Global, cat: &Catalogue, words: &mut PlainWords, entry: u16) -> Result<u64, Fail>
    requires image { IsImageCatalogue (data_of cat.now) }
    requires met { Meets cat.now words.old }
    ensures { Meets cat.now words.new }
{
    let mut fill = begun(alloc, cat, words, entry)?;
    for _ in 0..MOST_TURNS {
        match fill.turn(words) {
            FillStep::More => {}
            FillStep::Value(value) => return Ok(value),
            FillStep::Full(_, _) => return Err(Fail::new("no place for a word")),
        }
    }
    Err(Fail::new("too many turns"))
}

fn check_fills(rt: &impl Abort, alloc: Global, cat: &Catalogue) -> Result<(), Fail>
    requires { IsImageCatalogue (data_of cat.now) }
{
    let mut words = opening_words(alloc, cat.program)?;
    for (entry, value) in VALUES {
        let found = filled(alloc, cat, &mut words, entry)?;
        assert_eq!(rt; found, value);
    }
    Ok(())
}

fn check_image(rt: &impl Abort, alloc: Global, image: &Image) -> Result<(), Fail>
    requires { IsImage (form.data_of image.now) }
{
    images_have_catalogues();
    let cat = Catalogue {
        program: &image.program.program,
        bodies: &image.bodies,
        got: &image.got,
    };
    check_fills(rt, alloc, &cat)
}

#[test]
fn closed_entries_of_an_image_are_filled(rt: HostRuntime) -> Result<(), Fail> {
    let alloc = rt.alloc();
    let text = text_of(alloc)?;
    let (bytes, _) = image_of(alloc, text.as_slice(), 0, 5, &ENTRIES)?;
    match decode(alloc, bytes.as_slice()) {
        Ok(image) => check_image(&rt, alloc, &image),
        Err(_) => Err(Fail::new("no image")),
    }
}
