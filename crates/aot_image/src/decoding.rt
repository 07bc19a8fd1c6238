// Bytes as an image.
ghost use Rattle.std.specs.Prelude.{◌≡◌, ◌↔◌, IsTrue, [], IfOk};
ghost use Rattle.il_model.specs.Canonical.{canonical_text};
ghost use Rattle.cil_verify.specs.Verifies.{IsVerified};
ghost use Rattle.il_model.specs.ClassRules.{HasTypes};
ghost use Rattle.aot_image.specs.declared.image.ReadError.TheVariants as error;
ghost use Rattle.aot_image.specs.declared.image.ImageCause.TheVariants as cause;
ghost use Rattle.aot_image.specs.ImageReading.{Reads, ReadsAs, fault_at, read_mark, read_counts, read_words_from, read_tables};
ghost use Rattle.aot_image.specs.ImageSpelling.{ImageData, image_bytes};
ghost use Rattle.aot_image.specs.ImageForm.{Answers, Gives, IsDecodedAs, IsImage, IsOf, JudgesText, data_of, text_at};

use crate::decoding_bodies::read_bodies;
use crate::decoding_cursor::{Cursor, fault};
use crate::decoding_entries::read_entries;
use crate::image::{Image, ImageCause, ImageFault, MAGIC, ReadError, VERSION};
use cil_verify::{Verified, fits_numbers, verify};
use il_model::Program;
use il_parse::{parse, texts_give_one_answer};
use il_print::print;
use mn_outside::{NoMemory, Refused};
use sqlite_items::Items;
use std::alloc::Global;

// The offset of the text.
const TEXT_AT: u64 = 28;

/// The image that these bytes are, or the first fault in the order of their offsets. Nothing is taken of
/// memory that the bytes read so far do not pay for, whatever counts they have. This project's own.
/// `docs/IMAGE.md` has the fields and the faults.
pub fn decode(alloc: Global, bytes: &[u8]) -> Result<Image, Refused<ImageFault>>
    // Which image it is, or which fault.
    ensures exact { Answers bytes.now result }

    // What is decoded is an image, and the bytes are its spelling.
    ensures found { IfOk result (λ image. IsImage (data_of image) × (bytes.now ≡ image_bytes (data_of image))) }

    // The states are those of the program.
    ensures verified { IfOk result (λ image. IsVerified image.program) }

    // The spelling of an image is decoded as that image, unless memory runs out.
    ensures only { (image : ImageData) → IsImage image → bytes.now ≡ image_bytes image → IsDecodedAs image result }
{
    texts_give_one_answer();
    answered(alloc, bytes)
}

fn answered(alloc: Global, bytes: &[u8]) -> Result<Image, Refused<ImageFault>>
    ensures exact { Answers bytes.now result }
    ensures verified { IfOk result (λ image. IsVerified image.program) }
{
    match decoded(alloc, bytes) {
        Ok(image) => Ok(image),
        Err(ReadError::Fault(fault)) => Err(Refused::Fault(fault)),
        Err(ReadError::Memory) => Err(Refused::NoMemory),
    }
}

/// How many bytes the text has, and how many rows and words the tables have.
#[derive(Clone, Copy, Debug, PartialEq, Eq)]
pub(crate) struct Counts {
    pub(crate) text: u32,
    pub(crate) bodies: u32,
    pub(crate) got: u32,
    pub(crate) code: u32,
}

fn decoded(alloc: Global, bytes: &[u8]) -> Result<Image, ReadError>
    ensures gives { Gives bytes.now result }
    ensures verified { IfOk result (λ image. IsVerified image.program) }
{
    let mut cursor = Cursor::new(bytes);
    let counts = read_counts(&mut cursor)?;
    let text = cursor.bytes(counts.text as usize)?;
    let program = accepted(alloc, text)?;
    read_tables(alloc, program, &mut cursor, counts)
}

// The fields before the text.
#[tactic(auto, unfolding(crate::specs::ImageReading::read_counts))]
fn read_counts(cursor: &mut Cursor<'_>) -> Result<Counts, ReadError>
    ensures { Reads (read_counts cursor.old) result cursor.new }
{
    read_mark(cursor)?;
    let text = cursor.word()?;
    let bodies = cursor.word()?;
    let got = cursor.word()?;
    let code = cursor.word()?;
    Ok(Counts {
        text,
        bodies,
        got,
        code,
    })
}

// The first two fields.
#[tactic(auto, unfolding(crate::specs::ImageReading::read_mark))]
fn read_mark(cursor: &mut Cursor<'_>) -> Result<(), ReadError>
    ensures { Reads (read_mark cursor.old) result cursor.new }
{
    let mark = cursor.bytes(8)?;
    if mark != MAGIC {
        return Err(fault(0, ImageCause::Magic));
    }
    let version = cursor.word()?;
    if version != VERSION {
        return Err(fault(8, ImageCause::Version));
    }
    Ok(())
}

// The accepted program whose canonical text this is.
#[tactic(auto, using(crate::proofs::TextLemmas::of_accepted, crate::proofs::TextLemmas::none_of_none))]
fn accepted(alloc: Global, text: &[u8]) -> Result<Verified, ReadError>
    ensures { JudgesText text.now result }
{
    match parse(alloc, text) {
        Ok(parsed) => verified(alloc, text, parsed.program),
        Err(Refused::Fault(_)) => Err(bad_text()),
        Err(Refused::NoMemory) => Err(ReadError::Memory),
    }
}

// The same of the program that the text is.
#[tactic(auto, using(crate::proofs::TextLemmas::not_canonical, crate::proofs::TextLemmas::not_verified, crate::proofs::TextLemmas::judged))]
fn verified(alloc: Global, text: &[u8], program: Program) -> Result<Verified, ReadError>
    requires { IsOf text.now program }
    ensures { JudgesText text.now result }
{
    texts_give_one_answer();
    if !is_canonical(alloc, text, &program)? {
        return Err(bad_text());
    }
    if !fits_numbers(&program) {
        return Err(ReadError::Memory);
    }
    match verify(alloc, program) {
        Ok(verified) => Ok(verified),
        Err(Refused::Fault(_)) => Err(bad_text()),
        Err(Refused::NoMemory) => Err(ReadError::Memory),
    }
}

// Whether a text is the canonical one of a program.
fn is_canonical(alloc: Global, text: &[u8], program: &Program) -> Result<bool, NoMemory>
    ensures { IfOk result (λ answer. IsTrue answer ↔ (text.now ≡ canonical_text program.now)) }
{
    let canonical = print(alloc, program)?;
    Ok(text == canonical.as_slice())
}

fn bad_text() -> ReadError
    ensures { result ≡ error.Fault (fault_at text_at cause.BadText) }
{
    fault(TEXT_AT, ImageCause::BadText)
}

// What stands behind the text of this program.
#[tactic(auto, unfolding(crate::specs::ImageReading::read_tables))]
fn read_tables(
    alloc: Global,
    program: Verified,
    cursor: &mut Cursor<'_>,
    counts: Counts,
) -> Result<Image, ReadError>
    requires { HasTypes program.program }
    ensures read { ReadsAs data_of (read_tables program.program counts cursor.old) result cursor.new }
    ensures program { IfOk result (λ image. image.program ≡ program) }
{
    let bodies = read_bodies(alloc, program.program(), cursor, counts.bodies, counts.code)?;
    let got = read_entries(alloc, program.program(), cursor, counts.got)?;
    let code = read_words(alloc, cursor, counts.code)?;
    cursor.end()?;
    Ok(Image {
        program,
        bodies,
        got,
        code,
    })
}

// So many words of the code.
fn read_words(alloc: Global, cursor: &mut Cursor<'_>, count: u32) -> Result<Items<u32>, ReadError>
    ensures { Reads (read_words_from count [] cursor.old) result cursor.new }
{
    let mut found = Items::new(alloc);
    for _turn in 0..count {
        let word = cursor.word()?;
        found.push(word)?;
    }
    Ok(found)
}
