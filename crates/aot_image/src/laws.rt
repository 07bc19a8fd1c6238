//! Laws of images.
ghost use Rattle.std.specs.Prelude.{◌≡◌, ℕ, List, Ok};
ghost use Rattle.il_model.specs.declared.program.Program.{Program};
ghost use Rattle.rgctx_fill.specs.ImageCatalogues.{IsImageCatalogue};
ghost use Rattle.aot_image.specs.ImageSpelling.{ImageData};
ghost use Rattle.aot_image.specs.ImageForm.{IsImage};
ghost use Rattle.aot_image.specs.Catalogued.{catalogue_of};
ghost use Rattle.aot_image.specs.Choosing.{chosen};
ghost use Rattle.aot_image.specs.ChoosingPicks.{Pick};
ghost use Rattle.aot_image.specs.Kept.{AreKeptPicks};

/// Over every image fills may start: its program, its compiled bodies and its closed entries are the catalogue of an
/// image, as the start of a fill asks for it. A law alone: it does nothing.
pub fn images_have_catalogues()
    ensures { (image : ImageData) → IsImage image → IsImageCatalogue (catalogue_of image) }
{}

/// What a choice leaves may be compiled: rows with its methods and keys meet all that is asked of the method and the key
/// of a compiled body, and no two of them are the same. A law alone: it does nothing.
pub fn choices_leave_kept_picks()
    ensures { (program : Program) (text : List ℕ) (picks : List Pick) → chosen program text ≡ Ok picks → AreKeptPicks program picks }
{}
