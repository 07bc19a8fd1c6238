// The places of a program's definitions.
ghost use Rattle.std.specs.Prelude.{◌≡◌, ◌≤◌, ◌++◌, ◌∷◌, [], IfOk, OnOk, length, map, flat_map, option_to_list};
ghost use Rattle.il_model.specs.Bounds.{instrs_of, methods_of, all_methods};
ghost use Rattle.il_model.specs.Library.{library_classes, library_methods};
ghost use Rattle.il_parse.specs.Answer.{library_spot, spot_of, spots_of, spots_of_class, spots_of_method, spots_of_library_method};
ghost use Rattle.il_parse.specs.Places.{spots_of_library_class};

use crate::answer::Spots;
use crate::library::{library_classes, library_methods};
use crate::places::Places;
use il_model::{MethodDef, WrittenBody, WrittenClass, WrittenLine, WrittenMember, WrittenMethod};
use il_text::Spot;
use sqlite_items::Items;
use std::alloc::{AllocError, Global};

// The place of what the library defines.
const LIBRARY_SPOT: Spot = Spot { line: 1, column: 1 };

// The places of the library's classes.
fn put_library_classes(alloc: Global, found: &mut Items<Spots>) -> Result<(), AllocError>
    ensures { OnOk result (found.new ≡ found.old ++ map spots_of_library_class library_classes) }
{
    let classes = library_classes(alloc)?;
    for _class in classes.as_slice() {
        found.push(Spots {
            declared: LIBRARY_SPOT,
            code: Items::new(alloc),
        })?;
    }
    Ok(())
}

// The places of the text's classes.
fn put_classes(
    alloc: Global,
    places: &mut Places<'_>,
    classes: &[WrittenClass],
    found: &mut Items<Spots>,
) -> Result<(), AllocError>
    ensures spots { OnOk result (found.new ≡ found.old ++ map (spots_of_class places.old) classes.now) }
    ensures same { places.new ≡ places.old }
{
    for class in classes {
        found.push(Spots {
            declared: places.spot(class.at),
            code: Items::new(alloc),
        })?;
    }
    Ok(())
}

// The places of the code of one of the library's methods.
fn library_code(alloc: Global, method: &MethodDef) -> Result<Items<Spot>, AllocError>
    ensures { IfOk result (λ code. code ≡ map (λ _. library_spot) (flat_map (λ b. b.code) (option_to_list method.now.body))) }
{
    let mut code = Items::new(alloc);
    if let Some(body) = &method.body {
        for _op in body.code.as_slice() {
            code.push(LIBRARY_SPOT)?;
        }
    }
    Ok(code)
}

// The places of the library's methods.
fn put_library_methods(alloc: Global, found: &mut Items<Spots>) -> Result<(), AllocError>
    ensures { OnOk result (found.new ≡ found.old ++ map spots_of_library_method library_methods) }
{
    let methods = library_methods(alloc)?;
    for method in methods.as_slice() {
        found.push(Spots {
            declared: LIBRARY_SPOT,
            code: library_code(alloc, method)?,
        })?;
    }
    Ok(())
}

// The places of the instructions among these lines.
fn code_of_lines(
    alloc: Global,
    places: &mut Places<'_>,
    lines: &[WrittenLine],
) -> Result<Items<Spot>, AllocError>
    ensures code { IfOk result (λ code. code ≡ map (λ i. spot_of places.old i.at) (instrs_of lines.now)) }
    ensures same { places.new ≡ places.old }
{
    let mut code = Items::new(alloc);
    for line in lines {
        match line {
            WrittenLine::Label(_) => {}
            WrittenLine::Instr(instr) => {
                code.push(places.spot(instr.at))?;
            }
        }
    }
    Ok(code)
}

// The places of the instructions of a body, if there is one.
fn code_of(
    alloc: Global,
    places: &mut Places<'_>,
    body: &Option<WrittenBody>,
) -> Result<Items<Spot>, AllocError>
    ensures code { IfOk result (λ code. code ≡ map (λ i. spot_of places.old i.at) (flat_map (λ b. instrs_of b.lines) (option_to_list body.now))) }
    ensures same { places.new ≡ places.old }
{
    match body {
        Some(body) => code_of_lines(alloc, places, body.lines.as_slice()),
        None => Ok(Items::new(alloc)),
    }
}

fn method_spots(
    alloc: Global,
    places: &mut Places<'_>,
    method: &WrittenMethod,
) -> Result<Spots, AllocError>
    ensures spots { IfOk result (λ spots. spots ≡ spots_of_method places.old method.now) }
    ensures same { places.new ≡ places.old }
{
    let declared = places.spot(method.at);
    let code = code_of(alloc, places, &method.body)?;
    Ok(Spots { declared, code })
}

// The places of the methods among these members.
fn put_members(
    alloc: Global,
    places: &mut Places<'_>,
    members: &[WrittenMember],
    found: &mut Items<Spots>,
) -> Result<(), AllocError>
    ensures spots { OnOk result (found.new ≡ found.old ++ map (spots_of_method places.old) (methods_of members.now)) }
    ensures same { places.new ≡ places.old }
{
    for member in members {
        match member {
            WrittenMember::Field(_) => {}
            WrittenMember::Method(method) => {
                found.push(method_spots(alloc, places, method)?)?;
            }
        }
    }
    Ok(())
}

// The places of the methods of these classes.
fn put_methods(
    alloc: Global,
    places: &mut Places<'_>,
    classes: &[WrittenClass],
    found: &mut Items<Spots>,
) -> Result<(), AllocError>
    ensures spots { OnOk result (found.new ≡ found.old ++ map (spots_of_method places.old) (all_methods classes.now)) }
    ensures same { places.new ≡ places.old }
{
    for class in classes {
        put_members(alloc, places, class.members.as_slice(), found)?;
    }
    Ok(())
}

/// The places of each class and then of each method, those of the library before those of the text. The
/// text is gone through once for the classes and once for the methods.
#[tactic(auto, unfolding(crate::specs::Answer::spots_of))]
pub(crate) fn spots(
    alloc: Global,
    text: &[u8],
    classes: &[WrittenClass],
) -> Result<Items<Spots>, AllocError>
    requires { length text.now ≤ 4194304 }
    ensures { IfOk result (λ spots. spots ≡ spots_of text.now classes.now) }
{
    let mut places = Places::new(text);
    let mut found = Items::new(alloc);
    put_library_classes(alloc, &mut found)?;
    put_classes(alloc, &mut places, classes, &mut found)?;
    put_library_methods(alloc, &mut found)?;
    put_methods(alloc, &mut places, classes, &mut found)?;
    Ok(found)
}
