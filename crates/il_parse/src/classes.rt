// Classes and their members as they are written.
ghost use Rattle.std.specs.Prelude.{◌≡◌, [], Ok};
ghost use Rattle.il_model.specs.Lexemes.{is_among};
ghost use Rattle.il_model.specs.Words.{quoted_words};
ghost use Rattle.il_parse.specs.Reading.{Reads, read_name_but};
ghost use Rattle.il_parse.specs.Classes as spec;

use crate::body::read_body;
use crate::cursor::{Cursor, is_among};
use crate::fault::{ParseCause, ReadError};
use crate::params::{read_params, read_result, read_vars};
use crate::types::{read_type, read_types};
use il_model::{
    ClassKind, Shape, WrittenBody, WrittenClass, WrittenField, WrittenMember, WrittenMethod,
    WrittenName, WrittenParam, WrittenType, WrittenVar,
};
use sqlite_items::Items;
use std::alloc::Global;

// A text may have so many classes and methods beside those of the library.
const CLASS_ROOM: usize = 4083;

const METHOD_ROOM: usize = 16_372;

// A class and a method have at most so many type variables.
const MOST_CLASS_VARS: usize = 3;

const MOST_METHOD_VARS: usize = 2;

// The words that the grammar quotes.
#[rattlefmt::skip]
const QUOTED_WORDS: [&[u8]; 25] = [
    b".class", b"interface", b"struct", b"extends", b"implements", b".field", b".method", b"void",
    b".entrypoint", b".locals", b"init", b".try", b"to", b"catch", b"handler", b"instance",
    b"static", b"virtual", b"newslot", b"abstract",
    b"int32", b"int64", b"bool", b"object", b"string",
];

#[tactic(auto, unfolding(crate::specs::Classes::read_field))]
fn read_field(alloc: Global, cursor: &mut Cursor<'_>) -> Result<WrittenField, ReadError>
    ensures { Reads (spec.read_field cursor.old) result cursor.new }
{
    cursor.expect(b".field")?;
    let fixed = cursor.eat(b"static");
    let kind = read_type(alloc, cursor)?;
    let name = cursor.name(alloc)?;
    Ok(WrittenField { fixed, kind, name })
}

// How a method is called.
#[tactic(auto, unfolding(crate::specs::Classes::read_shape, crate::specs::Reading::after))]
fn read_shape(cursor: &mut Cursor<'_>) -> Result<Shape, ReadError>
    ensures { Reads (spec.read_shape cursor.old) result cursor.new }
{
    if cursor.eat(b"static") {
        return Ok(Shape::Fixed);
    }
    if cursor.eat(b"virtual") {
        return Ok(Shape::Virtual);
    }
    if cursor.eat(b"newslot") {
        cursor.expect(b"virtual")?;
        return Ok(Shape::NewSlot);
    }
    if cursor.eat(b"abstract") {
        return Ok(Shape::Abstract);
    }
    Ok(Shape::Instance)
}

// No type variables, of a method that has a slot.
fn read_no_vars(alloc: Global, cursor: &Cursor<'_>) -> Result<Items<WrittenVar>, ReadError>
    ensures { Reads (spec.read_no_vars cursor.now) result cursor.now }
{
    if cursor.sees(b"<") {
        return Err(cursor.stop(ParseCause::Unsupported));
    }
    Ok(Items::new(alloc))
}

// The type variables of a method of this shape.
#[tactic(auto, unfolding(crate::specs::Classes::read_method_vars))]
fn read_method_vars(
    alloc: Global,
    cursor: &mut Cursor<'_>,
    shape: Shape,
) -> Result<Items<WrittenVar>, ReadError>
    ensures { Reads (spec.read_method_vars shape cursor.old) result cursor.new }
{
    match shape {
        Shape::Fixed | Shape::Instance => read_vars(alloc, cursor, MOST_METHOD_VARS),
        Shape::Virtual | Shape::NewSlot | Shape::Abstract => read_no_vars(alloc, cursor),
    }
}

fn is_fixed(shape: Shape) -> bool
    ensures { result ≡ spec.is_fixed shape }
{
    match shape {
        Shape::Fixed => true,
        Shape::Instance | Shape::Virtual | Shape::NewSlot | Shape::Abstract => false,
    }
}

fn is_empty<T>(items: &Items<T>) -> bool
    ensures { result ≡ spec.is_empty items.now }
{
    match items.as_slice() {
        [] => true,
        [_, ..] => false,
    }
}

// Whether the entry point may stand in such a method.
fn may_begin_in(
    plain_class: bool,
    shape: Shape,
    given: &Option<WrittenType>,
    vars: &Items<WrittenVar>,
    params: &Items<WrittenParam>,
) -> bool
    ensures { result ≡ spec.may_begin_in plain_class shape given.now vars.now params.now }
{
    plain_class && is_fixed(shape) && given.is_none() && is_empty(vars) && is_empty(params)
}

// `;`, or a body in braces.
#[tactic(auto, unfolding(crate::specs::Classes::read_body_or_none))]
fn read_body_or_none(
    alloc: Global,
    cursor: &mut Cursor<'_>,
    may_begin: bool,
) -> Result<Option<WrittenBody>, ReadError>
    ensures { Reads (spec.read_body_or_none may_begin cursor.old) result cursor.new }
{
    if cursor.eat(b";") {
        return Ok(None);
    }
    cursor.expect(b"{")?;
    let body = read_body(alloc, cursor, may_begin)?;
    cursor.expect(b"}")?;
    Ok(Some(body))
}

// A method, of a class without type variables or not.
#[tactic(auto, unfolding(crate::specs::Classes::read_method))]
fn read_method(
    alloc: Global,
    cursor: &mut Cursor<'_>,
    plain_class: bool,
) -> Result<WrittenMethod, ReadError>
    ensures { Reads (spec.read_method plain_class cursor.old) result cursor.new }
{
    let at = cursor.expect_at(b".method")?;
    let shape = read_shape(cursor)?;
    let result = read_result(alloc, cursor)?;
    let name = cursor.method_name(alloc)?;
    let vars = read_method_vars(alloc, cursor, shape)?;
    let params = read_params(alloc, cursor)?;
    let begins = may_begin_in(plain_class, shape, &result, &vars, &params);
    let body = read_body_or_none(alloc, cursor, begins)?;
    Ok(WrittenMethod {
        at,
        shape,
        result,
        name,
        vars,
        params,
        body,
    })
}

// The members of a class, where so many methods may still come, and how many may come behind them.
fn read_members(
    alloc: Global,
    cursor: &mut Cursor<'_>,
    plain_class: bool,
    most: usize,
) -> Result<(Items<WrittenMember>, usize), ReadError>
    ensures { Reads (spec.read_members plain_class most cursor.old) result cursor.new }
{
    let mut found = Items::new(alloc);
    let mut left = most;
    for _turn in 0..cursor.left() {
        if cursor.sees(b".field") {
            found.push(WrittenMember::Field(read_field(alloc, cursor)?))?;
        } else if cursor.sees(b".method") {
            if left == 0 {
                return Err(cursor.stop(ParseCause::TooMany));
            }
            found.push(WrittenMember::Method(read_method(alloc, cursor, plain_class)?))?;
            left -= 1;
        } else {
            return Ok((found, left));
        }
    }
    Ok((found, left))
}

// What a class is.
#[tactic(auto, using(crate::proofs::ClassLemmas::kind_abstract, crate::proofs::ClassLemmas::kind_interface, crate::proofs::ClassLemmas::kind_struct, crate::proofs::ClassLemmas::kind_plain), unfolding(crate::specs::Reading::after))]
fn read_kind(cursor: &mut Cursor<'_>) -> ClassKind
    ensures { spec.read_kind cursor.old ≡ Ok (result, cursor.new) }
{
    if cursor.eat(b"abstract") {
        return ClassKind::Abstract;
    }
    if cursor.eat(b"interface") {
        return ClassKind::Interface;
    }
    if cursor.eat(b"struct") {
        return ClassKind::Struct;
    }
    ClassKind::Plain
}

// Whether the grammar quotes this word.
fn is_quoted(word: &[u8]) -> bool
    ensures { result ≡ is_among quoted_words word.now }
{
    is_among(&QUOTED_WORDS, word)
}

// The name of a class in its head, which is no quoted word.
#[tactic(auto, using(crate::proofs::ClassLemmas::name_free, crate::proofs::ClassLemmas::name_no_word, crate::proofs::ClassLemmas::name_quoted))]
fn read_class_name(alloc: Global, cursor: &mut Cursor<'_>) -> Result<WrittenName, ReadError>
    ensures { Reads (read_name_but quoted_words cursor.old) result cursor.new }
{
    if !cursor.is_word() {
        return Err(cursor.stuck());
    }
    if is_quoted(cursor.bytes()) {
        return Err(cursor.stuck());
    }
    cursor.take_name(alloc)
}

// Whether a class of this kind may name a base.
fn has_base(kind: ClassKind) -> bool
    ensures { result ≡ spec.has_base kind }
{
    match kind {
        ClassKind::Plain | ClassKind::Abstract => true,
        ClassKind::Interface | ClassKind::Struct | ClassKind::Delegate => false,
    }
}

// The base, if one is written.
#[tactic(auto, unfolding(crate::specs::Classes::read_base))]
fn read_base(
    alloc: Global,
    cursor: &mut Cursor<'_>,
    kind: ClassKind,
) -> Result<Option<WrittenType>, ReadError>
    ensures { Reads (spec.read_base kind cursor.old) result cursor.new }
{
    if has_base(kind) && cursor.sees(b"extends") {
        cursor.advance();
        let base = read_type(alloc, cursor)?;
        return Ok(Some(base));
    }
    Ok(None)
}

// The interfaces, if any are written.
#[tactic(auto, unfolding(crate::specs::Classes::read_interfaces))]
fn read_interfaces(alloc: Global, cursor: &mut Cursor<'_>) -> Result<Items<WrittenType>, ReadError>
    ensures { Reads (spec.read_interfaces cursor.old) result cursor.new }
{
    if !cursor.eat(b"implements") {
        return Ok(Items::new(alloc));
    }
    read_types(alloc, cursor, b",")
}

// A class, where so many methods may still come, and how many may come behind it.
#[tactic(auto, unfolding(crate::specs::Classes::read_class))]
fn read_class(
    alloc: Global,
    cursor: &mut Cursor<'_>,
    left: usize,
) -> Result<(WrittenClass, usize), ReadError>
    ensures { Reads (spec.read_class left cursor.old) result cursor.new }
{
    let at = cursor.expect_at(b".class")?;
    let kind = read_kind(cursor);
    let name = read_class_name(alloc, cursor)?;
    let vars = read_vars(alloc, cursor, MOST_CLASS_VARS)?;
    let base = read_base(alloc, cursor, kind)?;
    let interfaces = read_interfaces(alloc, cursor)?;
    cursor.expect(b"{")?;
    let (members, left) = read_members(alloc, cursor, is_empty(&vars), left)?;
    cursor.expect(b"}")?;
    let class = WrittenClass {
        at,
        kind,
        name,
        vars,
        base,
        interfaces,
        members,
    };
    Ok((class, left))
}

// The classes of a text up to its end, of which so many may come with so many methods.
fn classes_within(
    alloc: Global,
    cursor: &mut Cursor<'_>,
    classes: usize,
    methods: usize,
) -> Result<Items<WrittenClass>, ReadError>
    ensures { Reads (spec.classes_from classes methods [] cursor.old) result cursor.new }
{
    let mut found = Items::new(alloc);
    let mut left = methods;
    for _turn in 0..classes {
        let Some(_) = cursor.at() else {
            return Ok(found);
        };
        let (class, after) = read_class(alloc, cursor, left)?;
        found.push(class)?;
        left = after;
    }
    let Some(_) = cursor.at() else {
        return Ok(found);
    };
    if cursor.sees(b".class") {
        return Err(cursor.stop(ParseCause::TooMany));
    }
    Err(cursor.stuck())
}

/// The classes of a text, up to its end.
#[tactic(auto, using(crate::proofs::ClassLemmas::class_room_is, crate::proofs::ClassLemmas::method_room_is))]
pub(crate) fn read_classes(
    alloc: Global,
    cursor: &mut Cursor<'_>,
) -> Result<Items<WrittenClass>, ReadError>
    ensures { Reads (spec.classes_from spec.class_room spec.method_room [] cursor.old) result cursor.new }
{
    classes_within(alloc, cursor, CLASS_ROOM, METHOD_ROOM)
}
