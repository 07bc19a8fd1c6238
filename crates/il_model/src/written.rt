// A program as it is written, before its names are looked up. An `at` is the offset of a byte in the text.
use crate::class::ClassKind;
use crate::form::Form;
use crate::method::Shape;
use mn_outside::{Bytes, Name};
use sqlite_items::{Boxed, Items};

/// A word, with the place of its first byte.
#[derive(Drop)]
pub struct WrittenName {
    pub at: u32,
    pub name: Name,
}

/// A type. A variable is written as its token, and a class with its arguments.
#[derive(Drop)]
pub enum WrittenType {
    Int32,
    Int64,
    Bool,
    Object,
    String,
    Variable(WrittenName),
    Named(WrittenName, Items<WrittenType>),
    Vector(Boxed<WrittenType>),
}

/// The type of a parameter or a local, and whether `&` follows it.
#[derive(Drop)]
pub struct WrittenParam {
    pub kind: WrittenType,
    pub pointer: bool,
}

/// A type variable with its bounds.
#[derive(Drop)]
pub struct WrittenVar {
    pub name: WrittenName,
    pub bounds: Items<WrittenType>,
}

/// A method as an instruction names it.
#[derive(Drop)]
pub struct WrittenMethodRef {
    pub instance: bool,
    pub result: Option<WrittenType>,
    pub class: WrittenType,
    pub name: Name,
    pub args: Items<WrittenType>,
    pub params: Items<WrittenParam>,
}

/// A field as an instruction names it.
#[derive(Drop)]
pub struct WrittenFieldRef {
    pub kind: WrittenType,
    pub class: WrittenType,
    pub name: Name,
}

/// What follows the word of an instruction.
#[derive(Drop)]
pub enum WrittenOperand {
    Nothing,
    Int32(i32),
    Int64(i64),
    Text(Bytes),
    Place(u64),
    Label(WrittenName),
    Labels(Items<WrittenName>),
    Type(WrittenType),
    Method(WrittenMethodRef),
    Field(WrittenFieldRef),
    Constrained(WrittenType, WrittenMethodRef),
}

/// An instruction in its long form, with the place of its first token.
#[derive(Drop)]
pub struct WrittenInstr {
    pub at: u32,
    pub form: Form,
    pub operand: WrittenOperand,
}

/// A line of a body: a label, or an instruction.
#[derive(Drop)]
pub enum WrittenLine {
    Label(WrittenName),
    Instr(WrittenInstr),
}

/// A clause, by the labels of its ranges.
#[derive(Drop)]
pub struct WrittenClause {
    pub from: WrittenName,
    pub to: WrittenName,
    pub catches: WrittenType,
    pub handler: WrittenName,
    pub end: WrittenName,
}

/// A body. `entry` is the place of the word `.entrypoint`, if it stands there.
#[derive(Drop)]
pub struct WrittenBody {
    pub entry: Option<u32>,
    pub locals: Items<WrittenParam>,
    pub lines: Items<WrittenLine>,
    pub clauses: Items<WrittenClause>,
}

/// A method, with the place of the word `.method`.
#[derive(Drop)]
pub struct WrittenMethod {
    pub at: u32,
    pub shape: Shape,
    pub result: Option<WrittenType>,
    pub name: WrittenName,
    pub vars: Items<WrittenVar>,
    pub params: Items<WrittenParam>,
    pub body: Option<WrittenBody>,
}

/// A field.
#[derive(Drop)]
pub struct WrittenField {
    pub fixed: bool,
    pub kind: WrittenType,
    pub name: WrittenName,
}

/// A member of a class.
#[derive(Drop)]
pub enum WrittenMember {
    Field(WrittenField),
    Method(WrittenMethod),
}

/// A class, with the place of the word `.class` and its members in order of the text.
#[derive(Drop)]
pub struct WrittenClass {
    pub at: u32,
    pub kind: ClassKind,
    pub name: WrittenName,
    pub vars: Items<WrittenVar>,
    pub base: Option<WrittenType>,
    pub interfaces: Items<WrittenType>,
    pub members: Items<WrittenMember>,
}
