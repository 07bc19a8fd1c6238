//! Programs of the assembly text: what a program is, what text spells it, and how its members are found.
#![tactic(auto)]

mod class;
mod entry;
mod find;
#[cfg(test)]
mod finding_tests;
mod form;
mod front;
mod key;
mod layout;
mod member;
mod method;
mod names;
mod op;
mod program;
mod written;

pub use class::{ClassDef, ClassKind, FieldDef, VarDef};
pub use entry::{Def, Entry};
pub use find::{class_of, find_field, find_method, same_params, same_result};
pub use form::Form;
pub use key::{BodyRow, Key, KeyPart};
pub use layout::{Layout, Limit, MethodTree};
pub use member::{FRef, MRef};
pub use method::{Body, Clause, MethodDef, PType, Shape, Sort};
pub use names::Names;
pub use op::Op;
pub use program::Program;
pub use written::{
    WrittenBody, WrittenClass, WrittenClause, WrittenField, WrittenFieldRef, WrittenInstr,
    WrittenLine, WrittenMember, WrittenMethod, WrittenMethodRef, WrittenName, WrittenOperand,
    WrittenParam, WrittenType, WrittenVar,
};
