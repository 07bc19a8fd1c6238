// Which group of forms an instruction belongs to, and what it says there.
ghost use Rattle.std.specs.Prelude.{◌≡◌};
ghost use Rattle.cil_meaning.specs.Groups.{group_of};
ghost use Rattle.unshared.specs.Grouped.{the_group};

use crate::library::Swapping;
use crate::numbers::{Checked, Comparison, Conversion, Division, Shift, Unary, Wrapping};
use crate::placing::Slot;
use crate::value::Kind;
use il_model::{FRef, MRef, Op};
use store_object::Form;
use type_tree::TExpr;

/// Values on the stack alone.
#[derive(Clone, Copy)]
pub(crate) enum StackForm {
    Rests,
    Copies,
    Drops,
    PushesInt32(i32),
    PushesInt64(i64),
    PushesNull,
    PushesLiteral(u32),
}

#[derive(Clone, Copy)]
pub(crate) enum PlaceForm {
    Reads(Slot),
    Points(Slot),
    Writes(Slot),
}

/// Arithmetic; of some forms whether numbers have a sign.
#[derive(Clone, Copy)]
pub(crate) enum NumberForm {
    Wraps(Wrapping),
    Checks(Checked, bool),
    Divides(Division, bool),
    Shifts(Shift),
    Turns(Unary),
    Converts(Conversion),
    Compares(Comparison),
}

#[derive(Clone, Copy)]
pub(crate) enum BranchForm<'a> {
    Jumps(u32),
    JumpsWhere(bool, u32),
    JumpsBy(Comparison, u32),
    Chooses(&'a [u32]),
    Leaves(u32),
}

#[derive(Clone, Copy)]
pub(crate) enum CallForm<'a> {
    Calls(&'a MRef),
    CallsSlot(&'a MRef),
    CallsConstrained(&'a TExpr, &'a MRef),
    Creates(&'a MRef),
    Returns,
}

#[derive(Clone, Copy)]
pub(crate) enum MemberForm<'a> {
    ReadsField(&'a FRef),
    WritesField(&'a FRef),
    PointsField(&'a FRef),
    ReadsStatic(&'a FRef),
    WritesStatic(&'a FRef),
    PointsStatic(&'a FRef),
    ReadsAt(&'a TExpr),
    WritesAt(&'a TExpr),
    ClearsAt(&'a TExpr),
}

#[derive(Clone, Copy)]
pub(crate) enum ArrayForm<'a> {
    Allocates(&'a TExpr),
    Measures,
    ReadsElement(&'a TExpr),
    WritesElement(&'a TExpr),
}

#[derive(Clone, Copy)]
pub(crate) enum BoxForm<'a> {
    Boxes(&'a TExpr),
    Unboxes(&'a TExpr),
    Casts(&'a TExpr),
    Tests(&'a TExpr),
}

#[derive(Clone, Copy)]
pub(crate) enum LibraryForm {
    Prints(Form, Kind),
    Swaps(Swapping, Kind),
    Names,
    Starts,
    Joins,
}

#[derive(Clone, Copy)]
pub(crate) enum Group<'a> {
    OnStack(StackForm),
    OnPlaces(PlaceForm),
    OnNumbers(NumberForm),
    OnBranches(BranchForm<'a>),
    OnCalls(CallForm<'a>),
    OnMembers(MemberForm<'a>),
    OnArrays(ArrayForm<'a>),
    OnBoxes(BoxForm<'a>),
    OnThrow,
    OnLibrary(LibraryForm),
    Excluded,
}

/// The group of an instruction. No memory is taken.
pub(crate) fn group_of(op: &Op) -> Group<'_>
    ensures { the_group result ≡ group_of op.now }
{
    match op {
        Op::Nop => Group::OnStack(StackForm::Rests),
        Op::Dup => Group::OnStack(StackForm::Copies),
        Op::Pop => Group::OnStack(StackForm::Drops),
        Op::LdcI4(number) => Group::OnStack(StackForm::PushesInt32(*number)),
        Op::LdcI8(number) => Group::OnStack(StackForm::PushesInt64(*number)),
        Op::Ldnull => Group::OnStack(StackForm::PushesNull),
        Op::Ldstr(number) => Group::OnStack(StackForm::PushesLiteral(*number)),
        Op::Ldarg(number) => Group::OnPlaces(PlaceForm::Reads(Slot::Argument(*number))),
        Op::Ldloc(number) => Group::OnPlaces(PlaceForm::Reads(Slot::Local(*number))),
        Op::Ldarga(number) => Group::OnPlaces(PlaceForm::Points(Slot::Argument(*number))),
        Op::Ldloca(number) => Group::OnPlaces(PlaceForm::Points(Slot::Local(*number))),
        Op::Starg(number) => Group::OnPlaces(PlaceForm::Writes(Slot::Argument(*number))),
        Op::Stloc(number) => Group::OnPlaces(PlaceForm::Writes(Slot::Local(*number))),
        Op::Add => Group::OnNumbers(NumberForm::Wraps(Wrapping::Sum)),
        Op::Sub => Group::OnNumbers(NumberForm::Wraps(Wrapping::Difference)),
        Op::Mul => Group::OnNumbers(NumberForm::Wraps(Wrapping::Product)),
        Op::And => Group::OnNumbers(NumberForm::Wraps(Wrapping::Conjunction)),
        Op::Or => Group::OnNumbers(NumberForm::Wraps(Wrapping::Disjunction)),
        Op::Xor => Group::OnNumbers(NumberForm::Wraps(Wrapping::Exclusive)),
        Op::AddOvf => Group::OnNumbers(NumberForm::Checks(Checked::Sum, true)),
        Op::SubOvf => Group::OnNumbers(NumberForm::Checks(Checked::Difference, true)),
        Op::MulOvf => Group::OnNumbers(NumberForm::Checks(Checked::Product, true)),
        Op::AddOvfUn => Group::OnNumbers(NumberForm::Checks(Checked::Sum, false)),
        Op::SubOvfUn => Group::OnNumbers(NumberForm::Checks(Checked::Difference, false)),
        Op::MulOvfUn => Group::OnNumbers(NumberForm::Checks(Checked::Product, false)),
        Op::Div => Group::OnNumbers(NumberForm::Divides(Division::Quotient, true)),
        Op::Rem => Group::OnNumbers(NumberForm::Divides(Division::Remainder, true)),
        Op::DivUn => Group::OnNumbers(NumberForm::Divides(Division::Quotient, false)),
        Op::RemUn => Group::OnNumbers(NumberForm::Divides(Division::Remainder, false)),
        Op::Shl => Group::OnNumbers(NumberForm::Shifts(Shift::Leftwards)),
        Op::Shr => Group::OnNumbers(NumberForm::Shifts(Shift::Rightwards { is_signed: true })),
        Op::ShrUn => Group::OnNumbers(NumberForm::Shifts(Shift::Rightwards { is_signed: false })),
        Op::Neg => Group::OnNumbers(NumberForm::Turns(Unary::Negative)),
        Op::Not => Group::OnNumbers(NumberForm::Turns(Unary::Complement)),
        Op::ConvI4 => Group::OnNumbers(NumberForm::Converts(Conversion::ToInt32)),
        Op::ConvI8 => Group::OnNumbers(NumberForm::Converts(Conversion::ToInt64)),
        Op::ConvU8 => Group::OnNumbers(NumberForm::Converts(Conversion::ToUnsigned64)),
        Op::ConvOvfI4 => Group::OnNumbers(NumberForm::Converts(Conversion::ToInt32Checked)),
        Op::Ceq => Group::OnNumbers(NumberForm::Compares(Comparison::Equal)),
        Op::Cgt => Group::OnNumbers(NumberForm::Compares(Comparison::Greater { is_signed: true })),
        Op::CgtUn => Group::OnNumbers(NumberForm::Compares(Comparison::Greater {
            is_signed: false,
        })),
        Op::Clt => Group::OnNumbers(NumberForm::Compares(Comparison::Less { is_signed: true })),
        Op::CltUn => Group::OnNumbers(NumberForm::Compares(Comparison::Less { is_signed: false })),
        Op::Br(to) => Group::OnBranches(BranchForm::Jumps(*to)),
        Op::Brtrue(to) => Group::OnBranches(BranchForm::JumpsWhere(true, *to)),
        Op::Brfalse(to) => Group::OnBranches(BranchForm::JumpsWhere(false, *to)),
        Op::Beq(to) => Group::OnBranches(BranchForm::JumpsBy(Comparison::Equal, *to)),
        Op::BneUn(to) => Group::OnBranches(BranchForm::JumpsBy(Comparison::Unequal, *to)),
        Op::Bge(to) => Group::OnBranches(BranchForm::JumpsBy(
            Comparison::GreaterOrEqual { is_signed: true },
            *to,
        )),
        Op::Bgt(to) => Group::OnBranches(BranchForm::JumpsBy(
            Comparison::Greater { is_signed: true },
            *to,
        )),
        Op::Ble(to) => Group::OnBranches(BranchForm::JumpsBy(
            Comparison::LessOrEqual { is_signed: true },
            *to,
        )),
        Op::Blt(to) => Group::OnBranches(BranchForm::JumpsBy(
            Comparison::Less { is_signed: true },
            *to,
        )),
        Op::BgeUn(to) => Group::OnBranches(BranchForm::JumpsBy(
            Comparison::GreaterOrEqual { is_signed: false },
            *to,
        )),
        Op::BgtUn(to) => Group::OnBranches(BranchForm::JumpsBy(
            Comparison::Greater { is_signed: false },
            *to,
        )),
        Op::BleUn(to) => Group::OnBranches(BranchForm::JumpsBy(
            Comparison::LessOrEqual { is_signed: false },
            *to,
        )),
        Op::BltUn(to) => Group::OnBranches(BranchForm::JumpsBy(
            Comparison::Less { is_signed: false },
            *to,
        )),
        Op::Switch(targets) => Group::OnBranches(BranchForm::Chooses(targets.as_slice())),
        Op::Leave(to) => Group::OnBranches(BranchForm::Leaves(*to)),
        Op::Call(named) => Group::OnCalls(CallForm::Calls(named)),
        Op::Callvirt(named) => Group::OnCalls(CallForm::CallsSlot(named)),
        Op::Constrained(kind, named) => Group::OnCalls(CallForm::CallsConstrained(kind, named)),
        Op::Newobj(named) => Group::OnCalls(CallForm::Creates(named)),
        Op::Ret => Group::OnCalls(CallForm::Returns),
        Op::Ldfld(named) => Group::OnMembers(MemberForm::ReadsField(named)),
        Op::Stfld(named) => Group::OnMembers(MemberForm::WritesField(named)),
        Op::Ldflda(named) => Group::OnMembers(MemberForm::PointsField(named)),
        Op::Ldsfld(named) => Group::OnMembers(MemberForm::ReadsStatic(named)),
        Op::Stsfld(named) => Group::OnMembers(MemberForm::WritesStatic(named)),
        Op::Ldsflda(named) => Group::OnMembers(MemberForm::PointsStatic(named)),
        Op::Ldobj(kind) => Group::OnMembers(MemberForm::ReadsAt(kind)),
        Op::Stobj(kind) => Group::OnMembers(MemberForm::WritesAt(kind)),
        Op::Initobj(kind) => Group::OnMembers(MemberForm::ClearsAt(kind)),
        Op::Newarr(kind) => Group::OnArrays(ArrayForm::Allocates(kind)),
        Op::Ldlen => Group::OnArrays(ArrayForm::Measures),
        Op::Ldelem(kind) => Group::OnArrays(ArrayForm::ReadsElement(kind)),
        Op::Stelem(kind) => Group::OnArrays(ArrayForm::WritesElement(kind)),
        Op::Box(kind) => Group::OnBoxes(BoxForm::Boxes(kind)),
        Op::UnboxAny(kind) => Group::OnBoxes(BoxForm::Unboxes(kind)),
        Op::Castclass(kind) => Group::OnBoxes(BoxForm::Casts(kind)),
        Op::Isinst(kind) => Group::OnBoxes(BoxForm::Tests(kind)),
        Op::Throw => Group::OnThrow,
        Op::WriteLineInt32 => Group::OnLibrary(LibraryForm::Prints(Form::Number, Kind::Int32)),
        Op::WriteLineInt64 => Group::OnLibrary(LibraryForm::Prints(Form::Number, Kind::Int64)),
        Op::WriteLineString => Group::OnLibrary(LibraryForm::Prints(Form::String, Kind::Reference)),
        Op::CompareExchangeInt32 => Group::OnLibrary(LibraryForm::Swaps(
            Swapping::Comparing,
            Kind::Int32,
        )),
        Op::CompareExchangeInt64 => Group::OnLibrary(LibraryForm::Swaps(
            Swapping::Comparing,
            Kind::Int64,
        )),
        Op::CompareExchangeObject => Group::OnLibrary(LibraryForm::Swaps(
            Swapping::Comparing,
            Kind::Reference,
        )),
        Op::ExchangeInt32 => Group::OnLibrary(LibraryForm::Swaps(
            Swapping::Exchanging,
            Kind::Int32,
        )),
        Op::ExchangeInt64 => Group::OnLibrary(LibraryForm::Swaps(
            Swapping::Exchanging,
            Kind::Int64,
        )),
        Op::ExchangeObject => Group::OnLibrary(LibraryForm::Swaps(
            Swapping::Exchanging,
            Kind::Reference,
        )),
        Op::AddInt32 => Group::OnLibrary(LibraryForm::Swaps(Swapping::Adding, Kind::Int32)),
        Op::AddInt64 => Group::OnLibrary(LibraryForm::Swaps(Swapping::Adding, Kind::Int64)),
        Op::NameOf(_) => Group::OnLibrary(LibraryForm::Names),
        Op::Start => Group::OnLibrary(LibraryForm::Starts),
        Op::Join => Group::OnLibrary(LibraryForm::Joins),
        Op::Endfinally => Group::Excluded,
        Op::Rethrow => Group::Excluded,
        Op::Ldftn(_) => Group::Excluded,
        Op::Ldvirtftn(_) => Group::Excluded,
    }
}
