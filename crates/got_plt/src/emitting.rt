// Runs of items, and labels.
ghost use Rattle.std.specs.Prelude.{◌≡◌, ◌≤◌, ◌<◌, ◌∷◌, [], length, IfOk, OnOk};
ghost use Rattle.rv_isa.specs.Assembly.{HasOffset, with_place};
ghost use Rattle.rv_isa.specs.declared.item.Item.TheVariants.{Plain, Branch};
ghost use Rattle.got_plt.specs.Fetches as spec;
ghost use Rattle.got_plt.specs.Labels.{grown, four_labels, labels_from, CanPut};

use mn_outside::{Label, NoMemory};
use rv_isa::{Asm, BranchOffset, Imm12, Imm20, Instr, Item, JumpOffset, Reg};

/// The labels of a fetch: the first load of its loop, the second, what comes where a row or the entry is
/// missing, and the end.
#[derive(Clone, Copy)]
pub(crate) struct Labels {
    pub(crate) first: Label,
    pub(crate) second: Label,
    pub(crate) missing: Label,
    pub(crate) done: Label,
}

/// Makes the labels of a fetch.
pub(crate) fn make_labels(asm: &mut Asm) -> Result<Labels, NoMemory>
    ensures labels { IfOk result (λ labels. labels ≡ labels_from (length asm.old.places)) }
    ensures made { OnOk result (asm.new ≡ grown asm.old [] four_labels) }
{
    let first = asm.label()?;
    let second = asm.label()?;
    let missing = asm.label()?;
    let done = asm.label()?;
    Ok(Labels {
        first,
        second,
        missing,
        done,
    })
}

/// Puts a label that has no place at the end of the items so far.
pub(crate) fn put_label(asm: &mut Asm, label: Label)
    requires { CanPut asm.old label.number }
    ensures { asm.new ≡ with_place asm.old label.number }
{
    match asm.place(label) {
        Ok(()) => {}
        Err(_) => unreachable!(),
    }
}

fn emit(asm: &mut Asm, instr: Instr) -> Result<(), NoMemory>
    ensures { OnOk result (asm.new ≡ spec.with_items asm.old (Plain instr ∷ [])) }
{
    asm.emit(Item::Plain(instr))
}

fn emit_branch(asm: &mut Asm, instr: Instr, label: Label) -> Result<(), NoMemory>
    requires { HasOffset instr }
    ensures { OnOk result (asm.new ≡ spec.with_items asm.old (Branch instr label ∷ [])) }
{
    asm.emit(Item::Branch(instr, label))
}

/// The address of the root to x5, the rounds to x6, and a jump into the loop.
pub(crate) fn emit_root(asm: &mut Asm, rounds: u16, start: Label) -> Result<(), NoMemory>
    requires { rounds ≤ 128 }
    ensures { OnOk result (asm.new ≡ spec.with_items asm.old (spec.root_items rounds start)) }
{
    emit(asm, Instr::Lui(Reg::of(5), Imm20::of(0x2_0018)))?;
    emit(asm, Instr::Addi(Reg::of(5), Reg::of(5), Imm12::of(8)))?;
    emit(asm, Instr::Addi(Reg::of(6), Reg::of(0), Imm12::of(rounds)))?;
    emit_branch(asm, Instr::Jal(Reg::of(0), JumpOffset::of(0)), start)?;
    Ok(())
}

/// The next row's address to x5, unless there is none.
pub(crate) fn emit_link(asm: &mut Asm, missing: Label) -> Result<(), NoMemory>
    ensures { OnOk result (asm.new ≡ spec.with_items asm.old (spec.link_items missing)) }
{
    emit(asm, Instr::Ld(Reg::of(5), Reg::of(5), Imm12::of(0)))?;
    emit_branch(
        asm,
        Instr::Beq(Reg::of(5), Reg::of(0), BranchOffset::of(0)),
        missing,
    )?;
    Ok(())
}

/// Back to the loop's first load, unless no round is left.
pub(crate) fn emit_round(asm: &mut Asm, first: Label) -> Result<(), NoMemory>
    ensures { OnOk result (asm.new ≡ spec.with_items asm.old (spec.round_items first)) }
{
    emit(asm, Instr::Addi(Reg::of(6), Reg::of(6), Imm12::of(4_095)))?;
    emit_branch(
        asm,
        Instr::Bne(Reg::of(6), Reg::of(0), BranchOffset::of(0)),
        first,
    )?;
    Ok(())
}

/// The entry's value to x5, and on to the end unless it is missing.
pub(crate) fn emit_entry(asm: &mut Asm, slot: u8, done: Label) -> Result<(), NoMemory>
    requires { slot < 8 }
    ensures { OnOk result (asm.new ≡ spec.with_items asm.old (spec.entry_items slot done)) }
{
    emit(
        asm,
        Instr::Ld(Reg::of(5), Reg::of(5), Imm12::of(8 * u16::from(slot))),
    )?;
    emit_branch(
        asm,
        Instr::Bne(Reg::of(5), Reg::of(0), BranchOffset::of(0)),
        done,
    )?;
    Ok(())
}

/// FILL of an entry of the image's node, whose value goes to x5.
pub(crate) fn emit_fill(asm: &mut Asm, place: u16) -> Result<(), NoMemory>
    requires { place < spec.most_closed }
    ensures { OnOk result (asm.new ≡ spec.with_items asm.old (spec.fill_items place)) }
{
    emit(asm, Instr::Addi(Reg::of(10), Reg::of(0), Imm12::of(1)))?;
    emit(asm, Instr::Addi(Reg::of(11), Reg::of(0), Imm12::of(place)))?;
    emit(asm, Instr::Addi(Reg::of(17), Reg::of(0), Imm12::of(5)))?;
    emit(asm, Instr::Ecall)?;
    emit(asm, Instr::Addi(Reg::of(5), Reg::of(10), Imm12::of(0)))?;
    Ok(())
}

/// The result's address to x7, which FILL keeps.
pub(crate) fn emit_keep(asm: &mut Asm) -> Result<(), NoMemory>
    ensures { OnOk result (asm.new ≡ spec.with_items asm.old spec.keep_items) }
{
    emit(asm, Instr::Addi(Reg::of(7), Reg::of(11), Imm12::of(0)))
}

/// CALL of the value in x5, with the result's address from x7.
pub(crate) fn emit_call(asm: &mut Asm) -> Result<(), NoMemory>
    ensures { OnOk result (asm.new ≡ spec.with_items asm.old spec.call_items) }
{
    emit(asm, Instr::Addi(Reg::of(11), Reg::of(7), Imm12::of(0)))?;
    emit(asm, Instr::Addi(Reg::of(10), Reg::of(5), Imm12::of(0)))?;
    emit(asm, Instr::Addi(Reg::of(17), Reg::of(0), Imm12::of(1)))?;
    emit(asm, Instr::Ecall)?;
    Ok(())
}
