// Laws that no call's contract says.
ghost use Rattle.std.specs.Prelude.{ℕ, ◌<◌, ◌≤◌, ◌+◌, ◌*◌, List, ◌^◌, ℤ, FitsSigned};
ghost use Rattle.std.specs.Int.{w32, w64};
ghost use Rattle.il_model.specs.declared.op.Op.{Op};
ghost use Rattle.il_model.specs.declared.op.Op.TheVariants as op;
ghost use Rattle.rv_isa.specs.Assembly.{word_count};
ghost use Rattle.cil_meaning.specs.Groups.{group_of};
ghost use Rattle.cil_flow.specs.FramePlans.{IsPlan};
ghost use Rattle.rv_codegen.specs.PlainItems.{BodyData, argument_count, entry_items, plain_items, group_targets};
ghost use Rattle.rv_codegen.specs.Entering.{EntryIsCarried};
ghost use Rattle.rv_codegen.specs.Carried.{IsCarried};

/// The items of these plain instructions carry them, wherever they are assembled. A law alone: it does nothing.
pub fn plain_instructions_are_carried()
    ensures nop { (b : BodyData) (at : ℕ) → IsCarried b at op.Nop }
    ensures dup { (b : BodyData) (at : ℕ) → IsCarried b at op.Dup }
    ensures pop { (b : BodyData) (at : ℕ) → IsCarried b at op.Pop }
    ensures ldc_i4 { (b : BodyData) (at : ℕ) → (n : ℤ) → FitsSigned w32 n → IsCarried b at (op.LdcI4 n) }
    ensures ldc_i8 { (b : BodyData) (at : ℕ) → (n : ℤ) → FitsSigned w64 n → IsCarried b at (op.LdcI8 n) }
    ensures ldnull { (b : BodyData) (at : ℕ) → IsCarried b at op.Ldnull }
    ensures ldstr { (b : BodyData) (at : ℕ) → (n : ℕ) → n < 2 ^ 32 → IsCarried b at (op.Ldstr n) }
    ensures ldarg { (b : BodyData) (at : ℕ) (n : ℕ) → IsCarried b at (op.Ldarg n) }
    ensures ldloc { (b : BodyData) (at : ℕ) (n : ℕ) → IsCarried b at (op.Ldloc n) }
    ensures ldarga { (b : BodyData) (at : ℕ) (n : ℕ) → IsCarried b at (op.Ldarga n) }
    ensures ldloca { (b : BodyData) (at : ℕ) (n : ℕ) → IsCarried b at (op.Ldloca n) }
    ensures starg { (b : BodyData) (at : ℕ) (n : ℕ) → IsCarried b at (op.Starg n) }
    ensures stloc { (b : BodyData) (at : ℕ) (n : ℕ) → IsCarried b at (op.Stloc n) }
    ensures add { (b : BodyData) (at : ℕ) → IsCarried b at op.Add }
    ensures sub { (b : BodyData) (at : ℕ) → IsCarried b at op.Sub }
    ensures mul { (b : BodyData) (at : ℕ) → IsCarried b at op.Mul }
    ensures and { (b : BodyData) (at : ℕ) → IsCarried b at op.And }
    ensures or { (b : BodyData) (at : ℕ) → IsCarried b at op.Or }
    ensures xor { (b : BodyData) (at : ℕ) → IsCarried b at op.Xor }
    ensures shl { (b : BodyData) (at : ℕ) → IsCarried b at op.Shl }
    ensures shr { (b : BodyData) (at : ℕ) → IsCarried b at op.Shr }
    ensures shr_un { (b : BodyData) (at : ℕ) → IsCarried b at op.ShrUn }
    ensures neg { (b : BodyData) (at : ℕ) → IsCarried b at op.Neg }
    ensures not { (b : BodyData) (at : ℕ) → IsCarried b at op.Not }
    ensures conv_i4 { (b : BodyData) (at : ℕ) → IsCarried b at op.ConvI4 }
    ensures conv_i8 { (b : BodyData) (at : ℕ) → IsCarried b at op.ConvI8 }
    ensures conv_u8 { (b : BodyData) (at : ℕ) → IsCarried b at op.ConvU8 }
    ensures ceq { (b : BodyData) (at : ℕ) → IsCarried b at op.Ceq }
    ensures cgt { (b : BodyData) (at : ℕ) → IsCarried b at op.Cgt }
    ensures cgt_un { (b : BodyData) (at : ℕ) → IsCarried b at op.CgtUn }
    ensures clt { (b : BodyData) (at : ℕ) → IsCarried b at op.Clt }
    ensures clt_un { (b : BodyData) (at : ℕ) → IsCarried b at op.CltUn }
    ensures br { (b : BodyData) (at : ℕ) (n : ℕ) → IsCarried b at (op.Br n) }
    ensures brtrue { (b : BodyData) (at : ℕ) (n : ℕ) → IsCarried b at (op.Brtrue n) }
    ensures brfalse { (b : BodyData) (at : ℕ) (n : ℕ) → IsCarried b at (op.Brfalse n) }
    ensures beq { (b : BodyData) (at : ℕ) (n : ℕ) → IsCarried b at (op.Beq n) }
    ensures bne_un { (b : BodyData) (at : ℕ) (n : ℕ) → IsCarried b at (op.BneUn n) }
    ensures bge { (b : BodyData) (at : ℕ) (n : ℕ) → IsCarried b at (op.Bge n) }
    ensures bgt { (b : BodyData) (at : ℕ) (n : ℕ) → IsCarried b at (op.Bgt n) }
    ensures ble { (b : BodyData) (at : ℕ) (n : ℕ) → IsCarried b at (op.Ble n) }
    ensures blt { (b : BodyData) (at : ℕ) (n : ℕ) → IsCarried b at (op.Blt n) }
    ensures bge_un { (b : BodyData) (at : ℕ) (n : ℕ) → IsCarried b at (op.BgeUn n) }
    ensures bgt_un { (b : BodyData) (at : ℕ) (n : ℕ) → IsCarried b at (op.BgtUn n) }
    ensures ble_un { (b : BodyData) (at : ℕ) (n : ℕ) → IsCarried b at (op.BleUn n) }
    ensures blt_un { (b : BodyData) (at : ℕ) (n : ℕ) → IsCarried b at (op.BltUn n) }
    ensures switch { (b : BodyData) (at : ℕ) (targets : List ℕ) → IsCarried b at (op.Switch targets) }
    ensures leave { (b : BodyData) (at : ℕ) (n : ℕ) → IsCarried b at (op.Leave n) }
    ensures ret { (b : BodyData) (at : ℕ) → IsCarried b at op.Ret }
    ensures write_int32 { (b : BodyData) (at : ℕ) → IsCarried b at op.WriteLineInt32 }
    ensures write_int64 { (b : BodyData) (at : ℕ) → IsCarried b at op.WriteLineInt64 }
    ensures write_string { (b : BodyData) (at : ℕ) → IsCarried b at op.WriteLineString }
{}

/// The items of a body's entry carry a thread to instruction 0, with the arguments copied, by four turns at most for
/// each argument and twelve for each of its words. There are 16 code words at most for an argument. A law alone: it
/// does nothing.
pub fn arguments_are_carried()
    ensures entry { (b : BodyData) → EntryIsCarried b }
    ensures short { (b : BodyData) → word_count (entry_items b) ≤ 16 * argument_count b }
{}

/// No plain instruction has more than 256 code words, and 256 more for each target of a `switch`. A law alone: it does
/// nothing.
pub fn plain_instructions_are_short()
    ensures { (b : BodyData) → IsPlan b.plan → (at : ℕ) (o : Op) →
        word_count (plain_items b at o) ≤ 256 + 256 * group_targets (group_of o) }
{}
