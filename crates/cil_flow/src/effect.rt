// How many values an instruction takes from the stack and leaves on it.
ghost use Rattle.std.specs.Prelude.{◌≡◌, ◌≤◌};
ghost use Rattle.cil_flow.specs.Effects.{effect_of, moves, count_if, result_count, call_effect, constrained_effect, new_effect};

use il_model::{MRef, Op};

/// How many values an instruction takes from the stack, and how many it leaves there.
#[derive(Clone, Copy, Debug, PartialEq, Eq)]
pub struct Effect {
    pub takes: usize,
    pub leaves: usize,
}

/// The effect of an instruction on the stack of a method that has a result or has none, after ECMA-335,
/// Partition III. `leave` takes away all that is there, besides. No memory is taken.
pub fn effect_of(op: &Op, has_result: bool) -> Effect
    ensures value { result ≡ effect_of has_result op.now }
    ensures small { result.leaves ≤ 2 }
{
    match op {
        Op::Nop => moves(0, 0),
        Op::Dup => moves(1, 2),
        Op::Pop => moves(1, 0),
        Op::LdcI4(_)
        | Op::LdcI8(_)
        | Op::Ldnull
        | Op::Ldstr(_)
        | Op::Ldarg(_)
        | Op::Ldloc(_)
        | Op::Ldarga(_)
        | Op::Ldloca(_) => moves(0, 1),
        Op::Starg(_) | Op::Stloc(_) => moves(1, 0),
        Op::Add
        | Op::Sub
        | Op::Mul
        | Op::And
        | Op::Or
        | Op::Xor
        | Op::AddOvf
        | Op::SubOvf
        | Op::MulOvf
        | Op::AddOvfUn
        | Op::SubOvfUn
        | Op::MulOvfUn
        | Op::Div
        | Op::Rem
        | Op::DivUn
        | Op::RemUn
        | Op::Shl
        | Op::Shr
        | Op::ShrUn => moves(2, 1),
        Op::Neg | Op::Not | Op::ConvI4 | Op::ConvI8 | Op::ConvU8 | Op::ConvOvfI4 => moves(1, 1),
        Op::Ceq | Op::Cgt | Op::CgtUn | Op::Clt | Op::CltUn => moves(2, 1),
        Op::Br(_) => moves(0, 0),
        Op::Brtrue(_) | Op::Brfalse(_) => moves(1, 0),
        Op::Beq(_)
        | Op::BneUn(_)
        | Op::Bge(_)
        | Op::Bgt(_)
        | Op::Ble(_)
        | Op::Blt(_)
        | Op::BgeUn(_)
        | Op::BgtUn(_)
        | Op::BleUn(_)
        | Op::BltUn(_) => moves(2, 0),
        Op::Switch(_) => moves(1, 0),
        Op::Leave(_) => moves(0, 0),
        Op::Call(m) | Op::Callvirt(m) => call_effect(m),
        Op::Constrained(_, m) => constrained_effect(m),
        Op::Newobj(m) => new_effect(m),
        Op::Ret => moves(count_if(has_result), 0),
        Op::Ldfld(_) => moves(1, 1),
        Op::Stfld(_) => moves(2, 0),
        Op::Ldflda(_) => moves(1, 1),
        Op::Ldsfld(_) => moves(0, 1),
        Op::Stsfld(_) => moves(1, 0),
        Op::Ldsflda(_) => moves(0, 1),
        Op::Ldobj(_) => moves(1, 1),
        Op::Stobj(_) => moves(2, 0),
        Op::Initobj(_) => moves(1, 0),
        Op::Newarr(_) | Op::Ldlen => moves(1, 1),
        Op::Ldelem(_) => moves(2, 1),
        Op::Stelem(_) => moves(3, 0),
        Op::Box(_) | Op::UnboxAny(_) | Op::Castclass(_) | Op::Isinst(_) => moves(1, 1),
        Op::Throw | Op::WriteLineInt32 | Op::WriteLineInt64 | Op::WriteLineString => moves(1, 0),
        Op::CompareExchangeInt32 | Op::CompareExchangeInt64 | Op::CompareExchangeObject => moves(
            3, 1,
        ),
        Op::ExchangeInt32 | Op::ExchangeInt64 | Op::ExchangeObject | Op::AddInt32 | Op::AddInt64 =>
            moves(2, 1),
        Op::NameOf(_) => moves(0, 1),
        Op::Start => moves(1, 1),
        Op::Join => moves(1, 0),
        Op::Endfinally | Op::Rethrow => moves(0, 0),
        Op::Ldftn(_) => moves(0, 1),
        Op::Ldvirtftn(_) => moves(1, 1),
    }
}

fn moves(takes: usize, leaves: usize) -> Effect
    ensures { result ≡ moves takes leaves }
{
    Effect { takes, leaves }
}

fn count_if(is_there: bool) -> usize
    ensures value { result ≡ count_if is_there }
    ensures one { result ≤ 1 }
{
    if is_there { 1 } else { 0 }
}

// The values that a call leaves.
fn result_count(named: &MRef) -> usize
    ensures value { result ≡ result_count named.now }
    ensures one { result ≤ 1 }
{
    count_if(named.result.is_some())
}

fn call_effect(named: &MRef) -> Effect
    ensures value { result ≡ call_effect named.now }
    ensures small { result.leaves ≤ 2 }
{
    moves(
        named.params.as_slice().len() + count_if(named.instance),
        result_count(named),
    )
}

fn constrained_effect(named: &MRef) -> Effect
    ensures value { result ≡ constrained_effect named.now }
    ensures small { result.leaves ≤ 2 }
{
    moves(named.params.as_slice().len() + 1, result_count(named))
}

fn new_effect(named: &MRef) -> Effect
    ensures value { result ≡ new_effect named.now }
    ensures small { result.leaves ≤ 2 }
{
    moves(named.params.as_slice().len(), 1)
}
