// How many arguments the calls of a body pass.
ghost use Rattle.std.specs.Prelude.{◌≡◌};
ghost use Rattle.frame_plan.specs.Named.{argument_count, passed_at, most_passed_in, code_in, most_passed};

use il_model::{Body, MRef, MethodDef, Op};

// The most arguments that a call of a method's body passes.
pub(crate) fn most_passed(method: &MethodDef) -> usize
    ensures { result ≡ most_passed method.now }
{
    most_passed_in(code(&method.body))
}

fn code(body: &Option<Body>) -> &[Op]
    ensures { result.now ≡ code_in body.now }
{
    match body {
        Some(body) => body.code.as_slice(),
        None => &[],
    }
}

fn most_passed_in(code: &[Op]) -> usize
    ensures { result ≡ most_passed_in code.now }
{
    let mut most = 0;
    for op in code {
        let passed = passed_at(op);
        if passed > most {
            most = passed;
        }
    }
    most
}

// The arguments that an instruction passes.
fn passed_at(op: &Op) -> usize
    ensures { result ≡ passed_at op.now }
{
    match op {
        Op::Call(m) | Op::Callvirt(m) | Op::Constrained(_, m) | Op::Newobj(m) => argument_count(m),
        Op::Nop
        | Op::Dup
        | Op::Pop
        | Op::LdcI4(_)
        | Op::LdcI8(_)
        | Op::Ldnull
        | Op::Ldstr(_)
        | Op::Ldarg(_)
        | Op::Ldloc(_)
        | Op::Ldarga(_)
        | Op::Ldloca(_)
        | Op::Starg(_)
        | Op::Stloc(_)
        | Op::Add
        | Op::Sub
        | Op::Mul
        | Op::And
        | Op::Or
        | Op::Xor
        | Op::AddOvf
        | Op::SubOvf
        | Op::MulOvf
        | Op::AddOvfUn
        | Op::SubOvfUn
        | Op::MulOvfUn
        | Op::Div
        | Op::Rem
        | Op::DivUn
        | Op::RemUn
        | Op::Shl
        | Op::Shr
        | Op::ShrUn
        | Op::Neg
        | Op::Not
        | Op::ConvI4
        | Op::ConvI8
        | Op::ConvU8
        | Op::ConvOvfI4
        | Op::Ceq
        | Op::Cgt
        | Op::CgtUn
        | Op::Clt
        | Op::CltUn
        | Op::Br(_)
        | Op::Brtrue(_)
        | Op::Brfalse(_)
        | Op::Beq(_)
        | Op::BneUn(_)
        | Op::Bge(_)
        | Op::Bgt(_)
        | Op::Ble(_)
        | Op::Blt(_)
        | Op::BgeUn(_)
        | Op::BgtUn(_)
        | Op::BleUn(_)
        | Op::BltUn(_)
        | Op::Switch(_)
        | Op::Leave(_)
        | Op::Ret
        | Op::Ldfld(_)
        | Op::Stfld(_)
        | Op::Ldflda(_)
        | Op::Ldsfld(_)
        | Op::Stsfld(_)
        | Op::Ldsflda(_)
        | Op::Ldobj(_)
        | Op::Stobj(_)
        | Op::Initobj(_)
        | Op::Newarr(_)
        | Op::Ldlen
        | Op::Ldelem(_)
        | Op::Stelem(_)
        | Op::Box(_)
        | Op::UnboxAny(_)
        | Op::Castclass(_)
        | Op::Isinst(_)
        | Op::Throw
        | Op::WriteLineInt32
        | Op::WriteLineInt64
        | Op::WriteLineString
        | Op::CompareExchangeInt32
        | Op::CompareExchangeInt64
        | Op::CompareExchangeObject
        | Op::ExchangeInt32
        | Op::ExchangeInt64
        | Op::ExchangeObject
        | Op::AddInt32
        | Op::AddInt64
        | Op::NameOf(_)
        | Op::Start
        | Op::Join
        | Op::Endfinally
        | Op::Rethrow
        | Op::Ldftn(_)
        | Op::Ldvirtftn(_) => 0,
    }
}

fn argument_count(named: &MRef) -> usize
    ensures { result ≡ argument_count named.now }
{
    let params = named.params.as_slice().len();
    if named.instance { params + 1 } else { params }
}
