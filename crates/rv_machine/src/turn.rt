// One step.
ghost use Rattle.std.specs.Prelude.{◌≡◌, ◌%◌};
ghost use Rattle.rv_machine.specs.Steps.{fetched, bytes_of, loaded, fault_of, Loaded, Stored, Does, Steps};

use crate::arithmetic::{extended_8, extended_16, extended_32};
use crate::bus::Bus;
use crate::effect::Effect;
use crate::effects::effect;
use crate::outcome::Step;
use crate::registers::{Core, next, set};
use crate::size::{Size, bytes, cut, is_misaligned};
use mn_outside::{FaultCause, MachineFault};
use rv_isa::{Reg, decode};

// The address of the first code word.
const CODE: u64 = 65536;

// The code word at an address.
#[inline]
fn fetch(pc: u64, code: &[u32]) -> Option<u32>
    ensures { result ≡ fetched code.now pc }
{
    if pc < CODE || pc % 4 != 0 {
        return None;
    }
    code.get(((pc - CODE) / 4) as usize).copied()
}

// A fault at the core's pc.
#[inline]
fn fault(core: &Core, cause: FaultCause) -> Step
    ensures { result ≡ fault_of cause core.now }
{
    Step::Fault(MachineFault { pc: core.pc, cause })
}

// What a load puts into its register.
#[inline]
fn extend(size: Size, sign: bool, word: u64) -> u64
    ensures { result ≡ loaded size sign word }
{
    if !sign {
        return cut(size, word);
    }
    match size {
        Size::One => extended_8(word),
        Size::Two => extended_16(word),
        Size::Four => extended_32(word),
        Size::Eight => word,
    }
}

// One load.
#[inline]
fn load<B: Bus>(core: &mut Core, bus: &mut B, rd: Reg, size: Size, sign: bool, address: u64) -> Step
    requires { address % bytes_of size ≡ 0 }
    ensures { Loaded B.reads rd size sign address core.old bus.old result core.new bus.new }
{
    match bus.read(address, bytes(size)) {
        Some(word) => {
            let pc = next(core);
            set(core, rd, extend(size, sign, word), pc);
            Step::Went
        }
        None => fault(core, FaultCause::Access(address)),
    }
}

// One store.
#[inline]
fn store<B: Bus>(core: &mut Core, bus: &mut B, size: Size, address: u64, word: u64) -> Step
    requires { address % bytes_of size ≡ 0 }
    ensures { Stored B.writes size address word core.old bus.old result core.new bus.new }
{
    if bus.write(address, bytes(size), cut(size, word)) {
        core.pc = next(core);
        return Step::Went;
    }
    fault(core, FaultCause::Access(address))
}

// Does what an instruction asks for.
#[inline]
fn perform<B: Bus>(effect: Effect, core: &mut Core, bus: &mut B) -> Step
    ensures { Does B.reads B.writes effect core.old bus.old result core.new bus.new }
{
    match effect {
        Effect::Sets(rd, word) => {
            let pc = next(core);
            set(core, rd, word, pc);
            Step::Went
        }
        Effect::Loads(rd, size, sign, address) => {
            if is_misaligned(size, address) {
                return fault(core, FaultCause::Misaligned(address));
            }
            load(core, bus, rd, size, sign, address)
        }
        Effect::Stores(size, address, word) => {
            if is_misaligned(size, address) {
                return fault(core, FaultCause::Misaligned(address));
            }
            store(core, bus, size, address, word)
        }
        Effect::Goes(rd, target) => {
            let link = next(core);
            set(core, rd, link, target);
            Step::Went
        }
        Effect::Calls => {
            core.pc = next(core);
            Step::Call
        }
        Effect::Breaks => fault(core, FaultCause::Break),
    }
}

/// One instruction: the code word at the core's pc, where code word i is at 65,536 + 4 i.
/// It makes the one access of its instruction to the bus, or none. A jump or a taken branch
/// completes whatever its target is. On a fault the core and the bus are as before; an address
/// that isn't a multiple of its access's size is Misaligned before the bus is asked. No memory is taken.
pub fn step<B: Bus>(core: &mut Core, code: &[u32], bus: &mut B) -> Step
    ensures { Steps B.reads B.writes code.now core.old bus.old result core.new bus.new }
{
    let Some(word) = fetch(core.pc, code) else {
        return fault(core, FaultCause::Fetch);
    };
    let Some(instr) = decode(word) else {
        return fault(core, FaultCause::Undefined(word));
    };
    let asked = effect(&instr, core);
    perform(asked, core, bus)
}
