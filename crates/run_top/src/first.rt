// Instructions of the first form: what each asks of the stack.
ghost use Rattle.std.specs.Prelude.{◌≡◌, ◌≤◌, ◌↔◌, IsTrue};
ghost use Rattle.run_top.specs.WellFormed.{AllFind, FindsOperands, IsFine, IsWellFormed, deepest, depth_after};

/// An instruction of the first form. The forms are those of ECMA-335, Partition III.
#[derive(Clone, Copy, Debug, PartialEq, Eq)]
pub enum FirstOp {
    /// `ldc.i4 N`: pushes an int32.
    Push(i32),
    /// `add`: pops two int32 and pushes their sum, which wraps.
    Add,
    /// `call void System.Console::WriteLine(int32)`: pops an int32, which is printed.
    Print,
    /// `ret`: leaves the method.
    Ret,
}

/// Whether there are at most 16,384 instructions, each finds its operands, the stack is at most
/// 120 deep, and one `ret` stands last, at the empty stack.
pub(crate) fn is_well_formed(code: &[FirstOp]) -> bool
    ensures { IsTrue result ↔ IsWellFormed code.now }
{
    code.len() <= 16384 && is_fine(code)
}

/// The depth of the deepest stack, in values.
pub(crate) fn deepest_stack(code: &[FirstOp]) -> usize
    requires { IsWellFormed code.now }
    ensures value { result ≡ deepest 0 code.now }
    ensures bound { result ≤ 120 }
{
    deepest(code)
}

// Whether the instructions are in order from the empty stack on.
fn is_fine(code: &[FirstOp]) -> bool
    ensures { IsTrue result ↔ IsFine 0 code.now }
{
    let mut depth = 0usize;
    for (i, op) in code.iter().enumerate() {
        match op {
            FirstOp::Push(_) => {
                if depth >= 120 {
                    return false;
                }
                depth += 1;
            }
            FirstOp::Add => {
                if depth < 2 {
                    return false;
                }
                depth -= 1;
            }
            FirstOp::Print => {
                if depth < 1 {
                    return false;
                }
                depth -= 1;
            }
            FirstOp::Ret => return depth == 0 && i + 1 == code.len(),
        }
    }
    false
}

// The depth after an instruction that finds its operands.
fn depth_after(op: FirstOp, depth: usize) -> usize
    requires finds { FindsOperands op depth }
    requires bound { depth ≤ 120 }
    ensures { result ≡ depth_after op depth }
{
    match op {
        FirstOp::Push(_) => depth + 1,
        FirstOp::Add | FirstOp::Print => depth - 1,
        FirstOp::Ret => depth,
    }
}

// The deepest stack of instructions that are in order.
fn deepest(code: &[FirstOp]) -> usize
    requires { AllFind 0 code.now }
    ensures value { result ≡ deepest 0 code.now }
    ensures bound { result ≤ 120 }
{
    let mut depth = 0usize;
    let mut most = 0usize;
    for op in code {
        depth = depth_after(*op, depth);
        most = most.max(depth);
    }
    most
}
