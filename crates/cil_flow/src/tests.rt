// Small bodies with their depths and targets, or with the first fault.
use crate::{Effect, FlowCause, FlowFault, effect_of, flow};
use il_model::{Body, Clause, MRef, Op, PType, Sort};
use mn_outside::{Name, Refused};
use sqlite_items::Items;
use std::alloc::Global;
use std::process::Abort;
use std::test::Fail;
use type_tree::{Head, TExpr};

// An instruction by a letter, with its target where it has one.
fn op_of(alloc: Global, letter: u8, to: u32) -> Result<Op, Fail> {
    match letter {
        b'p' => Ok(Op::Ldnull),
        b'd' => Ok(Op::Pop),
        b'b' => Ok(Op::Br(to)),
        b't' => Ok(Op::Brtrue(to)),
        b's' => {
            let mut targets = Items::new(alloc);
            targets.push(to)?;
            Ok(Op::Switch(targets))
        }
        b'l' => Ok(Op::Leave(to)),
        b'r' => Ok(Op::Ret),
        b'e' => Ok(Op::Endfinally),
        _ => Ok(Op::Nop),
    }
}

fn body_of(
    alloc: Global,
    code: &[(u8, u32)],
    regions: &[(u32, u32, u32, u32)],
) -> Result<Body, Fail> {
    let mut ops = Items::new(alloc);
    for (letter, to) in code {
        ops.push(op_of(alloc, *letter, *to)?)?;
    }
    let mut clauses = Items::new(alloc);
    for (from, to, handler, end) in regions {
        clauses.push(Clause {
            from: *from,
            to: *to,
            sort: Sort::Catch(TExpr::plain(alloc, Head::Class(2))),
            handler: *handler,
            end: *end,
        })?;
    }
    Ok(Body {
        locals: Items::new(alloc),
        code: ops,
        clauses,
    })
}

// The body has these depths and targets.
fn flows(
    rt: &impl Abort,
    alloc: Global,
    body: &Body,
    depth: &[u32],
    targets: &[bool],
) -> Result<(), Fail> {
    assert!(rt; body.code.len() <= 16384);
    match flow(alloc, body, false) {
        Ok(found) => {
            assert_eq!(rt; found.depth.as_slice(), depth);
            assert_eq!(rt; found.targets.as_slice(), targets);
        }
        Err(_) => assert!(rt; false),
    }
    Ok(())
}

// The body has this first fault.
fn refused(
    rt: &impl Abort,
    alloc: Global,
    body: &Body,
    instr: u32,
    cause: FlowCause,
) -> Result<(), Fail> {
    assert!(rt; body.code.len() <= 16384);
    match flow(alloc, body, false) {
        Err(Refused::Fault(fault)) => assert_eq!(rt; fault, FlowFault { instr, cause }),
        Ok(_) | Err(Refused::NoMemory) => assert!(rt; false),
    }
    Ok(())
}

#[test]
fn sound_bodies(rt: HostRuntime) -> Result<(), Fail> {
    let alloc = rt.alloc();
    let straight = body_of(alloc, &[(b'p', 0), (b'd', 0), (b'r', 0)], &[])?;
    flows(&rt, alloc, &straight, &[0, 1, 0], &[false, false, false])?;
    let switch = body_of(alloc, &[(b'p', 0), (b's', 3), (b'n', 0), (b'r', 0)], &[])?;
    flows(
        &rt,
        alloc,
        &switch,
        &[0, 1, 0, 0],
        &[false, false, false, true],
    )?;
    let caught = body_of(
        alloc,
        &[(b'n', 0), (b'l', 4), (b'd', 0), (b'l', 4), (b'r', 0)],
        &[(0, 2, 2, 4)],
    )?;
    flows(
        &rt,
        alloc,
        &caught,
        &[0, 0, 1, 0, 0],
        &[false, false, false, false, true],
    )
}

#[test]
fn faults_of_one_instruction(rt: HostRuntime) -> Result<(), Fail> {
    let alloc = rt.alloc();
    let table: [(&[(u8, u32)], u32, FlowCause); 9] = [
        (&[(b'n', 0)], 0, FlowCause::BadFlow),
        (&[(b'b', 5)], 0, FlowCause::BadFlow),
        (&[(b'l', 1), (b'r', 0)], 0, FlowCause::BadFlow),
        (&[(b'r', 0), (b'e', 0)], 1, FlowCause::BadFlow),
        (&[(b'd', 0), (b'r', 0)], 0, FlowCause::Underflow),
        (&[(b'p', 0), (b'r', 0)], 1, FlowCause::Underflow),
        (&[(b'b', 2), (b'd', 0), (b'r', 0)], 1, FlowCause::Underflow),
        (
            &[(b'p', 0), (b't', 3), (b'p', 0), (b'r', 0)],
            2,
            FlowCause::BadFlow,
        ),
        (
            &[(b'b', 2), (b'r', 0), (b'p', 0), (b'b', 1)],
            3,
            FlowCause::BadFlow,
        ),
    ];
    for (code, instr, cause) in table.iter() {
        refused(&rt, alloc, &body_of(alloc, code, &[])?, *instr, *cause)?;
    }
    Ok(())
}

#[test]
fn faults_of_regions(rt: HostRuntime) -> Result<(), Fail> {
    let alloc = rt.alloc();
    let falls_in = body_of(
        alloc,
        &[(b'n', 0), (b'd', 0), (b'l', 3), (b'r', 0)],
        &[(0, 1, 1, 3)],
    )?;
    refused(&rt, alloc, &falls_in, 0, FlowCause::BadFlow)?;
    let returns = body_of(
        alloc,
        &[(b'n', 0), (b'r', 0), (b'd', 0), (b'l', 4), (b'r', 0)],
        &[(0, 2, 2, 4)],
    )?;
    refused(&rt, alloc, &returns, 1, FlowCause::BadFlow)?;
    let before = body_of(
        alloc,
        &[(b'd', 0), (b'l', 4), (b'n', 0), (b'l', 4), (b'r', 0)],
        &[(2, 4, 0, 2)],
    )?;
    refused(&rt, alloc, &before, 2, FlowCause::BadFlow)?;
    let full = body_of(
        alloc,
        &[
            (b'p', 0),
            (b'd', 0),
            (b'l', 5),
            (b'd', 0),
            (b'l', 5),
            (b'r', 0),
        ],
        &[(1, 3, 3, 5)],
    )?;
    refused(&rt, alloc, &full, 0, FlowCause::BadFlow)?;
    let vacant = body_of(
        alloc,
        &[(b'n', 0), (b'b', 4), (b'd', 0), (b'l', 4), (b'r', 0)],
        &[(2, 2, 2, 4)],
    )?;
    refused(&rt, alloc, &vacant, 0, FlowCause::BadFlow)
}

#[test]
fn calls(rt: HostRuntime) -> Result<(), Fail> {
    let alloc = rt.alloc();
    let mut params = Items::new(alloc);
    params.push(PType::Value(TExpr::plain(alloc, Head::Int32)))?;
    let call = Op::Call(MRef {
        instance: true,
        result: Some(TExpr::plain(alloc, Head::Int32)),
        class: TExpr::plain(alloc, Head::Class(13)),
        name: Name::of(String::from_str(alloc, "f")?),
        args: Items::new(alloc),
        params,
    });
    assert_eq!(rt;
        effect_of(&call, false),
        Effect {
            takes: 2,
            leaves: 1
        }
    );
    Ok(())
}
