use crate::{
    Head, TExpr, TNode, TooLarge, Tree, copy_all, is_closed, name_of, positions, same_all, subst,
    subst_whole,
};
use mn_outside::{Name, Refused};
use sqlite_items::Items;
use std::alloc::Global;
use std::test::Fail;

// The tree of a head with one argument, and with two.
fn one(alloc: Global, head: Head, part: TExpr) -> Result<TExpr, Fail> {
    let mut parts = Items::new(alloc);
    parts.push(part)?;
    Ok(TExpr::node(head, parts))
}

fn two(alloc: Global, head: Head, first: TExpr, second: TExpr) -> Result<TExpr, Fail> {
    let mut parts = Items::new(alloc);
    parts.push(first)?;
    parts.push(second)?;
    Ok(TExpr::node(head, parts))
}

// Class 2 with this many times the class's first variable.
fn repeated(alloc: Global, times: usize) -> Result<TExpr, Fail> {
    let mut parts = Items::new(alloc);
    for _ in 0..times {
        parts.push(TExpr::class_var(0))?;
    }
    Ok(TExpr::node(Head::Class(2), parts))
}

// A list of one tree.
fn only(alloc: Global, tree: TExpr) -> Result<Items<TExpr>, Fail> {
    let mut trees = Items::new(alloc);
    trees.push(tree)?;
    Ok(trees)
}

fn names(alloc: Global) -> Result<Vec<Name>, Fail> {
    let mut names = Vec::new(alloc);
    for text in ["object", "string", "Pair"] {
        names.push(Name::of(String::from_str(alloc, text)?))?;
    }
    Ok(names)
}

#[test]
fn prints_nested_arguments(rt: HostRuntime) -> Result<(), Fail> {
    let alloc = rt.alloc();
    let names = names(alloc)?;
    let int32 = TExpr::plain(alloc, Head::Int32);
    let pair = two(
        alloc,
        Head::Class(2),
        int32,
        TExpr::plain(alloc, Head::Class(1)),
    )?;
    let vector = one(alloc, Head::Vector, pair)?;
    let text = name_of(alloc, &vector, names.as_slice())?;
    assert_eq!(rt; text.as_slice(), b"Pair<int32,string>[]".as_slice());

    let flag = one(alloc, Head::Vector, TExpr::plain(alloc, Head::Bool))?;
    let inner = two(
        alloc,
        Head::Class(2),
        flag,
        TExpr::plain(alloc, Head::Int64),
    )?;
    let outer = two(alloc, Head::Class(2), vector, inner)?;
    let text = name_of(alloc, &outer, names.as_slice())?;
    assert_eq!(rt;
        text.as_slice(),
        b"Pair<Pair<int32,string>[],Pair<bool[],int64>>".as_slice()
    );
    Ok(())
}

#[test]
fn prints_variables_and_no_name(rt: HostRuntime) -> Result<(), Fail> {
    let alloc = rt.alloc();
    let names = names(alloc)?;
    let open = two(
        alloc,
        Head::Class(2),
        TExpr::class_var(0),
        TExpr::method_var(255),
    )?;
    let text = name_of(alloc, &open, names.as_slice())?;
    assert_eq!(rt; text.as_slice(), b"Pair<!0,!!255>".as_slice());
    let nameless = one(alloc, Head::Vector, TExpr::plain(alloc, Head::Class(3)))?;
    let text = name_of(alloc, &nameless, names.as_slice())?;
    assert_eq!(rt; text.as_slice(), b"[]".as_slice());
    Ok(())
}

#[test]
fn puts_arguments_for_variables(rt: HostRuntime) -> Result<(), Fail> {
    let alloc = rt.alloc();
    let names = names(alloc)?;
    let open = two(
        alloc,
        Head::Class(2),
        TExpr::class_var(0),
        TExpr::method_var(0),
    )?;
    let class_args = only(alloc, TExpr::plain(alloc, Head::Int32))?;
    let method_args = only(alloc, TExpr::plain(alloc, Head::Class(1)))?;
    let tree = subst(alloc, &open, class_args.as_slice(), method_args.as_slice())?;
    let text = name_of(alloc, &tree, names.as_slice())?;
    assert_eq!(rt; text.as_slice(), b"Pair<int32,string>".as_slice());
    let whole = subst_whole(alloc, &open, method_args.as_slice(), class_args.as_slice())?;
    let text = name_of(alloc, &whole, names.as_slice())?;
    assert_eq!(rt; text.as_slice(), b"Pair<string,int32>".as_slice());
    assert!(rt; !tree.same(&whole));
    assert!(rt; !is_closed(&open));
    assert!(rt; is_closed(&tree));
    Ok(())
}

#[test]
fn takes_256_positions_and_refuses_257(rt: HostRuntime) -> Result<(), Fail> {
    let alloc = rt.alloc();
    let int32 = only(alloc, TExpr::plain(alloc, Head::Int32))?;
    let largest = subst(alloc, &repeated(alloc, 255)?, int32.as_slice(), &[])?;
    assert_eq!(rt; positions(&largest), 256);
    let refused = subst(alloc, &repeated(alloc, 256)?, int32.as_slice(), &[]).err();
    assert!(rt; refused == Some(Refused::Fault(TooLarge { count: 257 })));
    assert_eq!(rt; positions(&repeated(alloc, 256)?), 257);

    let many = only(alloc, largest)?;
    let refused = subst(alloc, &repeated(alloc, 255)?, many.as_slice(), &[]).err();
    assert!(rt; refused == Some(Refused::Fault(TooLarge { count: 65281 })));
    Ok(())
}

#[test]
fn counts_large_arguments_once(rt: HostRuntime) -> Result<(), Fail> {
    let alloc = rt.alloc();
    let mut args = only(alloc, TExpr::plain(alloc, Head::Int32))?;
    for _ in 0..12 {
        args = only(
            alloc,
            subst_whole(alloc, &repeated(alloc, 2)?, args.as_slice(), &[])?,
        )?;
    }
    let refused = subst(alloc, &repeated(alloc, 100000)?, args.as_slice(), &[]).err();
    assert!(rt; refused == Some(Refused::Fault(TooLarge { count: 819100001 })));
    Ok(())
}

#[test]
fn goes_down_256_levels(rt: HostRuntime) -> Result<(), Fail> {
    let alloc = rt.alloc();
    let mut tree: Tree = TExpr::plain(alloc, Head::Int32);
    for _ in 0..255 {
        tree = one(alloc, Head::Vector, tree)?;
    }
    assert_eq!(rt; positions(&tree), 256);
    assert!(rt; tree.same(&tree.copy(alloc)?));
    assert_eq!(rt; name_of(alloc, &tree, &[])?.len(), 515);
    let is_vector = match tree.top() {
        TNode::Node(Head::Vector, parts) => parts.len() == 1,
        TNode::Node(_, _) | TNode::ClassVar(_) | TNode::MethodVar(_) => false,
    };
    assert!(rt; is_vector);
    let trees = only(alloc, tree)?;
    assert!(rt;
        same_all(
            trees.as_slice(),
            copy_all(alloc, trees.as_slice())?.as_slice()
        )
    );
    assert!(rt; !same_all(trees.as_slice(), &[]));
    Ok(())
}
