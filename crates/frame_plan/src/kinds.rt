// What a body is compiled for.
ghost use Rattle.std.specs.Prelude.{◌≡◌, ◌≤◌, ◌++◌, ◌∷◌, [], IfOk, OnOk, map, length, take, drop};
ghost use Rattle.frame_plan.specs.Widths.{stand_in, stand_ins_with};

use il_model::KeyPart;
use mn_outside::NoMemory;
use sqlite_items::Items;
use std::alloc::Global;
use type_tree::{Head, TExpr};

// What stands for the type variables of a class and of a method.
#[derive(Drop)]
pub(crate) struct StandIns {
    pub(crate) for_class: Items<TExpr>,
    pub(crate) for_method: Items<TExpr>,
}

// What stands for the variables of a method in a class with so many variables, by the parts of a key.
pub(crate) fn stand_ins_with(
    alloc: Global,
    count: usize,
    key: &[KeyPart],
) -> Result<StandIns, NoMemory>
    ensures { IfOk result (λ ins. ins ≡ stand_ins_with count key.now) }
{
    let (of_class, of_method) = key.split_at(front(count, key));
    let for_class = stand_ins(alloc, of_class)?;
    let for_method = stand_ins(alloc, of_method)?;
    Ok(StandIns {
        for_class,
        for_method,
    })
}

// How many parts are those of a class with so many variables.
#[tactic(auto, using(crate::proofs::KindLemmas::all_taken, crate::proofs::KindLemmas::none_left))]
fn front(count: usize, key: &[KeyPart]) -> usize
    ensures inside { result ≤ length key.now }
    ensures front { take result key.now ≡ take count key.now }
    ensures back { drop result key.now ≡ drop count key.now }
{
    if count < key.len() { count } else { key.len() }
}

// What stands for the type variables that have these parts.
fn stand_ins(alloc: Global, parts: &[KeyPart]) -> Result<Items<TExpr>, NoMemory>
    ensures { IfOk result (λ all. all ≡ map stand_in parts.now) }
{
    let mut all: Items<TExpr> = Items::new(alloc);
    for part in parts {
        put_kind(&mut all, stand_in(alloc, part)?)?;
    }
    Ok(all)
}

// Puts a type at the end.
fn put_kind(kinds: &mut Items<TExpr>, last: TExpr) -> Result<(), NoMemory>
    ensures { OnOk result (kinds.new ≡ kinds.old ++ last ∷ []) }
{
    kinds.push(last).map_err(|_| NoMemory)
}

fn stand_in(alloc: Global, part: &KeyPart) -> Result<TExpr, NoMemory>
    ensures { IfOk result (λ kind. kind ≡ stand_in part.now) }
{
    match part {
        KeyPart::Ref => Ok(TExpr::plain(alloc, Head::Class(0))),
        KeyPart::Any => Ok(TExpr::class_var(0)),
        KeyPart::Exact(tree) => tree.copy(alloc),
    }
}
