// The bases of a type upwards.
ghost use Rattle.std.specs.Prelude.{◌≡◌, IfOk};
ghost use Rattle.il_model.specs.Bases.{bases_of};

use crate::classes::base_of;
use il_model::Program;
use mn_outside::NoMemory;
use sqlite_items::Items;
use std::alloc::Global;
use type_tree::{TExpr, Tree};

/// The type and then its base classes upwards. A type that names no class has no base.
pub fn bases(alloc: Global, program: &Program, tree: &Tree) -> Result<Items<Tree>, NoMemory>
    ensures { IfOk result (λ all. all ≡ bases_of program.now tree.now) }
{
    let mut all: Items<TExpr> = Items::new(alloc);
    all.push(tree.copy(alloc)?).map_err(|_| NoMemory)?;
    let mut next = base_of(alloc, program, tree)?;
    for _ in 0..program.classes.len() {
        let Some(base) = next else {
            return Ok(all);
        };
        next = base_of(alloc, program, &base)?;
        all.push(base).map_err(|_| NoMemory)?;
    }
    Ok(all)
}
