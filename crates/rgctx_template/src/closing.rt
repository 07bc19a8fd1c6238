// Entries with arguments put for the variables that they name.
ghost use Rattle.std.specs.Prelude.{◌≡◌, IfOk, map};
ghost use Rattle.type_tree.specs.Substitution.{substituted};
ghost use Rattle.il_model.specs.Entries.{closed_entry};

use il_model::Entry;
use mn_outside::NoMemory;
use sqlite_items::Items;
use std::alloc::Global;
use type_tree::{TExpr, Tree, subst_whole};

fn closed_types(
    alloc: Global,
    kinds: &[TExpr],
    class_args: &[Tree],
    method_args: &[Tree],
) -> Result<Items<Tree>, NoMemory>
    ensures { IfOk result (λ trees. trees ≡ map (substituted class_args.now method_args.now) kinds.now) }
{
    let mut trees = Items::new(alloc);
    for kind in kinds {
        let Ok(()) = trees.push(subst_whole(alloc, kind, class_args, method_args)?) else {
            return Err(NoMemory);
        };
    }
    Ok(trees)
}

/// An entry with these arguments put for the variables that it names, those of the class and those of the method.
/// This project's own.
pub fn closed_entry(
    alloc: Global,
    entry: &Entry,
    class_args: &[Tree],
    method_args: &[Tree],
) -> Result<Entry, NoMemory>
    ensures { IfOk result (λ e. e ≡ closed_entry class_args.now method_args.now entry.now) }
{
    match entry {
        Entry::Kind(kind) => {
            let tree = subst_whole(alloc, kind, class_args, method_args)?;
            Ok(Entry::Kind(tree))
        }
        Entry::Method(number, class, args) => {
            let tree = subst_whole(alloc, class, class_args, method_args)?;
            let trees = closed_types(alloc, args.as_slice(), class_args, method_args)?;
            Ok(Entry::Method(*number, tree, trees))
        }
        Entry::Size(kind) => {
            let tree = subst_whole(alloc, kind, class_args, method_args)?;
            Ok(Entry::Size(tree))
        }
        Entry::Extent(kind) => {
            let tree = subst_whole(alloc, kind, class_args, method_args)?;
            Ok(Entry::Extent(tree))
        }
        Entry::Offset(class, place) => {
            let tree = subst_whole(alloc, class, class_args, method_args)?;
            Ok(Entry::Offset(tree, *place))
        }
        Entry::Slot(number) => Ok(Entry::Slot(*number)),
    }
}
