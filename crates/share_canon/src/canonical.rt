// The key that shared code has for given types.
ghost use Rattle.std.specs.Prelude.{◌≡◌, IfOk};
ghost use Rattle.share_canon.specs.Keys.{canonical, canonical_part, Serves};

use crate::serving::is_reference;
use il_model::{Key, KeyPart, Program};
use mn_outside::NoMemory;
use sqlite_items::Items;
use std::alloc::Global;
use type_tree::Tree;

/// The key of these types in code that is shared over references: a reference type becomes Ref, and every
/// other type stays Exact. It serves the types. A class that the program lacks is no reference type.
pub fn canon(alloc: Global, program: &Program, args: &[Tree]) -> Result<Key, NoMemory>
    ensures parts { IfOk result (λ key. key.parts ≡ canonical program.now args.now) }
    ensures serves { IfOk result (λ key. Serves program.now key.parts args.now) }
{
    let mut parts = Items::new(alloc);
    for arg in args {
        let part = canonical_part(alloc, program, arg)?;
        if parts.push(part).is_err() {
            return Err(NoMemory);
        }
    }
    Ok(Key { parts })
}

fn canonical_part(alloc: Global, program: &Program, arg: &Tree) -> Result<KeyPart, NoMemory>
    ensures { IfOk result (λ part. part ≡ canonical_part program.now arg.now) }
{
    if is_reference(program, arg) {
        return Ok(KeyPart::Ref);
    }
    Ok(KeyPart::Exact(arg.copy(alloc)?))
}
