ghost use Rattle.std.specs.Prelude.{◌↔◌, IsTrue, IfOk};
ghost use Rattle.ante_wvalid.specs.Modules.{Twice};

use ante_wtree::Export;
use std::alloc::{AllocError, Global};
use std::collections::BTreeSet;

/// Whether two exports have one name.
pub fn export_twice(alloc: Global, exports: &[Export]) -> Result<bool, AllocError>
    ensures { IfOk result (λ found. IsTrue found ↔ Twice exports.now) }
{
    let mut seen = BTreeSet::new(alloc);
    let mut rest = exports;
    'exports: while let Some((export, tail)) = rest.split_first() {
        if !seen.insert(export.name.as_slice())? {
            return Ok(true);
        }
        rest = tail;
    }
    Ok(false)
}
