//! Numbers that stand for items.
ghost use Rattle.std.specs.Prelude.{◌≡◌, ◌≤◌, ◌+◌, ◌*◌, IfOk};
ghost use Rattle.std.proofs.Math.ListN.{replicate};
ghost use Rattle.smk_base.specs.declared.rel.TheConstants.{ROW_LIMIT};

use std::alloc::{AllocError, Global};

/// Numbers of items, each below the count.
#[derive(Drop)]
pub(crate) struct Numbers {
    pub(crate) of: Vec<u32>,
    pub(crate) count: u32,
}

/// The number 0 for each of n items.
pub(crate) fn zeros(alloc: Global, n: u32) -> Result<Numbers, AllocError>
    ensures of { IfOk result (λ made. made.of.items ≡ replicate n 0) }
    ensures count { IfOk result (λ made. made.count ≡ 1) }
{
    let of = vec![in alloc; 0u32; n as usize]?;
    Ok(Numbers { of, count: 1 })
}

/// How many places a table for so many items may have.
pub(crate) fn table_limit(items: usize) -> u64
    requires { items ≤ 2 * ROW_LIMIT }
    ensures { result ≡ items * 4 + 1024 }
{
    items as u64 * 4 + 1024
}
