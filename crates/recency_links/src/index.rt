//! The numbers of nodes, by address.
ghost use Rattle.std.specs.Prelude.{◌≡◌, ℕ, ◌+◌, OnOk, OnErr, Some, None, option_copied};
ghost use Rattle.recency_links.specs.Numbers.{number_at, IsNumbered};

use indexmap::IndexMap;
use net_addr::Ip;
use std::alloc::AllocError;

/// The number of the node of a client, or None where it isn't listed.
pub(crate) fn number_of(index: &IndexMap<Ip, u32>, ip: &Ip) -> Option<u32>
    ensures { result ≡ number_at index.now.entries ip.now }
{
    index.get(ip).copied()
}

/// Notes the number of a client's node.
pub(crate) fn note(index: &mut IndexMap<Ip, u32>, ip: Ip, number: u32) -> Result<(), AllocError>
    ensures noted { OnOk result (IsNumbered index.old.entries ip (Some number) index.new.entries) }
    ensures no_memory { OnErr result (index.new.entries ≡ index.old.entries) }
{
    match index.insert(ip, number) {
        Ok(_) => Ok(()),
        Err(_) => Err(AllocError),
    }
}

/// Forgets the number of a client's node.
pub(crate) fn forget(index: &mut IndexMap<Ip, u32>, ip: &Ip)
    ensures { IsNumbered index.old.entries ip.now None index.new.entries }
{
    index.swap_remove(ip);
}
