//! The links of sectors as a list.

ghost use Rattle.std.specs.Prelude.{◌≡◌, ◌+◌, length, IfOk};
ghost use Rattle.b67_backing.specs.Links.{links_in};

use b67_backing::Sectors;
use std::alloc::{AllocError, Global};

/// The links of all sectors, from 1 on. The free sectors are walked once for all of them, into a mark for each sector.
pub fn links_of(alloc: Global, sectors: &Sectors) -> Result<Vec<u32>, AllocError>
    ensures { IfOk result (λ links. links.items ≡ links_in sectors.now) }
{
    let mut free = vec![in alloc; false; sectors.count() as usize]?;
    links_marked(alloc, sectors, free.as_mut_slice())
}

/// The links of all sectors, given a place for the mark of each.
fn links_marked(alloc: Global, sectors: &Sectors, free: &mut [bool]) -> Result<Vec<u32>, AllocError>
    requires { length free.old + 1 ≡ length sectors.now.links }
    ensures { IfOk result (λ links. links.items ≡ links_in sectors.now) }
{
    let count = sectors.count();
    sectors.mark_free(1, free);
    let mut links = Vec::new(alloc);
    'each: for k in 0..count {
        links.push(sectors.link_marked(k + 1, free[k as usize]))?;
    }
    Ok(links)
}
