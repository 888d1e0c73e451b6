//! The chains of sectors, by their links.

ghost use Rattle.std.specs.Prelude.{◌≡◌, ◌≢◌, ℕ, ◌+◌, ◌<◌, ◌≤◌, true, length, IfOk, slice_index_or, slice_index};
ghost use Rattle.std.specs.Bool.{OnTrue, OnFalse};
ghost use Rattle.b67_model.specs.declared.limits.TheConstants.{MOST_SECTORS};
ghost use Rattle.b67_backing.specs.Links.{AreInside, AreLed};
ghost use Rattle.b67_image_shape.specs.Chains.{IsChainHead, IsSectorChain, run_test, AreClaimed};

use std::alloc::{AllocError, Global};

/// Which sectors follow another one.
pub fn led_to(alloc: Global, links: &[u32]) -> Result<Vec<bool>, AllocError>
    requires inside { AreInside links.now }
    requires few { length links.now < MOST_SECTORS + 1 }
    ensures { IfOk result (λ led. AreLed links.now led.items) }
{
    let mut led = vec![in alloc; false; links.len() + 1]?;
    'each: for i in 0..links.len() {
        let link = links[i] as usize;
        if link != 0 && link != i + 1 {
            led[link] = true;
        }
    }
    Ok(led)
}

/// Whether so many sectors behind one are the rest of its chain.
fn runs_on(links: &[u32], first: usize, behind: u32) -> bool
    requires inside { AreInside links.now }
    requires low { 1 ≤ first }
    requires high { first ≤ length links.now }
    ensures { result ≡ run_test links.now behind first }
{
    let mut at = first;
    'walk: for _i in 0..behind {
        let next = links[at - 1] as usize;
        if next == at {
            return false;
        }
        if next == 0 {
            return false;
        }
        at = next;
    }
    links[at - 1] as usize == at
}

/// Whether a sector begins a chain.
fn is_head(links: &[u32], led: &[bool], n: usize) -> bool
    requires led { AreLed links.now led.now }
    ensures yes { OnTrue result (IsChainHead links.now n) }
    ensures not { OnFalse result (IsChainHead links.now n → ⊥) }
{
    if n == 0 {
        return false;
    }
    if n > links.len() {
        return false;
    }
    if links[n - 1] == 0 {
        return false;
    }
    !led[n]
}

/// Whether a chain of `many` sectors begins with sector `first`.
pub fn is_chain(links: &[u32], led: &[bool], first: usize, many: u32) -> bool
    requires inside { AreInside links.now }
    requires led { AreLed links.now led.now }
    requires some { 1 ≤ many }
    ensures yes { OnTrue result (IsSectorChain links.now first many) }
    ensures not { OnFalse result (IsSectorChain links.now first many → ⊥) }
{
    if !is_head(links, led, first) {
        return false;
    }
    runs_on(links, first, many - 1)
}

/// Whether each sector that begins a chain is marked.
pub fn are_claimed(links: &[u32], led: &[bool], claimed: &[bool]) -> bool
    requires led { AreLed links.now led.now }
    requires many { length claimed.now ≡ length links.now + 1 }
    ensures yes { OnTrue result (AreClaimed links.now claimed.now) }
    ensures not { OnFalse result (AreClaimed links.now claimed.now → ⊥) }
{
    'each: for i in 0..links.len() {
        if is_head(links, led, i + 1) && !claimed[i + 1] {
            return false;
        }
    }
    true
}
