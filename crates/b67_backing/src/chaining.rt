//! Which links are those of disjoint chains.

ghost use Rattle.std.specs.Prelude.{◌≡◌, ℕ, ◌+◌, ◌<◌, ◌≤◌, List, length, IfOk};
ghost use Rattle.std.specs.Bool.{OnTrue, OnFalse};
ghost use Rattle.b67_backing.specs.Shelf.{uses};
ghost use Rattle.b67_backing.specs.Links.{AreLinksOf, AreInside, AreLed, Walked, AreRuns, AreMarkedBy, mark, NoChainOver, Reaches, TellChains};

use std::alloc::{AllocError, Global};

/// Whether each link is at most the number of sectors.
fn are_inside(links: &[u32]) -> bool
    ensures yes { OnTrue result (AreInside links.now) }
    ensures not { OnFalse result (AreInside links.now → ⊥) }
{
    let count = links.len();
    'inside: for link in links {
        if *link as usize > count {
            return false;
        }
    }
    true
}

/// Which sectors follow another one.
fn led_to(alloc: Global, links: &[u32]) -> Result<Vec<bool>, AllocError>
    requires inside { AreInside links.now }
    requires few { length links.now < 1048576 }
    ensures { IfOk result (λ led. AreLed links.now led.items) }
{
    let mut led = vec![in alloc; false; links.len() + 1]?;
    'each: for i in 0..links.len() {
        let link = links[i] as usize;
        if link != 0 && link != i + 1 {
            led[link] = true;
        }
    }
    Ok(led)
}

/// Marks the sectors from one on, up to the last of its chain. False if a sector is met that is marked, or one without a link.
fn mark_chain(links: &[u32], first: usize, seen: &mut [bool]) -> bool
    requires inside { AreInside links.now }
    requires low { 1 ≤ first }
    requires high { first ≤ length links.now }
    requires many { length seen.old ≡ length links.now + 1 }
    ensures done { OnTrue result ((cs : List ℕ) × Walked links.now first cs seen.old seen.new) }
    ensures not { OnFalse result (NoChainOver links.now first seen.old) }
{
    let mut at = first;
    'walk: while !seen[at] {
        let next = links[at - 1] as usize;
        if next == 0 {
            return false;
        }
        seen[at] = true;
        if next == at {
            return true;
        }
        at = next;
    }
    false
}

/// Marks all sectors of all chains that begin with a sector that follows none. False if two of them meet, or one comes to
/// a sector without a link.
fn mark_chains(links: &[u32], led: &[bool], seen: &mut [bool]) -> bool
    requires inside { AreInside links.now }
    requires led { AreLed links.now led.now }
    requires many { length seen.old ≡ length links.now + 1 }
    requires none { (i : ℕ) → mark seen.old i ≡ 0 }
    ensures done { OnTrue result (AreMarkedBy links.now seen.new) }
    ensures all { OnTrue result ((ks : List (List ℕ)) → AreLinksOf links.now ks → (i : ℕ) → mark seen.new i ≡ uses i ks) }
    ensures not { OnFalse result ((ks : List (List ℕ)) → AreLinksOf links.now ks → ⊥) }
{
    'heads: for i in 0..links.len() {
        if links[i] != 0 && !led[i + 1] {
            if !mark_chain(links, i + 1, seen) {
                return false;
            }
        }
    }
    true
}

/// Whether each sector with a link is marked.
fn are_marked(links: &[u32], seen: &[bool]) -> bool
    requires { length seen.now ≡ length links.now + 1 }
    ensures yes { OnTrue result (Reaches links.now seen.now) }
    ensures not { OnFalse result (Reaches links.now seen.now → ⊥) }
{
    'each: for i in 0..links.len() {
        if links[i] != 0 && !seen[i + 1] {
            return false;
        }
    }
    true
}

/// Whether the chains that begin with sectors that follow none are all chains.
fn are_chains(links: &[u32], led: &[bool], seen: &mut [bool]) -> bool
    requires inside { AreInside links.now }
    requires some { 1 ≤ length links.now }
    requires few { length links.now < 1048576 }
    requires led { AreLed links.now led.now }
    requires many { length seen.old ≡ length links.now + 1 }
    requires none { (i : ℕ) → mark seen.old i ≡ 0 }
    ensures some { OnTrue result ((ks : List (List ℕ)) × AreLinksOf links.now ks) }
    ensures none { OnFalse result ((ks : List (List ℕ)) → AreLinksOf links.now ks → ⊥) }
{
    if !mark_chains(links, led, seen) {
        return false;
    }
    if !are_marked(links, seen) {
        return false;
    }
    true
}

/// Whether these are the links of disjoint chains, those of sectors from 1 on.
pub fn are_of_chains(alloc: Global, links: &[u32]) -> Result<bool, AllocError>
    ensures some { IfOk result (λ b. OnTrue b ((ks : List (List ℕ)) × AreLinksOf links.now ks)) }
    ensures none { IfOk result (λ b. OnFalse b ((ks : List (List ℕ)) → AreLinksOf links.now ks → ⊥)) }
{
    if links.is_empty() || links.len() >= 0x10_0000 {
        return Ok(false);
    }
    if !are_inside(links) {
        return Ok(false);
    }
    let led = led_to(alloc, links)?;
    let mut seen = vec![in alloc; false; links.len() + 1]?;
    Ok(are_chains(links, led.as_slice(), seen.as_mut_slice()))
}

/// The links that sectors tell are those of their chains.
pub fn sectors_tell_chains()
    ensures { TellChains }
{}
