//! What an exercise makes and stores.

ghost use Rattle.std.specs.Prelude.{◌≡◌, ◌<◌, ◌≤◌, ◌+◌, ◌*◌, IfOk, length, ℕ, List};
ghost use Rattle.std.specs.List.{AllByRecursion};
ghost use Rattle.b67_gen.specs.Generated.{lengths, drawn_store, stores, after_draws};

use crate::draws::Draws;
use std::alloc::{AllocError, Global};

/// A store into an array: its number, counted from 0, the index, and the value.
#[derive(Clone, Copy, Debug, PartialEq, Eq)]
pub struct Store {
    pub array: u32,
    pub index: u32,
    pub value: u32,
}

/// The lengths of `size` arrays.
pub fn draw_lengths(alloc: Global, draws: &mut Draws, size: u32) -> Result<Vec<u32>, AllocError>
    ensures lengths { IfOk result (λ arrays. arrays.items ≡ lengths size draws.old.state) }
    ensures state { IfOk result (λ arrays. draws.new.state ≡ after_draws size draws.old.state) }
{
    let mut arrays = Vec::new(alloc);
    'arrays: for _ in 0..size {
        arrays.push(50 + draws.below(200))?;
    }
    Ok(arrays)
}

/// A store into one of these arrays.
fn draw_store(draws: &mut Draws, arrays: &[u32]) -> Store
    requires some { 0 < length arrays.now }
    requires few { length arrays.now < 65536 }
    requires long { AllByRecursion (λ n. 0 < n) arrays.now }
    ensures store { result ≡ drawn_store arrays.now draws.old.state }
    ensures state { draws.new.state ≡ after_draws 3 draws.old.state }
{
    let array = draws.below(arrays.len() as u32);
    let index = draws.below(arrays[array as usize]);
    Store {
        array,
        index,
        value: draws.below(1000),
    }
}

/// So many stores into these arrays.
pub fn draw_stores(
    alloc: Global,
    draws: &mut Draws,
    arrays: &[u32],
    count: u32,
) -> Result<Vec<Store>, AllocError>
    requires some { 0 < length arrays.now }
    requires few { length arrays.now < 65536 }
    requires long { AllByRecursion (λ n. 0 < n) arrays.now }
    ensures { IfOk result (λ all. all.items ≡ stores arrays.now count draws.old.state) }
{
    let mut all = Vec::new(alloc);
    'stores: for _ in 0..count {
        all.push(draw_store(draws, arrays))?;
    }
    Ok(all)
}
