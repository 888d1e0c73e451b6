//! The text of an exercise's deck.

ghost use Rattle.std.specs.Prelude.{◌≡◌, ◌++◌, OnOk, IfOk, decimal};
ghost use Rattle.b67_io.specs.Line.{ended};
ghost use Rattle.std.specs.List.{flat_map};
ghost use Rattle.b67_gen.specs.Generated.{literal_card, cell_card, making, storing, adding, on_lines, cards_over};

use crate::stores::Store;
use b67_word::Bytes;
use itoa::Buffer;
use std::alloc::{AllocError, Global};

fn put_text(text: &str, into: &mut Bytes) -> Result<(), AllocError>
    ensures { OnOk result (into.new ≡ into.old ++ text.now) }
{
    into.extend(text.as_bytes())?;
    Ok(())
}

fn put_numbered(front: &str, n: u64, into: &mut Bytes) -> Result<(), AllocError>
    ensures { OnOk result (into.new ≡ into.old ++ ended (front.now ++ decimal n)) }
{
    let mut buffer = Buffer::new();
    into.extend(front.as_bytes())?;
    into.extend(buffer.format(n).as_bytes())?;
    into.push(b'\n')?;
    Ok(())
}

fn put_literal(n: u32, into: &mut Bytes) -> Result<(), AllocError>
    ensures { OnOk result (into.new ≡ into.old ++ ended (literal_card n)) }
{
    put_numbered("LT16 ", u64::from(n), into)
}

fn put_cell(array: u32, into: &mut Bytes) -> Result<(), AllocError>
    ensures { OnOk result (into.new ≡ into.old ++ ended (cell_card array)) }
{
    put_numbered("NAMC 2,", u64::from(array) + 2, into)
}

// An array of `words` words.
fn put_making(words: u32, into: &mut Bytes) -> Result<(), AllocError>
    ensures { OnOk result (into.new ≡ into.old ++ on_lines (making words)) }
{
    put_text("MKST\nNAMC 0,8\n", into)?;
    put_literal(words, into)?;
    put_text("ENTR\n", into)?;
    Ok(())
}

fn put_storing(store: Store, into: &mut Bytes) -> Result<(), AllocError>
    ensures { OnOk result (into.new ≡ into.old ++ on_lines (storing store)) }
{
    put_literal(store.value, into)?;
    put_cell(store.array, into)?;
    put_literal(store.index, into)?;
    put_text("INDX\nSTOD\n", into)?;
    Ok(())
}

// The stored element is added to the sum.
fn put_adding(store: Store, into: &mut Bytes) -> Result<(), AllocError>
    ensures { OnOk result (into.new ≡ into.old ++ on_lines (adding store)) }
{
    put_cell(store.array, into)?;
    put_literal(store.index, into)?;
    put_text("NXLV\nADD\n", into)?;
    Ok(())
}

fn put_makings(arrays: &[u32], into: &mut Bytes) -> Result<(), AllocError>
    ensures { OnOk result (into.new ≡ into.old ++ on_lines (flat_map making arrays.now)) }
{
    'arrays: for words in arrays {
        put_making(*words, into)?;
    }
    Ok(())
}

fn put_storings(stores: &[Store], into: &mut Bytes) -> Result<(), AllocError>
    ensures { OnOk result (into.new ≡ into.old ++ on_lines (flat_map storing stores.now)) }
{
    'stores: for store in stores {
        put_storing(*store, into)?;
    }
    Ok(())
}

fn put_addings(stores: &[Store], into: &mut Bytes) -> Result<(), AllocError>
    ensures { OnOk result (into.new ≡ into.old ++ on_lines (flat_map adding stores.now)) }
{
    'stores: for store in stores {
        put_adding(*store, into)?;
    }
    Ok(())
}

/// The cards of an exercise over these arrays and stores, each on a line.
pub fn text_over(alloc: Global, arrays: &[u32], stores: &[Store]) -> Result<Bytes, AllocError>
    ensures { IfOk result (λ text. text ≡ on_lines (cards_over arrays.now stores.now)) }
{
    let mut text = Bytes::new(alloc);
    put_text(
        "?STACK 1024\n?JOB EXERCISE\n?ASM\nSEGMENT MAIN 2\n",
        &mut text,
    )?;
    put_makings(arrays, &mut text)?;
    put_storings(stores, &mut text)?;
    put_text("MKST\nNAMC 0,9\nZERO\n", &mut text)?;
    put_addings(stores, &mut text)?;
    put_text("ENTR\nEXIT\n?END\n", &mut text)?;
    Ok(text)
}
