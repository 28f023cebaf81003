// The notes of rows: what a call or a loop hands over, in one line.

ghost use Rattle.std.specs.Prelude.{◌≡◌, ◌++◌, IfOk, OnOk};
ghost use Rattle.std.specs.FinMap as finite;
ghost use Rattle.gh_log.specs.Texts.{numbers_text};
ghost use Rattle.gh_scene.specs.Rows as told;

use gh_assert::heap::Heap;
use gh_base::text::Text;
use gh_lens::exchange::Exchange;
use gh_lens::lines::{push_numbers, push_places};
use std::alloc::{AllocError, Global};

// Adds some words and numbers.
fn push_handed(
    alloc: Global,
    text: &mut Text,
    head: &[u8],
    numbers: &[u32],
) -> Result<(), AllocError>
    ensures { OnOk result (text.new ≡ text.old ++ (head.now ++ numbers_text numbers.now)) }
{
    text.push(head)?;
    push_numbers(alloc, text, numbers)?;
    Ok(())
}

// Adds some words and the places of a heap.
fn push_heap(alloc: Global, text: &mut Text, head: &[u8], heap: &Heap) -> Result<(), AllocError>
    ensures { OnOk result (text.new ≡ text.old ++ (head.now ++ numbers_text (finite.keys heap.now))) }
{
    text.push(head)?;
    push_places(alloc, text, heap)?;
    Ok(())
}

// What is handed over, in words.
fn exchange_note(alloc: Global, exchange: &Exchange) -> Result<Text, AllocError>
    ensures { IfOk result (λ t. t ≡ told.exchange_note exchange.now) }
{
    let mut text = Text::new(alloc);
    push_handed(
        alloc,
        &mut text,
        b"handed over:",
        exchange.handed.as_slice(),
    )?;
    push_heap(alloc, &mut text, b"; left aside:", &exchange.frame)?;
    push_heap(alloc, &mut text, b"; came back:", &exchange.back)?;
    Ok(text)
}

/// The note on what is handed over; it is empty where nothing is.
pub fn note(alloc: Global, exchange: &Option<Exchange>) -> Result<Text, AllocError>
    ensures { IfOk result (λ t. t ≡ told.note_text exchange.now) }
{
    match exchange {
        Some(exchange) => exchange_note(alloc, exchange),
        None => Ok(Text::new(alloc)),
    }
}

/// The cells that are left aside; none where nothing is handed over.
pub fn aside(alloc: Global, exchange: &Option<Exchange>) -> Result<Heap, AllocError>
    ensures { IfOk result (λ h. h ≡ told.aside exchange.now) }
{
    match exchange {
        Some(exchange) => exchange.frame.copy(alloc),
        None => Ok(Heap::new(alloc)),
    }
}
