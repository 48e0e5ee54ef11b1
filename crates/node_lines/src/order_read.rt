//! The order that a line says.

ghost use Rattle.std.specs.Prelude.{◌≡◌};
ghost use Rattle.replay_words.specs.Cut.{words};
ghost use Rattle.node_lines.specs.Orders.{alone, driven, driven_to, line_of, numbered, order_as, order_line_said, order_said, shown, shown_as, until_said, with_until};
ghost use Rattle.node_lines.specs.declared.order.Order.TheVariants.{Drive, ShowProceed, ShowSlow};

use crate::order::{Order, OrderLine};
use replay_lines::ixl_spec::{Aspect, Side};
use replay_words::{Fault, Words, both, decimal};

/// The order that a line says, or the lowest fault of its words.
pub fn read_order(line: &str) -> Result<OrderLine, Fault>
    ensures { result ≡ order_line_said (words line.now) }
{
    let mut words = Words::of(line);
    let (Some(number), Some(at), Some(reading)) = (words.next(), words.next(), words.next()) else {
        return Err(Fault::Words);
    };
    numbered(number, at, reading, words)
}

fn numbered(number: &str, at: &str, reading: &str, order: Words<'_>) -> Result<OrderLine, Fault>
    ensures { result ≡ numbered number.now at.now reading.now order.entry }
{
    if at == "at" {
        let numbers = both(decimal(number), decimal(reading));
        line_of(both(numbers, said_order(order)))
    } else {
        Err(Fault::Words)
    }
}

fn line_of(said: Result<((u64, u64), Order), Fault>) -> Result<OrderLine, Fault>
    ensures { result ≡ line_of said }
{
    match said {
        Ok(((number, reading), order)) => Ok(OrderLine {
            number,
            reading,
            order,
        }),
        Err(fault) => Err(fault),
    }
}

fn said_order(mut words: Words<'_>) -> Result<Order, Fault>
    ensures { result ≡ order_said words.entry }
{
    match words.next() {
        Some(word) => order_as(word, words),
        None => Err(Fault::Words),
    }
}

// By the first word of an order.
fn order_as(word: &str, more: Words<'_>) -> Result<Order, Fault>
    ensures { result ≡ order_as word.now more.entry }
{
    if word == "show" {
        shown(more)
    } else if word == "drive" {
        driven(more)
    } else {
        Err(Fault::Words)
    }
}

fn shown(mut words: Words<'_>) -> Result<Order, Fault>
    ensures { result ≡ shown words.entry }
{
    match words.next() {
        Some(aspect) => shown_as(aspect, words),
        None => Err(Fault::Words),
    }
}

fn shown_as(aspect: &str, more: Words<'_>) -> Result<Order, Fault>
    ensures { result ≡ shown_as aspect.now more.entry }
{
    match Aspect::of_word(aspect) {
        Some(Aspect::Stop) => alone(more, Order::ShowStop),
        Some(Aspect::Proceed) => proceed_until(more),
        Some(Aspect::Slow) => slow_until(more),
        None => Err(Fault::Words),
    }
}

fn proceed_until(words: Words<'_>) -> Result<Order, Fault>
    ensures { result ≡ with_until (λ until. ShowProceed until) words.entry }
{
    Ok(Order::ShowProceed {
        until: until(words)?,
    })
}

fn slow_until(words: Words<'_>) -> Result<Order, Fault>
    ensures { result ≡ with_until (λ until. ShowSlow until) words.entry }
{
    Ok(Order::ShowSlow {
        until: until(words)?,
    })
}

fn driven(mut words: Words<'_>) -> Result<Order, Fault>
    ensures { result ≡ driven words.entry }
{
    match words.next() {
        Some(to) => driven_to(to, words),
        None => Err(Fault::Words),
    }
}

fn driven_to(to: &str, more: Words<'_>) -> Result<Order, Fault>
    ensures { result ≡ driven_to to.now more.entry }
{
    if to == "none" {
        return alone(more, Order::DriveNone);
    }
    match Side::of_word(to) {
        Some(side) => drive_until(side, more),
        None => Err(Fault::Words),
    }
}

fn drive_until(side: Side, words: Words<'_>) -> Result<Order, Fault>
    ensures { result ≡ with_until (λ until. Drive side until) words.entry }
{
    Ok(Order::Drive {
        side,
        until: until(words)?,
    })
}

// An order after which nothing stands.
fn alone(mut words: Words<'_>, order: Order) -> Result<Order, Fault>
    ensures { result ≡ alone order words.entry }
{
    match words.next() {
        None => Ok(order),
        Some(_) => Err(Fault::Words),
    }
}

// The moment up to which an order stands.
fn until(mut words: Words<'_>) -> Result<u64, Fault>
    ensures { result ≡ until_said words.entry }
{
    let (Some(word), Some(number), None) = (words.next(), words.next(), words.next()) else {
        return Err(Fault::Words);
    };
    if word != "until" {
        return Err(Fault::Words);
    }
    decimal(number)
}
