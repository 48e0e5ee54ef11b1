//! The codecs of PDUs and of telegrams, and the reader of layouts, for programs in C: a static library, which `zendurai_codecs.h`
//! declares. Only the reader of layouts takes memory.
#![tactic(auto)]

mod bytes;
mod key;
mod layouts;
mod pdu;
mod telegram;

pub use key::KeyRegisters;
pub use layouts::zendurai_layout_read;
pub use pdu::{PduFields, zendurai_pdu_read, zendurai_pdu_write};
pub use telegram::{TelegramFields, zendurai_telegram_read, zendurai_telegram_write};
