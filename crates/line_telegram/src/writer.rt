//! Telegrams of a line to bytes.

ghost use Rattle.std.specs.Prelude.{◌≡◌, ◌+◌, ◌≤◌, ◌++◌, Some, length};
ghost use Rattle.arrayvec.specs.ArrayVec.{array_vec_len};
ghost use Rattle.rasta_pdu.specs.Items.{IsItem};
ghost use Rattle.sci_telegram.specs.Messages.{agreement_byte};
ghost use Rattle.sci_telegram.specs.Names.{IsName, name_field};
ghost use Rattle.line_telegram.specs.LineMessages.{IsLineMessage, payload, reading, type_number, writing};

use crate::message::LineMessage;
use arrayvec::ArrayVec;
use line_laws::Item;
use rasta_pdu::Item as LinkItem;
use sci_telegram::{Agreement, Name};

/// The bytes of a telegram.
pub(crate) type Spelling = ArrayVec<u8, 61>;

/// The first byte.
const LINE: u8 = 0x50;

/// How many bytes the field of a name has, and so how many a name has at most.
const FIELD_LENGTH: usize = 20;

/// What stands after a name in its field.
const PADDING: [u8; FIELD_LENGTH] = [b'_'; FIELD_LENGTH];

// The type numbers, in the order of the table of telegrams (this profile).
pub(crate) const ASK: u16 = 0x0001;

pub(crate) const GIVE: u16 = 0x0002;

pub(crate) const QUERY: u16 = 0x0003;

pub(crate) const CLEAR: u16 = 0x0004;

pub(crate) const NO_TOKEN: u16 = 0x0005;

pub(crate) const VERSION_CHECK: u16 = 0x0024;

pub(crate) const VERSION_ANSWER: u16 = 0x0025;

/// Appends bytes for which there is room.
fn put(bytes: &mut Spelling, more: &[u8])
    requires { array_vec_len bytes.old + length more.now ≤ 61 }
    ensures { bytes.new.items ≡ bytes.old.items ++ more.now }
{
    let _ = bytes.try_extend_from_slice(more);
}

/// Appends the field of a name.
#[tactic(auto, using(crate::proofs::Fields::field_is, crate::proofs::Fields::field_has_20))]
fn put_name(bytes: &mut Spelling, name: &Name)
    requires { array_vec_len bytes.old ≤ 40 }
    ensures value { bytes.new.items ≡ bytes.old.items ++ name_field name.now }
    ensures fits { IsName name.now }
    ensures long { array_vec_len bytes.new ≡ array_vec_len bytes.old + 20 }
{
    let text = name.bytes();
    put(bytes, text);
    put(bytes, &PADDING[..FIELD_LENGTH - text.len()]);
}

fn agreement_byte(agreement: Agreement) -> u8
    ensures { result ≡ agreement_byte agreement }
{
    match agreement {
        Agreement::NoMatch => 1,
        Agreement::Match => 2,
    }
}

fn number_of(message: LineMessage) -> u16
    ensures { result ≡ type_number message }
{
    match message {
        LineMessage::Line(Item::Ask) => ASK,
        LineMessage::Line(Item::Give) => GIVE,
        LineMessage::Line(Item::Query) => QUERY,
        LineMessage::Line(Item::Clear) => CLEAR,
        LineMessage::Line(Item::NoToken) => NO_TOKEN,
        LineMessage::VersionCheck { .. } => VERSION_CHECK,
        LineMessage::VersionAnswer { .. } => VERSION_ANSWER,
    }
}

/// Appends the payload.
fn put_payload(bytes: &mut Spelling, message: LineMessage)
    requires { array_vec_len bytes.old ≤ 43 }
    ensures value { bytes.new.items ≡ bytes.old.items ++ payload message }
    ensures fits { IsLineMessage message }
    ensures long { array_vec_len bytes.new ≤ 45 }
{
    match message {
        LineMessage::Line(_) => put(bytes, &[]),
        LineMessage::VersionCheck { version } => put(bytes, &[version]),
        LineMessage::VersionAnswer { agreement, version } => {
            put(bytes, &[agreement_byte(agreement), version])
        }
    }
}

/// The bytes of a telegram.
#[tactic(auto, unfolding(crate::specs::LineMessages::writing))]
pub(crate) fn bytes_of(sender: &Name, receiver: &Name, message: LineMessage) -> Spelling
    ensures value { result.items ≡ writing sender.now receiver.now message }
    ensures sender { IsName sender.now }
    ensures receiver { IsName receiver.now }
    ensures message { IsLineMessage message }
{
    let mut bytes = ArrayVec::new();
    put(&mut bytes, &[LINE]);
    put(&mut bytes, &number_of(message).to_le_bytes());
    put_name(&mut bytes, sender);
    put_name(&mut bytes, receiver);
    put_payload(&mut bytes, message);
    bytes
}

/// The one spelling of a telegram, which every link can carry.
#[tactic(auto, using(crate::proofs::Reading::writing_is_item, crate::proofs::Reading::read_again))]
pub fn write(sender: &Name, receiver: &Name, message: LineMessage) -> LinkItem
    ensures value { result ≡ writing sender.now receiver.now message }
    ensures item { IsItem result }
    // It is read as this telegram again.
    ensures read_again { reading sender.now receiver.now result ≡ Some message }
{
    LinkItem::of(bytes_of(sender, receiver, message).as_slice()).unwrap()
}
