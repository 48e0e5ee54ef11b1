//! The desk of a drawing is opened.

ghost use Rattle.std.specs.Prelude.{◌≡◌, IfOk, string_bytes};
ghost use Rattle.draw_desk.specs.Opened.{access_at, opened};

use crate::access::OwnAccess;
use crate::desk::Desk;
use crate::known::Known;
use crate::outside::Outside;
use crate::own_text::OwnText;
use crate::panel_asked::PanelStage;
use bytes::Bytes;
use std::alloc::{AllocError, Global};
use std::io;
use std::random::RandomSource;

/// The page of a drawing, and where it is.
#[derive(Clone, Copy)]
pub struct PageDrawn<'a> {
    /// The page that is served.
    pub page: &'a str,
    /// The path of the file that is drawn.
    pub file: &'a str,
    /// The version of the program.
    pub version: &'static str,
    /// The port of the page, on the loopback interface.
    pub port: u16,
}

/// Opens the desk of a drawing. A token is drawn for its page.
pub fn open_desk<R: RandomSource, O: Outside + Drop>(
    rt: &R,
    alloc: Global,
    asked: &PageDrawn<'_>,
    outside: O,
) -> io::Result<Desk<O>>
    ensures { IfOk result (λ desk. desk ≡ opened asked.now desk.access.token (O.calls outside)) }
{
    let token = draw_token(rt, alloc)?;
    Ok(desk_with(alloc, asked, token, outside)?)
}

/// The desk of a drawing whose page is given a token.
fn desk_with<O: Outside + Drop>(
    alloc: Global,
    asked: &PageDrawn<'_>,
    token: String,
    outside: O,
) -> Result<Desk<O>, AllocError>
    ensures { IfOk result (λ desk. desk ≡ opened asked.now (string_bytes token) (O.calls outside)) }
{
    let access = access_at(alloc, asked.port, token)?;
    Ok(Desk {
        alloc,
        access,
        page: Bytes::copy_from_slice(alloc, asked.page.as_bytes())?,
        file: OwnText::of(alloc, asked.file)?,
        version: asked.version,
        known: Known {
            number: 0,
            text: None,
        },
        checked: None,
        stage: PanelStage::Idle,
        outside,
    })
}

/// By what a browser knows a desk at a port of the loopback interface, and the token that its page is given.
fn access_at(alloc: Global, port: u16, token: String) -> Result<OwnAccess, AllocError>
    ensures { IfOk result (λ access. access ≡ access_at port (string_bytes token)) }
{
    Ok(OwnAccess {
        host: format!(in alloc; "127.0.0.1:{port}")?,
        origin: format!(in alloc; "http://127.0.0.1:{port}")?,
        token,
    })
}

/// A token that nobody guesses.
fn draw_token<R: RandomSource>(rt: &R, alloc: Global) -> io::Result<String> {
    let (first, second) = (drawn(rt)?, drawn(rt)?);
    Ok(format!(in alloc; "{first}-{second}")?)
}

/// A number that is drawn from the machine's random source.
fn drawn<R: RandomSource>(rt: &R) -> io::Result<u64> {
    let mut bytes = [0; 8];
    rt.fill_bytes(&mut bytes)?;
    Ok(u64::from_le_bytes(bytes))
}
