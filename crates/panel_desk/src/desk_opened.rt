//! The desk of a panel is opened.

ghost use Rattle.std.specs.Prelude.{◌≡◌, ◌++◌, [], IfOk, Some, codes, string_bytes};
ghost use Rattle.std.specs.Fmt.{decimal};
ghost use Rattle.serde_json.specs.Read.{read};
ghost use Rattle.panel_desk.specs.Abouts.{told_once};
ghost use Rattle.run_numbers.specs.Metrics.{nothing_told};
ghost use Rattle.panel_desk.specs.Lines.{blank};
ghost use Rattle.panel_desk.specs.Answers.{access_at};

use crate::desk::{Desk, OwnAccess};
use crate::{About, Board, about_text};
use bytes::Bytes;
use node_lines::Checked;
use std::alloc::{AllocError, Global};
use std::io;
use std::random::RandomSource;

/// What a panel's page is made of, and where it is.
#[derive(Clone, Copy)]
pub struct PageAsked<'a> {
    /// The text of the layout.
    pub layout: &'a str,
    /// Its track plan, as SVG.
    pub plan: &'a str,
    /// The page that is served.
    pub page: &'static str,
    /// The version of the program.
    pub version: &'a str,
    /// The port of the page, on the loopback interface.
    pub port: u16,
    /// What stands behind the panel: `world`, or `node`.
    pub kind: &'a str,
    /// The path of the record, or nothing where there is none.
    pub record: &'a str,
}

/// Opens the desk of a panel of a layout, with so many places for lines. A token is drawn for its page.
pub fn open_desk<R: RandomSource>(
    rt: &R,
    alloc: Global,
    table: Checked,
    places: usize,
    asked: &PageAsked<'_>,
) -> io::Result<Desk>
    ensures site { IfOk result (λ desk. desk.site ≡ table) }
    ensures access { IfOk result (λ desk. desk.access ≡ access_at asked.now.port desk.access.token) }
    ensures page { IfOk result (λ desk. desk.page ≡ asked.now.page.now) }
    ensures station { IfOk result (λ desk. read desk.station ≡ Some (told_once asked.now table.station.name desk.access.token)) }
    ensures board { IfOk result (λ desk. desk.board ≡ blank places) }
    ensures numbers { IfOk result (λ desk. desk.numbers ≡ nothing_told) }
    ensures waiting { IfOk result (λ desk. desk.waiting ≡ []) }
{
    let token = draw_token(rt, alloc)?;
    let port = asked.port;
    let host = format!(in alloc; "127.0.0.1:{port}")?;
    let origin = format!(in alloc; "http://127.0.0.1:{port}")?;
    let name = table.layout().station().name.as_str();
    let station = told_once(alloc, name, asked, token.as_str())?;
    let board = Board::new(alloc, places)?;
    let page = Bytes::from_static(asked.page.as_bytes());
    let access = OwnAccess {
        host,
        origin,
        token,
    };
    Ok(Desk::new(alloc, table, access, page, station, board)?)
}

/// A token that nobody guesses.
fn draw_token<R: RandomSource>(rt: &R, alloc: Global) -> io::Result<String> {
    let (first, second) = (drawn(rt)?, drawn(rt)?);
    Ok(format!(in alloc; "{first}-{second}")?)
}

/// A number that is drawn from the machine's random source.
fn drawn<R: RandomSource>(rt: &R) -> io::Result<u64> {
    let mut bytes = [0; 8];
    rt.fill_bytes(&mut bytes)?;
    Ok(u64::from_le_bytes(bytes))
}

/// What a page is told once.
fn told_once(
    alloc: Global,
    name: &str,
    asked: &PageAsked<'_>,
    token: &str,
) -> Result<Bytes, AllocError>
    ensures { IfOk result (λ station. read station ≡ Some (told_once asked.now name.now token.now)) }
{
    let told = About {
        name,
        version: asked.version,
        kind: asked.kind,
        token,
        record: asked.record,
        plan: asked.plan,
        layout: asked.layout,
    };
    Bytes::from_string(about_text(alloc, &told)?)
}
