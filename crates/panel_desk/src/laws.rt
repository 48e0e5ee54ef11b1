//! What the rules of who may ask what, and the definitions of what is shown, come to.

ghost use Rattle.std.specs.Prelude.{◌≡◌, List, Ok, length, map};
ghost use Rattle.node_lines.specs.layout.Entries.{Site};
ghost use Rattle.panel_desk.specs.Pages.{texts};
ghost use Rattle.panel_desk.specs.Answers.{DeskView};
ghost use Rattle.panel_desk.specs.Asked.{ComesFromThePage, IsForPanel, asked};
ghost use Rattle.panel_desk.specs.Seen.{AccessView, SentView};
ghost use Rattle.panel_desk.specs.Boards.{shown_anew};
ghost use Rattle.panel_desk.specs.ShownLines.{panel_text};
ghost use Rattle.panel_desk.specs.Worked.{Worked};
ghost use Rattle.panel_desk.specs.declared.panel_command.PanelCommand.{PanelCommand as Asks};
ghost use Rattle.panel_desk.specs.declared.panel_line.PanelLine.{PanelLine as Line};
ghost use Rattle.panel_desk.specs.declared.request.Request.{Request as Wanted};
ghost use Rattle.panel_desk.specs.declared.request.Request.TheVariants.{Command};

/// What is taken for a command was posted by the panel's own page, with its token, in at most 512 bytes that say it.
pub fn commands_come_from_the_page()
    ensures { (site : Site) (access : AccessView) (sent : SentView) (command : Asks) → asked site access sent ≡ Ok (Command command) → ComesFromThePage site access sent command }
{}

/// Nothing is answered to a request that was sent to another host.
pub fn nothing_is_for_other_hosts()
    ensures { (site : Site) (access : AccessView) (sent : SentView) (wanted : Wanted) → asked site access sent ≡ Ok wanted → IsForPanel access sent }
{}

/// Requests worked by hand.
pub fn requests_are_as_worked_by_hand()
    ensures { (site : Site) → Worked site }
{}

/// Where a desk has a place for each line, it shows these lines, and nothing else.
pub fn what_is_shown_is_the_picture()
    ensures { (site : Site) (lines : List Line) (desk : DeskView) → length desk.board.shown ≡ length lines → texts (shown_anew site lines desk).board.shown ≡ map (panel_text site) lines }
{}
