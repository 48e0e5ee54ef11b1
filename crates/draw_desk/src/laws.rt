//! What the rules of who may ask what, and of when the file is written, come to.

ghost use Rattle.std.specs.Prelude.{◌≡◌, ℕ, List, Ok, true};
ghost use Rattle.http.specs.declared.request.Request.{Request as Incoming};
ghost use Rattle.http_server.specs.declared.response.Response.{Response};
ghost use Rattle.draw_desk.specs.Answers.{Answered, DeskView, sent_of};
ghost use Rattle.draw_desk.specs.Asked.{ComesFromThePage, IsForDesk, asked, does};
ghost use Rattle.draw_desk.specs.Seen.{AccessView, SentView};
ghost use Rattle.draw_desk.specs.Worked.{Worked};
ghost use Rattle.draw_desk.specs.Writing.{MadeCalls};
ghost use Rattle.draw_desk.specs.declared.request.Request.{Request as Wanted};

use crate::outside::Outside;

/// What is done and not only shown was posted by the desk's own page, with its token.
pub fn what_is_done_comes_from_the_page()
    ensures { (access : AccessView) (sent : SentView) (wanted : Wanted) → asked access sent ≡ Ok wanted → does wanted ≡ true → ComesFromThePage access sent }
{}

/// Nothing is answered to a request that was sent to another host.
pub fn nothing_is_for_other_hosts()
    ensures { (access : AccessView) (sent : SentView) (wanted : Wanted) → asked access sent ≡ Ok wanted → IsForDesk access sent }
{}

/// Whatever is asked, the file is written over only where it is known: it was read just before, and either the text that was found is
/// the one that the desk read or wrote last, and the page that saves says its number; or the page says that it writes over anything.
pub fn a_file_is_written_over_only_where_it_is_known<O: Outside>()
    ensures { (old new : DeskView) (request : Incoming (List ℕ)) (response : Response)
        → Answered O.judges old request response new → MadeCalls (sent_of request) old new }
{}

/// Requests worked by hand.
pub fn requests_are_as_worked_by_hand()
    ensures { Worked }
{}
