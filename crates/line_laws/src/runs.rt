//! Computed runs of a line, right ones and wrong ones.

ghost use Rattle.std.specs.Prelude.{◌≡◌, Bool, List, true, false};
ghost use Rattle.line_laws.specs.Promise.{HasToken, IsLocked, TellsClear};
ghost use Rattle.line_laws.specs.Runs.{TokenAtFirst, TokenAtSecond, TokenIsLost, both_asked, cleared_again, give_missed, give_refused, given_back, given_unsent, handed_over, line_after, link_lost, made_again_after, occupied_after, occupied_there, second_restarted, told_clear};
ghost use Rattle.line_laws.specs.Wrong.{EndsWithTwoLocked, EndsWithTwoTokens, TellsFalsely, answers_busy, forgets_token, given_between, given_locked, given_unwritten, gives_locked, keeps_empty_busy, keeps_empty_given, keeps_empty_restarted, keeps_told, keeps_token, known_busy, known_by_give, known_given, known_restarted, locked_without_token, locks_without_token, makes_untold, none_said_falsely, passed_between, queried_busy, right_parts, says_none_always, step_by, takes_empty_with_give, token_forgotten, token_kept, token_made_untold, unspoiled_by_contacts, unspoiled_by_give, writes_last};
ghost use Rattle.line_laws.specs.Step.{step};
ghost use Rattle.line_laws.specs.End.{End, Seen};
ghost use Rattle.line_laws.specs.declared.words.Side.{Side};
ghost use Rattle.line_laws.specs.declared.words.Item.{Item};

/// The token goes from the first end to the second, which is told that the line is clear, and locks it.
pub fn token_is_handed_over()
    ensures token { TokenAtSecond (line_after handed_over) }
    ensures clear { TellsClear (line_after handed_over).second }
    ensures locked { IsLocked (line_after handed_over).second }
{}

/// Two ends that both ask have the token one after the other, and the one that locks keeps it until its lock is open.
pub fn both_may_ask()
    ensures second { TokenAtSecond (line_after both_asked) }
    ensures locked { IsLocked (line_after both_asked).second }
    ensures first { TokenAtFirst (line_after given_back) }
{}

/// The token stays where it is when the link is lost, or when its end is made anew.
pub fn token_outlives_the_link()
    ensures lost { TokenAtSecond (line_after link_lost) }
    ensures restarted { TokenAtSecond (line_after second_restarted) }
    ensures locked { IsLocked (line_after second_restarted).second }
{}

/// A token that was given and not taken is lost, and is made again at the first end in the next connection.
pub fn lost_token_is_made_again()
    ensures unsent { TokenIsLost (line_after given_unsent) }
    ensures refused { TokenIsLost (line_after give_refused) }
    ensures missed { TokenIsLost (line_after give_missed) }
    ensures unsent_again { TokenAtFirst (line_after (made_again_after given_unsent)) }
    ensures refused_again { TokenAtFirst (line_after (made_again_after give_refused)) }
    ensures missed_again { TokenAtFirst (line_after (made_again_after give_missed)) }
{}

/// An end is told that the line is clear once both parts are.
pub fn clear_is_told_when_both_are()
    ensures told { TellsClear (line_after told_clear).first }
    ensures occupied { (line_after occupied_after).first.end.empty ≡ false }
    ensures there { (line_after occupied_there).first.end.empty ≡ false }
    ensures again { TellsClear (line_after cleared_again).first }
{}

/// With one rule of the token or of the lock changed, both ends have the token in the end, or both locks lie at the
/// right.
pub fn each_rule_of_the_token_is_needed()
    ensures kept { EndsWithTwoTokens keeps_token token_kept }
    ensures untold { EndsWithTwoTokens makes_untold token_made_untold }
    ensures told { EndsWithTwoTokens keeps_told token_made_untold }
    ensures said { EndsWithTwoTokens says_none_always none_said_falsely }
    ensures unwritten { EndsWithTwoTokens writes_last given_unwritten }
    ensures locked { EndsWithTwoLocked gives_locked given_locked }
    ensures forgotten { EndsWithTwoLocked forgets_token token_forgotten }
    ensures without { EndsWithTwoLocked locks_without_token locked_without_token }
{}

/// With one rule of what is known of the line changed, an end tells clear, and the line wasn't.
pub fn each_rule_of_clear_is_needed()
    ensures busy { TellsFalsely answers_busy Side.First queried_busy }
    ensures contacts { TellsFalsely unspoiled_by_contacts Side.First passed_between }
    ensures give { TellsFalsely unspoiled_by_give Side.First given_between }
    ensures kept_busy { TellsFalsely keeps_empty_busy Side.First known_busy }
    ensures kept_given { TellsFalsely keeps_empty_given Side.First known_given }
    ensures taken { TellsFalsely takes_empty_with_give Side.Second known_by_give }
    ensures restarted { TellsFalsely keeps_empty_restarted Side.First known_restarted }
{}

/// The right parts of a step make the right step.
pub fn right_parts_make_the_step()
    ensures { (side : Side) (up : Bool) (seen : Seen) (items : List Item) (end : End) → step_by right_parts side up seen items end ≡ step side up seen items end }
{}
