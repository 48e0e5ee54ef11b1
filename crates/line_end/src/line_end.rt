//! An end of a line, and its step.

ghost use Rattle.std.specs.Prelude.{◌≡◌, ◌≤◌, ◌↔◌, false, true, IsTrue};
ghost use Rattle.arrayvec.specs.ArrayVec.{array_vec_len};
ghost use Rattle.line_laws.specs.End.{file_of, made_anew, unlinked};
ghost use Rattle.line_laws.specs.Step.{all_taken, introduced, linked_step, step_between, lock_moved, made_again, may_answer, may_ask, may_give, may_query, noticed, partner_queried, query_answered, taken, token_asked, token_given, without_token};
ghost use Rattle.line_end.specs.State.{changed_file, output, so_far, stepped};

use crate::kept::Kept;
use crate::output::Output;
use crate::rules::{
    is_driven_right, is_first, is_no, is_right, is_same_flag, is_same_position, is_sound,
    lock_after, spoiled,
};
use crate::seen::Seen;
use arrayvec::ArrayVec;
use line_laws::{Item, Position, QueryOut, Side};
use std::marker::Model;

/// An end of a line.
#[derive(Drop)]
pub struct LineEnd {
    side: Side,
    /// The line's token is here.
    token: bool,
    /// Where the lock lies.
    lock: Position,
    /// The line is known to be empty.
    empty: bool,
    query: QueryOut,
    /// The partner's Ask is unanswered.
    asked: bool,
    /// The partner's Query is unanswered.
    queried: bool,
    /// The own Ask is unanswered.
    asking: bool,
    /// The first end was told that the second has no token.
    none_told: bool,
    /// The second end has said whether it has no token.
    none_said: bool,
}

impl Model for LineEnd {
    ghost use Rattle.line_end.specs.State.{EndState};

    ghost Value = { EndState };

    ghost view = { λ line. record { side = line.side; end = record { token = line.token; lock = line.lock; empty = line.empty; query = line.query; asked = line.asked; queried = line.queried; asking = line.asking; none_told = line.none_told; none_said = line.none_said } } };
}

/// The items that a step gives to its link.
type Given = ArrayVec<Item, 5>;

impl LineEnd {
    /// An end made anew from its file: it is out of any connection, and the line isn't known to be empty.
    pub fn new(side: Side, kept: Kept) -> LineEnd
        ensures { result ≡ record { side = side; end = made_anew kept } }
    {
        LineEnd {
            side,
            token: kept.token(),
            lock: kept.lock(),
            empty: false,
            query: QueryOut::No,
            asked: false,
            queried: false,
            asking: false,
            none_told: false,
            none_said: false,
        }
    }

    pub fn side(&self) -> Side
        ensures { result ≡ self.now.side }
    {
        self.side
    }

    /// What the end's file is to have.
    pub fn kept(&self) -> Kept
        ensures { result ≡ file_of self.now.end }
    {
        Kept::new(self.token, self.lock)
    }

    /// Whether the line's token is here.
    pub fn has_token(&self) -> bool
        ensures { result ≡ self.now.end.token }
    {
        self.token
    }

    /// Where the lock lies.
    pub fn lock(&self) -> Position
        ensures { result ≡ self.now.end.lock }
    {
        self.lock
    }

    /// Whether the partner asks for the token.
    pub fn is_asked(&self) -> bool
        ensures { result ≡ self.now.end.asked }
    {
        self.asked
    }

    /// Whether the station is told that the line is clear, where `busy` says that a contact of the own part is
    /// occupied.
    pub fn tells_clear(&self, busy: bool) -> bool
        ensures { IsTrue result ↔ (self.now.end.empty ≡ true) × (busy ≡ false) }
    {
        self.empty && !busy
    }

    /// The lock comes to lie where it is driven.
    fn move_lock(&mut self, seen: &Seen)
        ensures { self.new ≡ record self.old { end = lock_moved seen.now self.old.end } }
    {
        self.lock = lock_after(seen.drive(), self.token, self.lock);
    }

    /// An occupied contact ends what was known, and spoils a query.
    fn notice(&mut self, seen: &Seen)
        ensures { self.new ≡ record self.old { end = noticed seen.now self.old.end } }
    {
        if seen.busy() {
            self.empty = false;
            self.query = spoiled(self.query);
        }
    }

    /// The link isn't up, or has left its connection: nothing is asked, queried or told.
    pub fn unlink(&mut self)
        ensures { self.new ≡ record self.old { end = unlinked self.old.end } }
    {
        self.query = QueryOut::No;
        self.asked = false;
        self.queried = false;
        self.asking = false;
        self.none_told = false;
        self.none_said = false;
    }

    /// The next item is taken.
    fn take(&mut self, seen: &Seen, item: Item)
        ensures { self.new ≡ record self.old { end = taken seen.now item self.old.end } }
    {
        match item {
            Item::Ask => self.asked = true,
            Item::Give => {
                self.token = true;
                self.asking = false;
                self.empty = false;
            }
            Item::Query => self.queried = true,
            Item::Clear => {
                if is_sound(self.query) && !seen.busy() && self.token {
                    self.empty = true;
                }
                self.query = QueryOut::No;
            }
            Item::NoToken => self.none_told = true,
        }
    }

    /// All items are taken, oldest first.
    fn take_all(&mut self, seen: &Seen, items: &[Item])
        ensures { self.new ≡ record self.old { end = all_taken seen.now items.now self.old.end } }
    {
        for item in items {
            self.take(seen, *item);
        }
    }

    /// The first end makes a lost token again, when it was told that the second has none.
    fn make_again(&mut self)
        ensures { self.new ≡ record self.old { end = made_again self.old.side self.old.end } }
    {
        if is_first(self.side) && !self.token && self.none_told {
            self.token = true;
            self.none_told = false;
        }
    }

    /// The second end says once in a connection, before all else, whether it has no token.
    fn introduce(&mut self, given: &mut Given)
        requires { array_vec_len given.old ≤ 0 }
        ensures so_far { so_far self.new given.new.items ≡ introduced self.old.side (so_far self.old given.old.items) }
        ensures side { self.new.side ≡ self.old.side }
        ensures room { array_vec_len given.new ≤ 1 }
    {
        if !is_first(self.side) && !self.none_said {
            self.none_said = true;
            if !self.token {
                given.push(Item::NoToken);
            }
        }
    }

    /// The token is given where it is asked for, and the lock isn't at the right and isn't driven there.
    fn give_token(&mut self, seen: &Seen, given: &mut Given)
        requires { array_vec_len given.old ≤ 1 }
        ensures so_far { so_far self.new given.new.items ≡ token_given seen.now (so_far self.old given.old.items) }
        ensures side { self.new.side ≡ self.old.side }
        ensures room { array_vec_len given.new ≤ 2 }
    {
        if self.token && self.asked && !is_right(self.lock) && !is_driven_right(seen.drive()) {
            self.token = false;
            self.none_told = false;
            self.query = spoiled(self.query);
            self.empty = false;
            self.asked = false;
            given.push(Item::Give);
        }
    }

    /// The token is asked for where the operator wishes it or the lock is driven right.
    fn ask_for_token(&mut self, seen: &Seen, given: &mut Given)
        requires { array_vec_len given.old ≤ 2 }
        ensures so_far { so_far self.new given.new.items ≡ token_asked seen.now (so_far self.old given.old.items) }
        ensures side { self.new.side ≡ self.old.side }
        ensures room { array_vec_len given.new ≤ 3 }
    {
        if !self.token && !self.asking && (seen.wish() || is_driven_right(seen.drive())) {
            self.asking = true;
            given.push(Item::Ask);
        }
    }

    /// The partner is queried where its answer may tell that the line is empty.
    fn query_partner(&mut self, seen: &Seen, given: &mut Given)
        requires { array_vec_len given.old ≤ 3 }
        ensures so_far { so_far self.new given.new.items ≡ partner_queried seen.now (so_far self.old given.old.items) }
        ensures side { self.new.side ≡ self.old.side }
        ensures room { array_vec_len given.new ≤ 4 }
    {
        if self.token && !seen.busy() && !self.empty && is_no(self.query) {
            self.query = QueryOut::Sound;
            given.push(Item::Query);
        }
    }

    /// A query is answered where the own part is clear.
    fn answer_query(&mut self, seen: &Seen, given: &mut Given)
        requires { array_vec_len given.old ≤ 4 }
        ensures so_far { so_far self.new given.new.items ≡ query_answered seen.now (so_far self.old given.old.items) }
        ensures side { self.new.side ≡ self.old.side }
    {
        if self.queried && !seen.busy() {
            self.queried = false;
            given.push(Item::Clear);
        }
    }

    /// What a step does in a connection.
    fn step_linked(&mut self, seen: &Seen, items: &[Item]) -> Given
        ensures so_far { so_far self.new result.items ≡ linked_step self.old.side seen.now items.now self.old.end }
        ensures side { self.new.side ≡ self.old.side }
    {
        let mut given = ArrayVec::new();
        self.take_all(seen, items);
        self.make_again();
        self.introduce(&mut given);
        self.give_token(seen, &mut given);
        self.ask_for_token(seen, &mut given);
        self.query_partner(seen, &mut given);
        self.answer_query(seen, &mut given);
        given
    }

    /// What a step does in a connection or out of any.
    fn step_between(&mut self, up: bool, seen: &Seen, items: &[Item]) -> Given
        ensures so_far { so_far self.new result.items ≡ step_between self.old.side up seen.now items.now self.old.end }
        ensures side { self.new.side ≡ self.old.side }
    {
        if up {
            self.step_linked(seen, items)
        } else {
            self.unlink();
            ArrayVec::new()
        }
    }

    /// What is to be written, where the file has this.
    fn written_since(&self, kept: Kept) -> Option<Kept>
        ensures { result ≡ changed_file kept (file_of self.now.end) }
    {
        let now = self.kept();
        if is_same_flag(kept.token(), now.token()) && is_same_position(kept.lock(), now.lock()) {
            None
        } else {
            Some(now)
        }
    }

    /// A step. `up` says whether the link is up; `items` are those that it handed out since the last step, oldest
    /// first. An end makes a step at each change of its contacts before the station is told of it, and at least one with
    /// a link that isn't up between two connections.
    pub fn step(&mut self, up: bool, seen: &Seen, items: &[Item]) -> Output
        ensures end { self.new ≡ stepped up seen.now items.now self.old }
        ensures output { result ≡ output up seen.now items.now self.old }
    {
        let before = self.kept();
        self.move_lock(seen);
        self.notice(seen);
        let items = self.step_between(up, seen, items);
        self.move_lock(seen);
        let written = self.written_since(before);
        Output { written, items }
    }
}
