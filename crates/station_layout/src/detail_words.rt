//! What is wrong with a route, in words.

ghost use Rattle.std.specs.Prelude.{◌≡◌};
ghost use Rattle.station_layout.specs.Advice.{route_advice_words, words_of_route};
ghost use Rattle.station_layout.specs.declared.detail.RouteDetail.TheVariants.{Path, Points};
ghost use Rattle.station_layout.specs.inside.Sentences.{sentence_words};

use crate::detail::{PathDetail, PointDetail, RouteAdvice, RouteDetail};
use crate::route_sides::other;
use crate::sentence::Part::{Name, Nothing, Port, Route, Side};
use crate::sentence::{Sentence, Words};
use control_table::FaultyRoute;

// What is wrong with the path of a route.
const EMPTY: Words = &["the path of ", " is empty", "", "", "", ""];

const DEAD_END: Words = &[
    "the path of ",
    " breaks at ",
    ": nothing is joined to it",
    "",
    "",
    "",
];

const ASTRAY: Words = &[
    "the path of ",
    " breaks at ",
    ": it is joined to ",
    ", from where no train leaves by ",
    "",
    "",
];

const TWICE: Words = &["the path of ", " leads over ", " twice", "", "", ""];

const COMES_BACK: Words = &[
    "the path of ",
    " comes back to section ",
    ", which it left",
    "",
    "",
    "",
];

const OPEN_LEG: Words = &[
    "the path of ",
    " doesn't use ",
    ", which is open: no signal stands at ",
    ", to which it is joined",
    "",
    "",
];

const FLANK_LACKS: Words = &[
    "the path of ",
    " doesn't use ",
    ", which is joined to ",
    ": point ",
    " has to be written ",
    " under `flank`",
];

const ENDS_ELSEWHERE: Words = &[
    "the path of ",
    " ends at ",
    ", where its exit ",
    " isn't",
    "",
    "",
];

const ENDS_AT_ENTRY: Words = &[
    "the path of ",
    " has its entry signal ",
    " for its exit",
    "",
    "",
    "",
];

const IN_THE_WAY: Words = &[
    "the path of ",
    " passes ",
    ", where signal ",
    " stands in the way",
    "",
    "",
];

impl PathDetail {
    /// That this is wrong with the path of a route.
    #[tactic(auto, using(crate::proofs::SentenceEnds::without_end), unfolding(crate::specs::DetailWords::path_words, crate::specs::inside::Sentences::part_words))]
    fn sentence(self, route: FaultyRoute) -> Sentence
        ensures { sentence_words result ≡ words_of_route route (Path self) }
    {
        let route = Route(route);
        let (words, first, second) = match self {
            PathDetail::Empty => (EMPTY, Nothing, Nothing),
            PathDetail::DeadEnd(port) => (DEAD_END, Port(port), Nothing),
            PathDetail::Astray(before, entered, left) => {
                let (entered, left) = (Port(entered), Port(left));
                return Sentence(ASTRAY, route, Port(before), entered, left, Nothing);
            }
            PathDetail::Twice(name) => (TWICE, Name(name), Nothing),
            PathDetail::ComesBack(section) => (COMES_BACK, Name(section), Nothing),
            PathDetail::OpenLeg(leg, from) => (OPEN_LEG, Port(leg), Port(from)),
            PathDetail::FlankLacks(leg, from, side) => {
                let (point, side) = (Name(from.element), Side(side));
                return Sentence(FLANK_LACKS, route, Port(leg), Port(from), point, side);
            }
            PathDetail::EndsElsewhere(port, exit) => (ENDS_ELSEWHERE, Port(port), Name(exit)),
            PathDetail::EndsAtEntry(entry) => (ENDS_AT_ENTRY, Name(entry), Nothing),
            PathDetail::InTheWay(name, port) => (IN_THE_WAY, Port(port), Name(name)),
        };
        Sentence(words, route, first, second, Nothing, Nothing)
    }
}

// What is wrong with the points of a route.
const OFF_PATH: Words = &[
    "",
    " writes point ",
    " under `points`, and its path doesn't lead over it",
    "",
    "",
    "",
];

const POINT_AT: Words = &[
    "",
    " writes point ",
    " ",
    " under `points`, and requires it ",
    "",
    "",
];

const ON_PATH: Words = &[
    "",
    " writes point ",
    " under `flank`, and its path leads over it",
    "",
    "",
    "",
];

const FLANK_AT: Words = &[
    "",
    " writes point ",
    " ",
    " under `flank`, and doesn't require it so",
    "",
    "",
];

const BOTH_SIDES: Words = &["", " requires point ", " at both sides", "", "", ""];

impl PointDetail {
    /// That this is wrong with the points of a route.
    #[tactic(auto, using(crate::proofs::SentenceEnds::without_end), unfolding(crate::specs::DetailWords::point_words, crate::specs::inside::Sentences::part_words))]
    fn sentence(self, route: FaultyRoute) -> Sentence
        ensures { sentence_words result ≡ words_of_route route (Points self) }
    {
        let (words, name, first, second) = match self {
            PointDetail::OffPath(name) => (OFF_PATH, name, Nothing, Nothing),
            PointDetail::PointAt(name, side) => (POINT_AT, name, Side(side), Side(other(side))),
            PointDetail::OnPath(name) => (ON_PATH, name, Nothing, Nothing),
            PointDetail::FlankAt(name, side) => (FLANK_AT, name, Side(side), Nothing),
            PointDetail::BothSides(name) => (BOTH_SIDES, name, Nothing, Nothing),
        };
        Sentence(words, Route(route), Name(name), first, second, Nothing)
    }
}

// What else is wrong with a route.
const UNWRITTEN: Words = &[
    "point ",
    " lies on the path of ",
    " and isn't written under its `points`",
    "",
    "",
    "",
];

const WITH_ITSELF: Words = &["under `extra` ", " lists itself", "", "", "", ""];

const UNANSWERED: Words = &[
    "under `extra` ",
    " lists route ",
    ", which doesn't list it",
    "",
    "",
    "",
];

impl RouteAdvice {
    /// What is told of a route.
    #[tactic(auto, unfolding(crate::specs::Advice::route_advice_words, crate::specs::inside::Sentences::part_words))]
    pub(crate) fn sentence(&self) -> Sentence
        ensures { sentence_words result ≡ route_advice_words self.now }
    {
        let route = self.route;
        match self.detail {
            RouteDetail::Path(detail) => detail.sentence(route),
            RouteDetail::Points(detail) => detail.sentence(route),
            RouteDetail::Unwritten(point) => {
                Sentence(
                    UNWRITTEN,
                    Name(point),
                    Route(route),
                    Nothing,
                    Nothing,
                    Nothing,
                )
            }
            RouteDetail::WithItself => {
                Sentence(
                    WITH_ITSELF,
                    Route(route),
                    Nothing,
                    Nothing,
                    Nothing,
                    Nothing,
                )
            }
            RouteDetail::Unanswered(other) => {
                Sentence(
                    UNANSWERED,
                    Route(route),
                    Name(other),
                    Nothing,
                    Nothing,
                    Nothing,
                )
            }
        }
    }
}
