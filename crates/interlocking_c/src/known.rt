//! What is known of the things of a station, in the numbers of C.

ghost use Rattle.std.specs.Prelude.{◌≡◌};
ghost use Rattle.interlocking_c.specs.Known.{aspect_told, authority_told, occupancy_told, readiness_told, side_told, truth_told};

use embedded_ixl::{Aspect, Authority, Occupancy, Readiness, Side};

/// Whether a route has authority from a signal, and which.
#[repr(C)]
#[derive(Clone, Copy)]
pub struct AuthorityTold {
    /// 1 where one has it.
    pub given: u32,
    /// Of the route, or 0.
    pub aspect: u32,
    /// Its place, or 0.
    pub route: usize,
}

/// 0 stop, 1 proceed, 2 slow, 3 not known.
pub(crate) fn aspect_told(aspect: Option<Aspect>) -> u32
    ensures { result ≡ aspect_told aspect }
{
    match aspect {
        Some(Aspect::Stop) => 0,
        Some(Aspect::Proceed) => 1,
        Some(Aspect::Slow) => 2,
        None => 3,
    }
}

/// 0 clear, 1 occupied, 2 not known.
pub(crate) fn occupancy_told(occupancy: Option<Occupancy>) -> u32
    ensures { result ≡ occupancy_told occupancy }
{
    match occupancy {
        Some(Occupancy::Clear) => 0,
        Some(Occupancy::Occupied) => 1,
        None => 2,
    }
}

/// 0 at no side or not known, 1 left, 2 right.
pub(crate) fn side_told(side: Option<Side>) -> u32
    ensures { result ≡ side_told side }
{
    match side {
        None => 0,
        Some(Side::Left) => 1,
        Some(Side::Right) => 2,
    }
}

/// 1 where it is so, and 0 where it isn't.
pub(crate) fn truth_told(holds: bool) -> u32
    ensures { result ≡ truth_told holds }
{
    u32::from(holds)
}

/// 0 it holds, 1 it waits to be told to resume, 2 it takes requests.
pub(crate) fn readiness_told(readiness: Readiness) -> u32
    ensures { result ≡ readiness_told readiness }
{
    match readiness {
        Readiness::Holding => 0,
        Readiness::WaitingForResume => 1,
        Readiness::TakesRequests => 2,
    }
}

/// The route with authority, if there is one.
pub(crate) fn authority_told(authority: Option<Authority>) -> AuthorityTold
    ensures { result ≡ authority_told authority }
{
    match authority {
        Some(authority) => AuthorityTold {
            given: 1,
            aspect: aspect_told(Some(authority.aspect)),
            route: authority.route.0,
        },
        None => AuthorityTold {
            given: 0,
            aspect: 0,
            route: 0,
        },
    }
}
