//! Addresses of nodes in one network and in two.

use crate::run_bench::SMALL;
use node_addresses::{AddressesFault, Networks, read_networks};
use station_run::table_of;
use std::net::SocketAddr;

/// Each node has one address.
const ONE: &str = r#"
IXL1 = "10.0.1.1:5001"
S1 = "10.0.1.2:5001"
S3 = "10.0.1.3:5001"
S4 = "10.0.1.4:5001"
P1 = "10.0.1.5:5001"
D1 = "10.0.1.6:5001"
"#;

/// Each node has two.
const TWO: &str = r#"
IXL1 = ["10.0.1.1:5001", "10.0.2.1:5001"]
S1 = ["10.0.1.2:5001", "10.0.2.2:5001"]
S3 = ["10.0.1.3:5001", "10.0.2.3:5001"]
S4 = ["10.0.1.4:5001", "10.0.2.4:5001"]
P1 = ["10.0.1.5:5001", "10.0.2.5:5001"]
D1 = ["10.0.1.6:5001", "10.0.2.6:5001"]
"#;

/// S1 has one address, and the node before it two.
const MIXED: &str = r#"
IXL1 = ["10.0.1.1:5001", "10.0.2.1:5001"]
S1 = "10.0.1.2:5001"
"#;

/// The second address of S1 is the first of the node before it.
const DOUBLE: &str = r#"
IXL1 = ["10.0.1.1:5001", "10.0.2.1:5001"]
S1 = ["10.0.1.2:5001", "10.0.1.1:5001"]
S3 = ["10.0.1.3:5001", "10.0.2.3:5001"]
S4 = ["10.0.1.4:5001", "10.0.2.4:5001"]
P1 = ["10.0.1.5:5001", "10.0.2.5:5001"]
D1 = ["10.0.1.6:5001", "10.0.2.6:5001"]
"#;

/// What a text gives the small station, if its layout can be read.
fn read(rt: &HostRuntime, text: &str) -> Option<Result<Networks, AddressesFault>> {
    let table = table_of(rt.alloc(), SMALL).ok()?;
    Some(read_networks(rt.alloc(), table.layout(), text))
}

/// Whether the last of these addresses is this one.
fn ends_with(addresses: &[SocketAddr], wanted: &str) -> bool {
    match (addresses.last(), wanted.parse::<SocketAddr>()) {
        (Some(last), Ok(wanted)) => addresses.len() == 6 && *last == wanted,
        _ => false,
    }
}

/// Whether one network is read.
fn reads_one(rt: &HostRuntime) -> bool {
    match read(rt, ONE) {
        Some(Ok(one)) => ends_with(one.first(), "10.0.1.6:5001") && one.second().is_none(),
        _ => false,
    }
}

/// Whether two are read.
fn reads_two(rt: &HostRuntime) -> bool {
    let Some(Ok(two)) = read(rt, TWO) else {
        return false;
    };
    match two.second() {
        Some(second) => {
            ends_with(two.first(), "10.0.1.6:5001") && ends_with(second, "10.0.2.6:5001")
        }
        None => false,
    }
}

#[test]
fn a_node_has_one_address_or_one_in_each_network(rt: HostRuntime) {
    assert!(rt; reads_one(&rt));
    assert!(rt; reads_two(&rt));
}

#[test]
fn all_nodes_have_as_many_addresses_and_no_two_are_the_same(rt: HostRuntime) {
    assert!(rt; matches!(read(&rt, MIXED), Some(Err(AddressesFault::WrongAddress(_)))));
    assert!(rt;
        matches!(
            read(&rt, DOUBLE),
            Some(Err(AddressesFault::DoubleAddress(_)))
        )
    );
}
