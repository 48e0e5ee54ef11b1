//! A network over memory.

use station_panel::station_drive::{Datagrams, MemoryNetwork};
use station_run::NodeId;

/// Whether a node receives these bytes, or nothing.
pub(crate) fn receives<N: Datagrams>(net: &mut N, node: usize, wanted: Option<&[u8]>) -> bool {
    match (net.receive(NodeId(node)), wanted) {
        (Ok(Some(bytes)), Some(wanted)) => bytes.as_slice() == wanted,
        (Ok(None), None) => true,
        _ => false,
    }
}

#[test]
fn what_comes_for_a_node_is_heard_there_once(rt: HostRuntime) {
    let mut net = MemoryNetwork::new(rt.alloc(), 0);
    assert!(rt; net.bring(NodeId(2), b"ab").is_ok());
    assert!(rt; net.bring(NodeId(2), &[1; 600]).is_ok());
    assert!(rt; receives(&mut net, 1, None));
    assert!(rt; receives(&mut net, 2, Some(b"ab")));
    assert!(rt; receives(&mut net, 2, Some(&[1; 512])));
    assert!(rt; receives(&mut net, 2, None));
    assert!(rt; net.calls().len() == 4);
}
